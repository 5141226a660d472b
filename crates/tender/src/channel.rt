// The channel between boat and shore.
ghost use Rattle.std.specs.Prelude.{length};
ghost use Rattle.std.specs.Iterator.{at_most};

use arrayvec::ArrayVec;

// A burst: a head, and nine pieces of 87 words at most. What would have no room is dropped.
pub type Burst = ArrayVec<u32, 784>;

#[derive(Clone, Copy, Debug)]
pub struct Dice(pub u64);

impl Dice {
    pub fn draw(&mut self) -> u64 {
        self.0 = (self.0 % 2147483648 * 1103515245 + 12345) % 2147483648;
        self.0 / 65536
    }

    // So it is one time in n.
    pub fn one_in(&mut self, n: u64) -> bool {
        self.draw().checked_rem(n) == Some(0)
    }
}

// The frames of a burst, each its words; the head before them is no frame.
#[derive(Drop)]
pub struct Frames<'a>(pub &'a [u32]);

impl<'a> Iterator for Frames<'a> {
    type Item = &'a [u32];

    ghost remaining = { λ s. at_most (length s.0.now) };

    fn next(&mut self) -> Option<&'a [u32]> {
        if self.0.is_empty() {
            return None;
        }
        let size = words::size_of(words::peek(self.0, 0));
        let (frame, others) = self.0.split_at(size.clamp(1, self.0.len()));
        self.0 = others;
        Some(frame)
    }
}

// A burst as it arrives, and how many of its frames are lost ones.
#[derive(Drop)]
pub struct Arrived {
    pub words: Burst,
    pub lost: usize,
}

// The burst as it arrives: each frame is lost one time in four.
pub fn through(dice: &mut Dice, burst: &[u32]) -> Arrived {
    let mut words = Burst::new();
    let mut lost: usize = 0;
    let (head, frames) = burst.split_at(burst.len().min(1));
    let _ = words.try_extend_from_slice(head);
    for frame in Frames(frames) {
        if dice.one_in(4) {
            let _ = words.try_push(0xd000_0000);
            lost = lost.saturating_add(1);
        } else {
            let _ = words.try_extend_from_slice(frame);
        }
    }
    Arrived { words, lost }
}
