// Where a log has a fault in the words of its marks.
use super::verdict::Fault;

// What follows a mark: words of its list to come, and the slots listed so far.
#[derive(Clone, Copy)]
struct List {
    left: u32,
    slots: u64,
}

// No bit of a word 6 is set but those that name it and its last six.
fn has_other_bits(word: u32) -> bool {
    word / 64 != 0x6000_0000 / 64
}

impl List {
    fn entry(&mut self, word: u32) -> Result<(), Fault> {
        let slot = (word % 64) as usize;
        if word >> 28 != 6 {
            return Err(Fault::CutShort);
        }
        if has_other_bits(word) {
            return Err(Fault::OtherBits);
        }
        if 61 < slot {
            return Err(Fault::HighSlot);
        }
        if bits::has(self.slots, slot) {
            return Err(Fault::Twice);
        }
        self.left = self.left.saturating_sub(1);
        self.slots = bits::with(self.slots, slot);
        Ok(())
    }

    fn word(&mut self, word: u32) -> Result<(), Fault> {
        if 0 < self.left {
            return self.entry(word);
        }
        if word >> 28 != 6 {
            return Ok(());
        }
        if has_other_bits(word) {
            return Err(Fault::OtherBits);
        }
        self.left = word % 64;
        self.slots = 0;
        Ok(())
    }
}

// The first word 6 with a fault, or the place behind a list that is cut short.
pub fn first_fault(words: &[u32]) -> Option<(usize, Fault)> {
    let mut list = List { left: 0, slots: 0 };
    for (place, word) in words.iter().enumerate() {
        if let Err(fault) = list.word(*word) {
            return Some((place, fault));
        }
    }
    (0 < list.left).then_some((words.len(), Fault::CutShort))
}
