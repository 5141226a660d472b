// The payload of a frame, among the words of a burst.
ghost use Rattle.std.specs.Prelude.{◌≡◌, ◌<◌, get_or};
ghost use Rattle.frames.specs.Control.{call_at, is_pending, payload_of};

// The len bytes of the frame at `at`.
#[derive(Clone, Copy)]
pub struct Payload<'a> {
    pub words: &'a [u32],
    pub at: usize,
    pub len: u8,
}

impl Payload<'_> {
    // Byte j; 0 past its end.
    pub fn byte(&self, j: usize) -> u8
        ensures { result ≡ get_or (payload_of self.now) j 0 }
    {
        if j < usize::from(self.len) {
            return words::payload_byte(self.words, self.at, j);
        }
        0
    }

    // The call packed in its five bytes from byte j on.
    pub fn call(&self, j: usize) -> [u8; 7]
        requires { j < 256 }
        ensures { result ≡ call_at (payload_of self.now) j }
    {
        wire::calls::unpack_call([
            self.byte(j),
            self.byte(j + 1),
            self.byte(j + 2),
            self.byte(j + 3),
            self.byte(j + 4),
        ])
    }

    // The report tells of more to come.
    pub fn is_pending(&self) -> bool
        ensures { result ≡ is_pending (payload_of self.now) }
    {
        let a = self.byte(3);
        let b = self.byte(4);
        let c = self.byte(5);
        (a != 0) | (b != 0) | (c != 0)
    }
}
