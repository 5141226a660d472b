// What the station is lent, and what the program keeps beside it.
ghost use Rattle.std.specs.Prelude.{◌≡◌, [], ◌∷◌, ◌++◌, cond, length, take, nat_lt};
ghost use Rattle.driver.specs.Kept.{kept};

// The words of the open command. (A burst has 5,569 words at most; words past the 8,192nd make no malformed one well formed.) Memory of a fixed size:
// keeping a word cannot fail.
#[derive(Drop)]
pub struct Words {
    pub words: [u32; 8192],
    pub len: usize,
}

impl Words {
    pub fn clear(&mut self)
        ensures { kept self.new ≡ [] }
    {
        self.len = 0;
    }

    pub fn push(&mut self, w: u32)
        ensures { kept self.new ≡ cond (nat_lt self.old.len 8192) (kept self.old ++ (w ∷ [])) (kept self.old) }
    {
        if self.len < 8192 {
            self.words[self.len] = w;
            self.len += 1;
        }
    }

    pub fn as_slice(&self) -> &[u32]
        ensures { result.now ≡ kept self.now }
    {
        if self.len < self.words.len() {
            &self.words[..self.len]
        } else {
            &self.words[..]
        }
    }
}

// store: the cells; queue: the directed queue; out: what a call writes; words: those of the open command; times and payloads: the durations and the largest
// payloads of data bursts, held for the starts that follow.
#[derive(Drop)]
pub struct Memory {
    pub store: [u8; 409600],
    pub queue: [u8; 126976],
    pub out: [u32; 8192],
    pub words: Words,
    pub times: [f64; 1088],
    pub payloads: [u8; 17],
}
