// What the cases are tried with, and the lines that tell what came of them.
use arrayvec::ArrayString;
use refusal::Refusal;
use std::fmt::{self, Write};

// The store and the output that the station is lent, and the text of all lines.
#[derive(Drop)]
pub struct Trial {
    pub store: [u8; 64000],
    pub out: [u32; 8192],
    pub text: ArrayString<2048>,
}

impl Trial {
    pub fn new() -> Trial {
        Trial {
            store: [0; 64000],
            out: [0; 8192],
            text: ArrayString::new(),
        }
    }

    pub fn number(&mut self, what: &str, number: u64) -> fmt::Result {
        writeln!(self.text, "{what}: {number}")
    }

    pub fn answer(&mut self, what: &str, answer: Result<usize, Refusal>) -> fmt::Result {
        writeln!(self.text, "{what}: {}", Told(answer))
    }
}

#[derive(Clone, Copy)]
struct Told(Result<usize, Refusal>);

impl fmt::Display for Told {
    fn fmt<W: fmt::Write>(&self, f: &mut fmt::Formatter<W>) -> fmt::Result {
        match self.0 {
            Ok(words) => write!(f, "taken, words written: {words}"),
            Err(r) => write!(f, "sent back with: {}", u8::from(r)),
        }
    }
}
