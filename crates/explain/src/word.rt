// A word that is no part of a frame, as one line.
ghost use Rattle.std.specs.Prelude.{◌<◌};

use super::names::{Names, Route, Slot};
use std::fmt;

#[derive(Clone, Copy)]
pub struct Word<'a> {
    pub word: u32,
    pub names: &'a Names,
}

impl Word<'_> {
    // The slot in six bits of the word, of which `below` stand below them.
    pub fn slot(&self, below: u32) -> Slot
        requires { below < 32 }
    {
        self.names.slot((self.word >> below) % 64)
    }

    // A slot in eight bits, as a question of `panel` has it.
    pub fn wide_slot(&self, below: u32) -> Slot
        requires { below < 32 }
    {
        self.names.slot((self.word >> below) % 256)
    }

    pub fn route(&self) -> Route {
        self.names.route(self.word / 64 % 64)
    }
}

impl fmt::Display for Word<'_> {
    fn fmt<W: fmt::Write>(&self, f: &mut fmt::Formatter<W>) -> fmt::Result {
        let word = self.word;
        match word >> 28 {
            0 => self.refusal(f),
            1..=5 => self.event(f),
            7 => self.command(f),
            8 => self.head(f),
            9 => write!(f, "  wave of level {}", word % 32),
            13 => write!(f, "  frame lost"),
            14 => self.clock(f),
            15 => self.level(f),
            _ => write!(f, "{word:08X}: no result word"),
        }
    }
}
