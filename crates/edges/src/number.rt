// Message numbers made whole near the lowest number not handed over.
use crate::page::Page;
use std::fmt::{self, Write};

// The number that `on_air` stands for near `next`.
#[derive(Clone, Copy, Debug, PartialEq, Eq)]
pub struct Widened {
    pub on_air: u8,
    pub next: u32,
}

impl fmt::Display for Widened {
    fn fmt<W: fmt::Write>(&self, f: &mut fmt::Formatter<W>) -> fmt::Result {
        match wire::number::widen8(self.on_air, self.next) {
            Some(n) => write!(f, "{n}"),
            None => write!(f, "none"),
        }
    }
}

fn line(text: &mut Page, next: u32, on_air: u8) -> fmt::Result {
    let number = Widened { on_air, next };
    writeln!(text, "  next {next}, on air {on_air}: {number}")
}

pub fn p_numbers(text: &mut Page) -> fmt::Result {
    writeln!(text, "Message numbers: document 01, P numbers")?;
    line(text, 200, 10)?;
    line(text, 300, 171)?;
    line(text, 300, 172)?;
    line(text, 0, 128)
}

pub fn ends(text: &mut Page) -> fmt::Result {
    writeln!(
        text,
        "Message numbers: distance 127, 128 and 255, and the highest next"
    )?;
    line(text, 1000, 103)?;
    line(text, 1000, 104)?;
    line(text, 1000, 231)?;
    line(text, 4294967040, 0)?;
    line(text, 4294967040, 127)
}
