// Calls and their numbers.
use crate::page::Page;
use std::fmt::{self, Write};

// The seven characters of a call.
#[derive(Clone, Copy, Debug, PartialEq, Eq)]
pub struct Call(pub [u8; 7]);

impl fmt::Display for Call {
    fn fmt<W: fmt::Write>(&self, f: &mut fmt::Formatter<W>) -> fmt::Result {
        for c in self.0 {
            f.write_char(char::from(c))?;
        }
        Ok(())
    }
}

fn packed(text: &mut Page, call: [u8; 7]) -> fmt::Result {
    let number = wire::calls::number_of(call);
    writeln!(text, "  \"{}\" is {number}", Call(call))
}

fn read(text: &mut Page, number: u64) -> fmt::Result {
    let call = Call(wire::calls::unpack_number(number));
    writeln!(text, "  {number} reads \"{call}\"")
}

pub fn p_calls(text: &mut Page) -> fmt::Result {
    writeln!(text, "Calls: document 01, P calls")?;
    packed(text, *b"       ")?;
    packed(text, *b"0      ")?;
    packed(text, *b"A      ")?;
    packed(text, *b"///////")?;
    read(text, 114415582591)?;
    read(text, 114415582592)
}
