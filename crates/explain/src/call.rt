// A call, and a character of one.
use super::parts::write_ascii;
use std::fmt;

// Seven characters, padded right with blanks.
#[derive(Clone, Copy, PartialEq, Eq)]
pub struct Call([u8; 7]);

impl Call {
    pub fn unpack(packed: [u8; 5]) -> Call {
        Call(wire::calls::unpack_call(packed))
    }

    pub fn is_blank(self) -> bool {
        self.0[0] == b' '
    }
}

// Its blanks at the end left out.
impl fmt::Display for Call {
    fn fmt<W: fmt::Write>(&self, f: &mut fmt::Formatter<W>) -> fmt::Result {
        let shown = self.0.map(visible);
        let end = self.0.iter().position(|b| *b == b' ').unwrap_or(7);
        write_ascii(f, &shown[..end])
    }
}

// A character, a dot for one that no line can show.
pub fn visible(b: u8) -> u8 {
    match b {
        b' '..=b'~' => b,
        _ => b'.',
    }
}
