// A frame, from its words.
use super::call::Call;
use super::control::Control;
use super::names::Names;
use super::parts::Raw;
use std::fmt;

// The command whose frames follow: a reception's are a burst's, as a head's are, an admission's is a call and its relay, any other's are bytes.
#[derive(Clone, Copy, PartialEq, Eq)]
pub enum Behind {
    Reception,
    Admission,
    Other,
}

impl Behind {
    pub fn after(self, word: u32) -> Behind {
        match (word >> 28, word % 16) {
            (7, 2) | (8, _) => Behind::Reception,
            (7, 3) => Behind::Admission,
            (7, _) => Behind::Other,
            _ => self,
        }
    }
}

#[derive(Clone, Copy)]
pub struct Frame<'a> {
    pub names: &'a Names,
    pub behind: Behind,
    pub flags: u32,
    pub field: u32,
    pub payload: &'a [u8],
}

impl Frame<'_> {
    // Type 0, from a boat: a piece of a message. Type 1, to a boat: bytes of what was posted to it.
    fn content<W: fmt::Write>(&self, f: &mut fmt::Formatter<W>) -> fmt::Result {
        let field = self.field;
        let bytes = Raw(self.payload);
        match self.flags / 64 % 4 {
            wire::T_UP => {
                let number = field / 65536;
                let offset = field % 65536;
                write!(f, "message {number} mod 256 from offset {offset}, {bytes}")
            }
            wire::T_DOWN => write!(f, "word back from byte {field}, {bytes}"),
            wire::T_CTRL if !self.payload.is_empty() => {
                let control = Control {
                    names: self.names,
                    payload: self.payload,
                };
                write!(f, "{control}")
            }
            _ => write!(f, "field {field}, {bytes}"),
        }
    }
}

impl fmt::Display for Frame<'_> {
    fn fmt<W: fmt::Write>(&self, f: &mut fmt::Formatter<W>) -> fmt::Result {
        match (self.behind, self.payload) {
            (Behind::Reception, _) => {
                let whom = self.names.whom(self.flags % 64);
                write!(f, "  frame, {whom}: ")?;
                self.content(f)
            }
            (Behind::Admission, [a, b, c, d, e]) => {
                let call = Call::unpack([*a, *b, *c, *d, *e]);
                let route = self.names.route(self.flags);
                write!(f, "  call \"{call}\", {route}")
            }
            (_, bytes) => write!(f, "  {}", Raw(bytes)),
        }
    }
}
