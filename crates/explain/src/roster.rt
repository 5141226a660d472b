// A line of the roster passes; behind it stands what its last three fields say of word back to the boat.
use std::fmt;

// Its last three fields so far: of hexadecimal digits, any other byte between two.
#[derive(Clone, Copy)]
pub struct Roster {
    posted: u32,
    kept: u32,
    reported: u32,
}

impl Roster {
    pub fn new() -> Roster {
        Roster {
            posted: 0,
            kept: 0,
            reported: 0,
        }
    }

    // A further byte behind the S.
    fn byte(self, b: u8) -> Roster {
        match char::from(b).to_digit(16) {
            Some(digit) => Roster {
                reported: self.reported % 0x1000_0000 * 16 + digit,
                ..self
            },
            None => Roster {
                posted: self.kept,
                kept: self.reported,
                reported: 0,
            },
        }
    }

    pub fn part(self, part: &[u8]) -> Roster {
        part.iter().fold(self, |roster, b| roster.byte(*b))
    }
}

impl fmt::Display for Roster {
    fn fmt<W: fmt::Write>(&self, f: &mut fmt::Formatter<W>) -> fmt::Result {
        let Roster {
            posted,
            kept,
            reported,
        } = *self;
        write!(
            f,
            "posted to it: {posted} bytes, kept from byte {kept} on, reported {reported}"
        )
    }
}
