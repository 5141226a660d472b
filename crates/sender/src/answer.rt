// What a command answers, and why it has no answer.
use arrayvec::CapacityError;
use refusal::Refusal;
use std::fmt;

#[derive(Debug, Drop)]
pub enum Answer<'a> {
    Done,
    Words(&'a [u32]),
    Pending(usize),
    HasNew(bool),
}

const DIGITS: [u8; 16] = *b"0123456789ABCDEF";

// A line of eight hexadecimal digits, the lowest of the number. (With `{:08X}` it takes half as long again, and a script may print little else.)
fn write_line<W: fmt::Write>(f: &mut fmt::Formatter<W>, number: u64) -> fmt::Result {
    let mut line = [b'\n'; 9];
    let mut rest = number;
    for k in (0..8).rev() {
        line[k] = DIGITS[(rest % 16) as usize];
        rest /= 16;
    }
    f.write_str(std::str::from_utf8(&line).unwrap_or(""))
}

// A line for each word.
impl fmt::Display for Answer<'_> {
    fn fmt<W: fmt::Write>(&self, f: &mut fmt::Formatter<W>) -> fmt::Result {
        match self {
            Answer::Done => Ok(()),
            Answer::Words(words) => {
                for word in words.iter() {
                    write_line(f, u64::from(*word))?;
                }
                Ok(())
            }
            Answer::Pending(bytes) => {
                f.write_str("P ")?;
                write_line(f, *bytes as u64)
            }
            Answer::HasNew(new) => writeln!(f, "N {}", u8::from(*new)),
        }
    }
}

#[derive(Clone, Copy, Debug, PartialEq, Eq)]
pub enum Error {
    // A word is malformed or misplaced.
    Malformed,
    // The sending end refused.
    Refused(Refusal),
}

// The line of a refusal's number.
impl fmt::Display for Error {
    fn fmt<W: fmt::Write>(&self, f: &mut fmt::Formatter<W>) -> fmt::Result {
        match self {
            Error::Malformed => f.write_str("00000003\n"),
            Error::Refused(refusal) => write_line(f, u64::from(u8::from(*refusal))),
        }
    }
}

impl From<Refusal> for Error {
    fn from(refusal: Refusal) -> Error {
        Error::Refused(refusal)
    }
}

// What a command has no room for is malformed.
impl<T: Drop> From<CapacityError<T>> for Error {
    fn from(_e: CapacityError<T>) -> Error {
        Error::Malformed
    }
}
