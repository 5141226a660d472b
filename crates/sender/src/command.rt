// The commands, as a word of kind 7 names them.
use crate::answer::Error;

// A command whose words follow it.
#[derive(Clone, Copy, Debug, PartialEq, Eq)]
pub enum Open {
    Post,
    Ack,
    Held,
}

#[derive(Clone, Copy, Debug, PartialEq, Eq)]
pub enum Command {
    Open(Open),
    Take { max: usize, room: usize },
    Stale,
    Pending,
    HasNew,
}

// The high four bits of a word.
pub fn kind(word: u32) -> u32 {
    word >> 28
}

impl TryFrom<u32> for Command {
    type Error = Error;

    fn try_from(word: u32) -> Result<Command, Error> {
        let rest = word >> 4 & 0xff_ffff;
        match (word % 16, rest) {
            (0, 0) => Ok(Command::Open(Open::Post)),
            (1, ..=0xffff) => Ok(Command::Take {
                max: (rest % 256) as usize,
                room: (rest / 256) as usize,
            }),
            (2, 0) => Ok(Command::Stale),
            (3, 0) => Ok(Command::Open(Open::Ack)),
            (4, 0) => Ok(Command::Open(Open::Held)),
            (5, 0) => Ok(Command::Pending),
            (6, 0) => Ok(Command::HasNew),
            _ => Err(Error::Malformed),
        }
    }
}
