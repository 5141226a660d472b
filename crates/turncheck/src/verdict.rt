// What is said of a log.
use super::log::{Log, MOST};
use super::turns::Broken;
use super::{marks, sendings, turns};
use refusal::Refusal;
use std::fmt;

// What is wrong with a word.
#[derive(Clone, Copy)]
pub enum Fault {
    OtherBits,
    CutShort,
    HighSlot,
    Twice,
    NoHead,
    NoWave,
    NoFrame,
}

impl fmt::Display for Fault {
    fn fmt<W: fmt::Write>(&self, f: &mut fmt::Formatter<W>) -> fmt::Result {
        f.write_str(match self {
            Fault::OtherBits => "a word of a mark has a bit that is not named",
            Fault::CutShort => "the list of a mark is cut short",
            Fault::HighSlot => "a listed slot is above 61",
            Fault::Twice => "a slot is listed twice",
            Fault::NoHead => "no head of a sending and no mark",
            Fault::NoWave => "a head without its wave",
            Fault::NoFrame => "no frame, head or mark",
        })
    }
}

// A broken rule of turns is named where the words before it are a log that is accepted.
#[derive(Clone, Copy)]
pub enum Outcome {
    TooLong,
    Accepted,
    Refused {
        refusal: Refusal,
        place: usize,
        fault: Fault,
    },
    NotAccepted(Option<(usize, Broken)>),
}

impl Outcome {
    pub fn of(log: &Log) -> Outcome {
        if log.is_too_long() {
            return Outcome::TooLong;
        }
        let words = log.words();
        match logs::turn_check(words) {
            Ok(true) => Outcome::Accepted,
            Ok(false) => Outcome::NotAccepted(named(words)),
            Err(refusal) => refused(words, refusal),
        }
    }
}

fn refused(words: &[u32], refusal: Refusal) -> Outcome {
    let found = if refusal == Refusal::Marks {
        marks::first_fault(words)
    } else {
        sendings::first_fault(words)
    };
    let (place, fault) = found.unwrap_or((words.len(), Fault::NoFrame));
    Outcome::Refused {
        refusal,
        place,
        fault,
    }
}

fn named(words: &[u32]) -> Option<(usize, Broken)> {
    let (place, broken) = turns::first_broken(words)?;
    let before = words.get(..place)?;
    match logs::turn_check(before) {
        Ok(true) => Some((place, broken)),
        _ => None,
    }
}

impl fmt::Display for Outcome {
    fn fmt<W: fmt::Write>(&self, f: &mut fmt::Formatter<W>) -> fmt::Result {
        match *self {
            Outcome::TooLong => write!(f, "too long: more than {MOST} words"),
            Outcome::Accepted => write!(f, "accepted"),
            Outcome::Refused {
                refusal,
                place,
                fault,
            } => write!(f, "refused, {}: word {place}: {fault}", u8::from(refusal)),
            Outcome::NotAccepted(None) => write!(f, "not accepted"),
            Outcome::NotAccepted(Some((place, broken))) => {
                write!(f, "not accepted: word {place}: {broken}")
            }
        }
    }
}
