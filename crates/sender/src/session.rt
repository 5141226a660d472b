// The sending end, and what the commands ask of it.
use crate::answer::{Answer, Error};
use crate::argument::{Body, Numbers};
use crate::command::{Command, Open};
use crate::{argument, command};
use out::Output;
use outbox::sender::Sender;
use outbox::{leave, sender, taking};

// No command has more words, and no answer.
pub const MOST: usize = 8192;

// The sending end with its two memories, the command whose words are being read, and those words, one too many at most, in memory that is lent; the body or
// the numbers that the last such command said, and the words that the last `take` answered.
#[derive(Drop)]
pub struct Session<'a> {
    sender: Sender,
    bytes: [u8; sender::MEMORY],
    marks: [u8; sender::MEMORY],
    open: Option<Open>,
    words: Output<'a>,
    body: Body,
    numbers: Numbers,
    taken: [u32; MOST],
}

fn written<'a>(words: &'a Output<'_>) -> &'a [u32] {
    &words.words[..words.at.min(words.words.len())]
}

impl<'a> Session<'a> {
    // The memories hold any bytes at first.
    pub fn new(words: &'a mut [u32; MOST + 1]) -> Session<'a> {
        Session {
            sender: sender::new(),
            bytes: [171; sender::MEMORY],
            marks: [205; sender::MEMORY],
            open: None,
            words: Output { words, at: 0 },
            body: Body::new(),
            numbers: Numbers::new(),
            taken: [0; MOST],
        }
    }

    // The words of the open command end where this word stands.
    pub fn is_end(word: u32) -> bool {
        matches!(command::kind(word), 7 | 14 | 15)
    }

    // Runs the open command.
    pub fn finish(&mut self) -> Result<Answer<'_>, Error> {
        let Some(open) = self.open.take() else {
            return Ok(Answer::Done);
        };
        if MOST < self.words.at {
            return Err(Error::Malformed);
        }
        match open {
            Open::Post => self.post(),
            Open::Ack => self.ack(),
            Open::Held => self.held(),
        }
    }

    // One word.
    pub fn word(&mut self, word: u32) -> Result<Answer<'_>, Error> {
        match command::kind(word) {
            7 => self.run(Command::try_from(word)?),
            14 | 15 => Err(Error::Malformed),
            _ => self.push(word),
        }
    }

    // Keeps a word of the open command.
    fn push(&mut self, word: u32) -> Result<Answer<'_>, Error> {
        if self.open.is_none() {
            return Err(Error::Malformed);
        }
        self.words.word(word);
        Ok(Answer::Done)
    }

    fn run(&mut self, command: Command) -> Result<Answer<'_>, Error> {
        match command {
            Command::Open(open) => {
                self.open = Some(open);
                self.words.at = 0;
                Ok(Answer::Done)
            }
            Command::Take { max, room } => self.take(max, room),
            Command::Stale => {
                sender::stale(self.sender, &mut self.marks)?;
                Ok(Answer::Done)
            }
            Command::Pending => Ok(Answer::Pending(sender::pending(self.sender, &self.marks)?)),
            Command::HasNew => Ok(Answer::HasNew(sender::has_new(self.sender))),
        }
    }

    fn post(&mut self) -> Result<Answer<'_>, Error> {
        argument::joined(written(&self.words), &mut self.body)?;
        sender::post(&mut self.sender, &mut self.bytes, &self.body)?;
        Ok(Answer::Done)
    }

    fn ack(&mut self) -> Result<Answer<'_>, Error> {
        argument::numbers(written(&self.words), &mut self.numbers)?;
        let [seq, off] = self.numbers.as_slice() else {
            return Err(Error::Malformed);
        };
        leave::ack(
            &mut self.sender,
            &mut self.bytes,
            &mut self.marks,
            *seq,
            *off as usize,
        )?;
        Ok(Answer::Done)
    }

    fn held(&mut self) -> Result<Answer<'_>, Error> {
        argument::numbers(written(&self.words), &mut self.numbers)?;
        let Some((next, also)) = self.numbers.split_first() else {
            return Err(Error::Malformed);
        };
        leave::held(
            &mut self.sender,
            &mut self.bytes,
            &mut self.marks,
            *next,
            also,
        )?;
        Ok(Answer::Done)
    }

    fn take(&mut self, max: usize, room: usize) -> Result<Answer<'_>, Error> {
        let n = taking::take(
            &mut self.sender,
            &self.bytes,
            &mut self.marks,
            max,
            room,
            &mut self.taken,
        )?;
        Ok(Answer::Words(&self.taken[..n.min(self.taken.len())]))
    }
}
