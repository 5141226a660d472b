// A line of eight hexadecimal digits is a word, any other passes.
use super::frame::{Behind, Frame};
use super::message::Message;
use super::names::Names;
use super::roster::Roster;
use super::word::Word;
use crate::Said;
use arrayvec::{ArrayString, ArrayVec};
use std::fmt::Write;

// A frame that is being read, of `len` payload bytes.
#[derive(Clone, Copy)]
struct Opened {
    flags: u32,
    len: usize,
}

impl From<u32> for Opened {
    fn from(word: u32) -> Opened {
        Opened {
            flags: word / 256 % 256,
            len: (word % 256) as usize,
        }
    }
}

// A line that is no word, while it is read.
#[derive(Clone, Copy)]
enum Line {
    Plain,
    Roster(Roster),
    Message(Message),
}

impl Line {
    // Its first bytes.
    fn begin(first: &[u8], said: &mut Said) -> Line {
        match first {
            [b'S', fields @ ..] => {
                let _ = said.try_push(b'S');
                Line::Roster(Roster::new()).part(fields, said)
            }
            [b'R', b' ', behind @ ..] if Message::begins(behind) => {
                Line::Message(Message::begin(said)).part(behind, said)
            }
            _ => Line::Plain.part(first, said),
        }
    }

    // What comes behind them.
    fn part(self, part: &[u8], said: &mut Said) -> Line {
        if let Line::Message(mut message) = self {
            let rest = message.part(part, said);
            if rest.is_empty() {
                return Line::Message(message);
            }
            message.end(said);
            let _ = said.try_extend_from_slice(rest);
            return Line::Plain;
        }
        let _ = said.try_extend_from_slice(part);
        match self {
            Line::Roster(roster) => Line::Roster(roster.part(part)),
            _ => self,
        }
    }
}

// payload: the bytes of the frame that came so far, 255 at most and two behind them. field: the last word 11's; a frame without one of its own is said with it.
// first: the bytes of a line until it is known whether it is a word, nine at most. line: the one that is being read, where it is none. text: a line while it
// is made, else empty (the longest that a frame can make has some 5,300 bytes): written to a string it takes less time than to what is said.
#[derive(Drop)]
pub struct Explainer {
    names: Names,
    behind: Behind,
    frame: Option<Opened>,
    payload: ArrayVec<u8, 257>,
    field: u32,
    first: ArrayVec<u8, 9>,
    line: Option<Line>,
    text: ArrayString<8192>,
}

impl Explainer {
    pub fn new() -> Explainer {
        Explainer {
            names: Names::new(),
            behind: Behind::Reception,
            frame: None,
            payload: ArrayVec::new(),
            field: 0,
            first: ArrayVec::new(),
            line: None,
            text: ArrayString::new(),
        }
    }

    // A frame whose words did not all come.
    fn cut(&mut self, said: &mut Said) {
        if self.frame.take().is_some() {
            let _ = said.try_extend_from_slice(b"  frame cut short\n");
        }
    }

    // Says the line that was made.
    fn say(&mut self, said: &mut Said) {
        let _ = said.try_extend_from_slice(self.text.as_str().as_bytes());
        self.text.clear();
    }

    // The line of the frame, if all its payload has come; else it stays open.
    fn shut(&mut self, opened: Opened, said: &mut Said) {
        let Some(payload) = self.payload.get(..opened.len) else {
            return;
        };
        let frame = Frame {
            names: &self.names,
            behind: self.behind,
            flags: opened.flags,
            field: self.field,
            payload,
        };
        let _ = writeln!(self.text, "{frame}");
        if self.behind == Behind::Reception {
            self.names.told(opened.flags, payload);
        }
        self.frame = None;
        self.say(said);
    }

    // A word that is no part of a frame.
    fn alone(&mut self, word: u32, said: &mut Said) {
        let shown = Word {
            word,
            names: &self.names,
        };
        let _ = writeln!(self.text, "{shown}");
        self.behind = self.behind.after(word);
        self.names.forget_by(word);
        self.say(said);
    }

    fn word(&mut self, word: u32, said: &mut Said) {
        match (word >> 28, self.frame) {
            (11, Some(opened)) => {
                self.field = word % 16777216;
                self.shut(opened, said);
            }
            (12, Some(opened)) => {
                let [_, high, middle, low] = word.to_be_bytes();
                let _ = self.payload.try_extend_from_slice(&[high, middle, low]);
                self.shut(opened, said);
            }
            (10, _) => {
                self.cut(said);
                self.frame = Some(Opened::from(word));
                self.payload.clear();
            }
            _ => {
                self.cut(said);
                self.alone(word, said);
            }
        }
    }

    // A line that is no word begins.
    fn begin(&mut self, said: &mut Said) -> Line {
        self.cut(said);
        let line = Line::begin(&self.first, said);
        self.first.clear();
        line
    }

    // A part of a line, its end left out. A word has eight bytes: with nine the line is none.
    pub fn part(&mut self, part: &[u8], said: &mut Said) {
        if let Some(line) = self.line {
            self.line = Some(line.part(part, said));
            return;
        }
        let (first, rest) = part.split_at(part.len().min(self.first.remaining_capacity()));
        let _ = self.first.try_extend_from_slice(first);
        if self.first.is_full() {
            self.line = Some(self.begin(said).part(rest, said));
        }
    }

    // What is said at a line's end.
    fn close(&mut self, line: Line, said: &mut Said) {
        match line {
            Line::Plain => {}
            Line::Roster(roster) => {
                let _ = write!(self.text, "\n  {roster}");
                self.say(said);
            }
            Line::Message(message) => message.end(said),
        }
        let _ = said.try_push(b'\n');
    }

    pub fn line_end(&mut self, said: &mut Said) {
        match (self.line.take(), text::hex_word(&self.first)) {
            (Some(line), _) => self.close(line, said),
            (None, Some(word)) => {
                self.first.clear();
                self.word(word, said);
            }
            (None, None) => {
                let line = self.begin(said);
                self.close(line, said);
            }
        }
    }

    // The input's end.
    pub fn end(&mut self, said: &mut Said) {
        if self.line.is_none() && self.first.is_empty() {
            self.cut(said);
        } else {
            self.line_end(said);
        }
    }
}
