// The answers, gathered before they are written to standard output. What cannot be written is dropped.
use crate::answer::{Answer, Error};
use arrayvec::ArrayString;
use std::fmt::{self, Write};
use std::io::{self, Stdout};

// So many bytes are gathered, and what is printed at once, a line at most, has room behind them.
const ENOUGH: usize = 24576;

#[derive(Drop)]
pub struct Output {
    pub to: Stdout,
    pub text: ArrayString<24832>,
}

impl Output {
    // An answer, or the number of a refusal.
    pub fn tell(&mut self, answered: Result<Answer<'_>, Error>) {
        let _ = match answered {
            Ok(answer) => write!(self, "{answer}"),
            Err(refusal) => write!(self, "{refusal}"),
        };
    }

    pub fn flush(&mut self) {
        let _ = io::Write::write_all(&mut self.to, self.text.as_str().as_bytes());
        self.text.clear();
    }
}

impl fmt::Write for Output {
    fn write_str(&mut self, s: &str) -> fmt::Result {
        if ENOUGH <= self.text.len() {
            self.flush();
        }
        self.text.write_str(s)
    }
}
