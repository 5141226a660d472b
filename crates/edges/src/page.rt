// What is printed, gathered before it is written to standard output. What cannot be written is dropped.
use arrayvec::ArrayString;
use std::fmt::{self, Write};
use std::io::{self, Stdout};

// So many bytes are gathered, and what is printed at once has room behind them.
const ENOUGH: usize = 1024;

#[derive(Drop)]
pub struct Page {
    to: Stdout,
    text: ArrayString<2048>,
}

impl Page {
    pub fn new(to: Stdout) -> Page {
        Page {
            to,
            text: ArrayString::new(),
        }
    }

    pub fn flush(&mut self) {
        let _ = io::Write::write_all(&mut self.to, self.text.as_str().as_bytes());
        self.text.clear();
    }
}

impl fmt::Write for Page {
    fn write_str(&mut self, s: &str) -> fmt::Result {
        if ENOUGH <= self.text.len() {
            self.flush();
        }
        self.text.write_str(s)
    }
}
