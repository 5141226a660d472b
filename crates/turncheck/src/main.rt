// Request U9: other stations' logs. A log is lines of eight hexadecimal digits on standard input, as `tape` and `drive` print words, with a line for each
// word of a mark; an empty line ends it. For each log one line is printed: accepted, or which sending or mark breaks which rule and where.
#![tactic(auto)]

mod log;
mod marks;
mod sendings;
mod turns;
mod verdict;

use arrayvec::ArrayString;
use log::Log;
use std::fmt::Write;
use std::io::{self, Stdout};
use verdict::Outcome;

// Standard input is read in parts of so many bytes.
const PART: usize = 65536;

// So many bytes are gathered, and a line has room behind them.
const ENOUGH: usize = 57344;

// The log that is being read, and the lines on those before it, gathered before they are written. What can't be written is dropped.
#[derive(Drop)]
struct Checked<'a> {
    log: Log<'a>,
    told: bool,
    text: ArrayString<58368>,
    to: Stdout,
}

impl Checked<'_> {
    fn flush(&mut self) {
        let _ = io::Write::write_all(&mut self.to, self.text.as_str().as_bytes());
        self.text.clear();
    }

    // The line on the log; the next one begins.
    fn tell(&mut self) {
        if ENOUGH <= self.text.len() {
            self.flush();
        }
        let _ = writeln!(self.text, "{}", Outcome::of(&self.log));
        self.log.clear();
        self.told = true;
    }

    // The lines of a part of the input, of which the last may go on in the next. An empty line behind words ends a log.
    fn feed(&mut self, part: &[u8]) {
        for line in part.split_inclusive(|b| *b == b'\n') {
            let whole = line.strip_suffix(b"\n");
            self.log.bytes(whole.unwrap_or(line));
            if whole.is_some() && !self.log.line_end() && !self.log.is_empty() {
                self.tell();
            }
        }
    }

    // The input's end ends a line and a log. An input without any is one empty log.
    fn end(&mut self) {
        let _ = self.log.line_end();
        if !self.told || !self.log.is_empty() {
            self.tell();
        }
        self.flush();
    }
}

// The whole input, at most 2^64 - 1 parts.
fn main(rt: HostRuntime) {
    let mut words = [0u32; log::MOST + 1];
    let mut checked = Checked {
        log: Log::new(&mut words),
        told: false,
        text: ArrayString::new(),
        to: rt.stdout(),
    };
    let mut part = [0u8; PART];
    for _ in 0..u64::MAX {
        let n = text::read_full(rt.stdin(), &mut part);
        checked.feed(&part[..n]);
        if n < part.len() {
            break;
        }
    }
    checked.end();
}
