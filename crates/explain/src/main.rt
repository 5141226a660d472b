// What `tape` and `drive` print, and what they read, in words that a person can read: a line for each word, a frame's words as one line. Other lines pass.
#![tactic(auto)]

mod burst;
mod call;
mod command;
mod control;
mod event;
mod frame;
mod lines;
mod message;
mod names;
mod parts;
mod roster;
mod word;

use arrayvec::ArrayVec;
use lines::Explainer;
use std::io::{Stdout, Write};

// What is read is taken in parts of so many bytes.
const PART: usize = 4096;

// So many bytes are gathered, and what a part of a line adds has room behind them: its bytes, three for each two of them in a message, and one line that is made.
const ENOUGH: usize = 24576;

// What is gathered.
pub type Said = ArrayVec<u8, 45056>;

// Writes what is gathered; what can't be written is dropped.
fn flush(said: &mut Said, mut to: Stdout) {
    let _ = to.write_all(said);
    said.clear();
}

// The lines of a part, of which the last may go on in the next.
fn feed(explainer: &mut Explainer, part: &[u8], said: &mut Said, to: Stdout) {
    for line in part.split_inclusive(|b| *b == b'\n') {
        if ENOUGH <= said.len() {
            flush(said, to);
        }
        let whole = line.strip_suffix(b"\n");
        explainer.part(whole.unwrap_or(line), said);
        if whole.is_some() {
            explainer.line_end(said);
        }
    }
}

fn feed_all(explainer: &mut Explainer, read: &[u8], said: &mut Said, to: Stdout) {
    for part in read.chunks(PART) {
        feed(explainer, part, said, to);
    }
}

// Standard input to its end, at most 2^64 - 1 times 65,536 bytes. A last line needs no line end: without one nothing is said of a frame that it leaves open.
fn main(rt: HostRuntime) {
    let mut explainer = Explainer::new();
    let mut said = Said::new();
    let mut read = [0u8; 65536];
    for _ in 0..u64::MAX {
        let n = text::read_full(rt.stdin(), &mut read);
        feed_all(&mut explainer, &read[..n], &mut said, rt.stdout());
        if n < read.len() {
            break;
        }
    }
    explainer.end(&mut said);
    flush(&mut said, rt.stdout());
}
