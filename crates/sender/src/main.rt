// The test program of the sending end: a script of words on standard input, highest byte first; what each call answers on standard output.
//
// A command is a word of kind 7: bits 3-0 are 0 post, 1 take (bits 11-4 the largest piece, 19-12 how many), 2 stale, 3 ack, 4 held, 5 pending, 6 has_new.
// The words of 0, 3 and 4 follow it as frames, up to the next word of kind 7, 14 or 15. A malformed or misplaced word prints 00000003.
#![tactic(auto)]

mod answer;
mod argument;
mod command;
mod output;
mod session;

use answer::Error;
use arrayvec::ArrayString;
use output::Output;
use session::Session;

// The words of a part of the input; fewer than four bytes at its end are a word that was cut short.
fn feed(session: &mut Session, part: &[u8], output: &mut Output) {
    let (words, _cut) = part.as_chunks::<4>();
    for bytes in words {
        let word = u32::from_be_bytes(*bytes);
        if Session::is_end(word) {
            output.tell(session.finish());
        }
        output.tell(session.word(word));
    }
}

// Standard input to its end, at most 2^64 - 1 parts of 65,536 bytes.
fn main(rt: HostRuntime) {
    let mut words = [0u32; session::MOST + 1];
    let mut session = Session::new(&mut words);
    let mut output = Output {
        to: rt.stdout(),
        text: ArrayString::new(),
    };
    let mut part = [0u8; 65536];
    for _ in 0..u64::MAX {
        let n = text::read_full(rt.stdin(), &mut part);
        feed(&mut session, &part[..n], &mut output);
        if n < part.len() {
            output.tell(session.finish());
            if n % 4 != 0 {
                output.tell(Err(Error::Malformed));
            }
            break;
        }
    }
    output.flush();
}
