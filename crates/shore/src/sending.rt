// The sending end for a host: its numbers by value, the messages' bytes and their marks in two memories that the caller lends.
// C reads the structs: a refusal and a flag are numbers in them, as in `answer`.
ghost use Rattle.std.specs.Prelude.{◌≡◌, cond, List, [], ℕ, ◌≤◌, length, eqb};
ghost use Rattle.out.specs.Encode.{Wrote};
ghost use Rattle.outbox.specs.Outbox.{push_msg, ack, held, stale, has_new, with_msgs, take_out};
ghost use Rattle.outbox.specs.Bursts.{sent_words};
ghost use Rattle.outbox.specs.Senders.{outbox, unless, none, post_refusal, take_refusal, both_refusal, memory_refusal, pending_of};
ghost use Rattle.shore.specs.Blocks.{flag_of};
ghost use Rattle.shore.specs.Sending.{sender_of, outgoing_of, left_of, waiting_of};

use outbox::sender::{Message, Sender};
use refusal::{Refusal, number_in};

// outbox::sender::Sender; C has its messages' numbers in an array for each.
#[repr(C)]
#[derive(Clone, Copy)]
pub struct Outgoing {
    pub count: usize,
    pub next: u32,
    pub seqs: [u32; 8],
    pub totals: [u16; 8],
    pub cuts: [u16; 8],
}

// The sending end to go on with, how many words were written, a refusal's number (0 for none).
#[repr(C)]
#[derive(Clone, Copy)]
pub struct Left {
    pub sender: Outgoing,
    pub words: usize,
    pub refusal: u8,
}

// How many bytes are to be sent or in flight.
#[repr(C)]
#[derive(Clone, Copy)]
pub struct Unsent {
    pub bytes: usize,
    pub refusal: u8,
}

fn sender_of(o: Outgoing) -> Sender
    ensures { result ≡ sender_of o }
{
    let none = Message {
        seq: 0,
        total: 0,
        cut: 0,
    };
    let mut messages = [none; 8];
    for i in 0..8 {
        messages[i] = Message {
            seq: o.seqs[i],
            total: o.totals[i],
            cut: o.cuts[i],
        };
    }
    Sender {
        next: o.next,
        count: o.count,
        messages,
    }
}

fn outgoing_of(s: Sender) -> Outgoing
    ensures { result ≡ outgoing_of s }
{
    let mut seqs = [0u32; 8];
    let mut totals = [0u16; 8];
    let mut cuts = [0u16; 8];
    for i in 0..8 {
        let m = s.messages[i];
        seqs[i] = m.seq;
        totals[i] = m.total;
        cuts[i] = m.cut;
    }
    Outgoing {
        count: s.count,
        next: s.next,
        seqs,
        totals,
        cuts,
    }
}

fn left_of(s: Sender, words: usize, refusal: u8) -> Left
    ensures { result ≡ left_of s words refusal }
{
    Left {
        sender: outgoing_of(s),
        words,
        refusal,
    }
}

fn waiting_of(w: Result<usize, Refusal>) -> Unsent
    ensures { result ≡ waiting_of w }
{
    match w {
        Ok(n) => Unsent {
            bytes: n,
            refusal: 0,
        },
        Err(r) => Unsent {
            bytes: 0,
            refusal: u8::from(r),
        },
    }
}

// A fresh start.
pub fn shore_sender_new() -> Outgoing
    ensures { (bytes marks : List ℕ) → outbox (sender_of result) bytes marks ≡ none }
{
    outgoing_of(outbox::sender::new())
}

// A message queued.
pub fn shore_sender_post(o: Outgoing, bytes: &mut [u8], body: &[u8]) -> Left
    ensures refusal { result.refusal ≡ post_refusal (sender_of o).count (length bytes.old) (length body.now) }
    ensures outbox { (marks : List ℕ) → outbox (sender_of result.sender) bytes.new marks
        ≡ unless result.refusal (outbox (sender_of o) bytes.old marks) (push_msg (outbox (sender_of o) bytes.old marks) body.now) }
    ensures untouched { (result.refusal ≡ 0 → ⊥) → (sender_of result.sender ≡ sender_of o) × (bytes.new ≡ bytes.old) }
{
    let mut s = sender_of(o);
    let answer = outbox::sender::post(&mut s, bytes, body);
    left_of(s, 0, number_in(&answer))
}

// Up to `room` pieces of at most `max` bytes: lost ones first, then new, then stale.
pub fn shore_sender_take(
    o: Outgoing,
    bytes: &[u8],
    marks: &mut [u8],
    max: usize,
    room: usize,
    out: &mut [u32],
) -> Left
    ensures refusal { result.refusal ≡ take_refusal (length out.old) (length bytes.now) (length marks.old) max room }
    ensures outbox { outbox (sender_of result.sender) bytes.now marks.new
        ≡ unless result.refusal (outbox (sender_of o) bytes.now marks.old)
        (with_msgs (outbox (sender_of o) bytes.now marks.old) (take_out max room (outbox (sender_of o) bytes.now marks.old)).msgs) }
    ensures words { Wrote out.old 0 (cond (eqb result.refusal 0)
        (sent_words (take_out max room (outbox (sender_of o) bytes.now marks.old)).out) []) out.new result.words }
    ensures untouched { (result.refusal ≡ 0 → ⊥) → (sender_of result.sender ≡ sender_of o) × (marks.new ≡ marks.old) }
{
    let mut s = sender_of(o);
    match outbox::taking::take(&mut s, bytes, marks, max, room, out) {
        Ok(n) => left_of(s, n, 0),
        Err(r) => left_of(s, 0, u8::from(r)),
    }
}

// The piece of message seq at off was acknowledged.
pub fn shore_sender_ack(
    o: Outgoing,
    bytes: &mut [u8],
    marks: &mut [u8],
    seq: u32,
    off: usize,
) -> Left
    ensures refusal { result.refusal ≡ both_refusal (length bytes.old) (length marks.old) }
    ensures outbox { outbox (sender_of result.sender) bytes.new marks.new
        ≡ unless result.refusal (outbox (sender_of o) bytes.old marks.old) (ack (outbox (sender_of o) bytes.old marks.old) seq off) }
    ensures untouched { (result.refusal ≡ 0 → ⊥) → (sender_of result.sender ≡ sender_of o)
        × ((bytes.new ≡ bytes.old) × (marks.new ≡ marks.old)) }
{
    let mut s = sender_of(o);
    let answer = outbox::leave::ack(&mut s, bytes, marks, seq, off);
    left_of(s, 0, number_in(&answer))
}

// The far end holds every message below `next`, and those in `also`.
pub fn shore_sender_held(
    o: Outgoing,
    bytes: &mut [u8],
    marks: &mut [u8],
    next: u32,
    also: &[u32],
) -> Left
    ensures refusal { result.refusal ≡ both_refusal (length bytes.old) (length marks.old) }
    ensures outbox { outbox (sender_of result.sender) bytes.new marks.new
        ≡ unless result.refusal (outbox (sender_of o) bytes.old marks.old)
        (held (outbox (sender_of o) bytes.old marks.old) next also.now) }
    ensures untouched { (result.refusal ≡ 0 → ⊥) → (sender_of result.sender ≡ sender_of o)
        × ((bytes.new ≡ bytes.old) × (marks.new ≡ marks.old)) }
{
    let mut s = sender_of(o);
    let answer = outbox::leave::held(&mut s, bytes, marks, next, also);
    left_of(s, 0, number_in(&answer))
}

// Our last burst got no answer at all.
pub fn shore_sender_stale(o: Outgoing, marks: &mut [u8]) -> u8
    ensures refusal { result ≡ memory_refusal (length marks.old) }
    ensures outbox { (bytes : List ℕ) → outbox (sender_of o) bytes marks.new
        ≡ unless result (outbox (sender_of o) bytes marks.old) (stale (outbox (sender_of o) bytes marks.old)) }
    ensures untouched { (result ≡ 0 → ⊥) → marks.new ≡ marks.old }
{
    let s = sender_of(o);
    number_in(&outbox::sender::stale(s, marks))
}

// How many bytes are not sent yet, or in flight.
pub fn shore_sender_pending(o: Outgoing, marks: &[u8]) -> Unsent
    ensures { (bytes : List ℕ) → 16384 ≤ length bytes → result ≡ waiting_of (pending_of (sender_of o) bytes marks.now) }
{
    let s = sender_of(o);
    waiting_of(outbox::sender::pending(s, marks))
}

// Whether there are bytes never sent yet: 1 or 0.
pub fn shore_sender_has_new(o: Outgoing) -> u8
    ensures { (bytes marks : List ℕ) → 16384 ≤ length bytes → result ≡ flag_of (has_new (outbox (sender_of o) bytes marks)) }
{
    let s = sender_of(o);
    let new = outbox::sender::has_new(s);
    u8::from(new)
}
