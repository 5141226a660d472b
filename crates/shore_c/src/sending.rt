// The sending end's functions for a host.
ghost use Rattle.std.specs.Prelude.{◌≡◌, cond, List, [], ℕ, ◌≤◌, length, eqb};
ghost use Rattle.out.specs.Encode.{Wrote};
ghost use Rattle.outbox.specs.Outbox.{push_msg, ack, held, stale, has_new, with_msgs, take_out};
ghost use Rattle.outbox.specs.Bursts.{sent_words};
ghost use Rattle.outbox.specs.Senders.{outbox, unless, none, post_refusal, take_refusal, both_refusal, memory_refusal, pending_of};
ghost use Rattle.shore.specs.Blocks.{flag_of};
ghost use Rattle.shore.specs.Sending.{sender_of, waiting_of};

use shore::sending::{Left, Outgoing, Unsent};

// A fresh start.
#[unsafe(no_mangle)]
pub extern "C" fn shore_sender_new() -> Outgoing
    ensures { (bytes marks : List ℕ) → outbox (sender_of result) bytes marks ≡ none }
{
    shore::sending::shore_sender_new()
}

// A message queued.
#[unsafe(no_mangle)]
pub extern "C" fn shore_sender_post(o: Outgoing, bytes: &mut [u8], body: &[u8]) -> Left
    ensures refusal { result.refusal ≡ post_refusal (sender_of o).count (length bytes.old) (length body.now) }
    ensures outbox { (marks : List ℕ) → outbox (sender_of result.sender) bytes.new marks
        ≡ unless result.refusal (outbox (sender_of o) bytes.old marks) (push_msg (outbox (sender_of o) bytes.old marks) body.now) }
    ensures untouched { (result.refusal ≡ 0 → ⊥) → (sender_of result.sender ≡ sender_of o) × (bytes.new ≡ bytes.old) }
{
    shore::sending::shore_sender_post(o, bytes, body)
}

// Up to `room` pieces of at most `max` bytes: lost ones first, then new, then stale.
#[unsafe(no_mangle)]
pub extern "C" fn shore_sender_take(
    o: Outgoing,
    bytes: &[u8],
    marks: &mut [u8],
    max: usize,
    room: usize,
    out: &mut [u32],
) -> Left
    ensures refusal { result.refusal ≡ take_refusal (length out.old) (length bytes.now) (length marks.old) max room }
    ensures outbox { outbox (sender_of result.sender) bytes.now marks.new
        ≡ unless result.refusal (outbox (sender_of o) bytes.now marks.old)
        (with_msgs (outbox (sender_of o) bytes.now marks.old) (take_out max room (outbox (sender_of o) bytes.now marks.old)).msgs) }
    ensures words { Wrote out.old 0 (cond (eqb result.refusal 0)
        (sent_words (take_out max room (outbox (sender_of o) bytes.now marks.old)).out) []) out.new result.words }
    ensures untouched { (result.refusal ≡ 0 → ⊥) → (sender_of result.sender ≡ sender_of o) × (marks.new ≡ marks.old) }
{
    shore::sending::shore_sender_take(o, bytes, marks, max, room, out)
}

// The piece of message seq at off was acknowledged.
#[unsafe(no_mangle)]
pub extern "C" fn shore_sender_ack(
    o: Outgoing,
    bytes: &mut [u8],
    marks: &mut [u8],
    seq: u32,
    off: usize,
) -> Left
    ensures refusal { result.refusal ≡ both_refusal (length bytes.old) (length marks.old) }
    ensures outbox { outbox (sender_of result.sender) bytes.new marks.new
        ≡ unless result.refusal (outbox (sender_of o) bytes.old marks.old) (ack (outbox (sender_of o) bytes.old marks.old) seq off) }
    ensures untouched { (result.refusal ≡ 0 → ⊥) → (sender_of result.sender ≡ sender_of o)
        × ((bytes.new ≡ bytes.old) × (marks.new ≡ marks.old)) }
{
    shore::sending::shore_sender_ack(o, bytes, marks, seq, off)
}

// The far end holds every message below `next`, and those in `also`.
#[unsafe(no_mangle)]
pub extern "C" fn shore_sender_held(
    o: Outgoing,
    bytes: &mut [u8],
    marks: &mut [u8],
    next: u32,
    also: &[u32],
) -> Left
    ensures refusal { result.refusal ≡ both_refusal (length bytes.old) (length marks.old) }
    ensures outbox { outbox (sender_of result.sender) bytes.new marks.new
        ≡ unless result.refusal (outbox (sender_of o) bytes.old marks.old)
        (held (outbox (sender_of o) bytes.old marks.old) next also.now) }
    ensures untouched { (result.refusal ≡ 0 → ⊥) → (sender_of result.sender ≡ sender_of o)
        × ((bytes.new ≡ bytes.old) × (marks.new ≡ marks.old)) }
{
    shore::sending::shore_sender_held(o, bytes, marks, next, also)
}

// Our last burst got no answer at all.
#[unsafe(no_mangle)]
pub extern "C" fn shore_sender_stale(o: Outgoing, marks: &mut [u8]) -> u8
    ensures refusal { result ≡ memory_refusal (length marks.old) }
    ensures outbox { (bytes : List ℕ) → outbox (sender_of o) bytes marks.new
        ≡ unless result (outbox (sender_of o) bytes marks.old) (stale (outbox (sender_of o) bytes marks.old)) }
    ensures untouched { (result ≡ 0 → ⊥) → marks.new ≡ marks.old }
{
    shore::sending::shore_sender_stale(o, marks)
}

// How many bytes are not sent yet, or in flight.
#[unsafe(no_mangle)]
pub extern "C" fn shore_sender_pending(o: Outgoing, marks: &[u8]) -> Unsent
    ensures { (bytes : List ℕ) → 16384 ≤ length bytes → result ≡ waiting_of (pending_of (sender_of o) bytes marks.now) }
{
    shore::sending::shore_sender_pending(o, marks)
}

// Whether there are bytes never sent yet: 1 or 0.
#[unsafe(no_mangle)]
pub extern "C" fn shore_sender_has_new(o: Outgoing) -> u8
    ensures { (bytes marks : List ℕ) → 16384 ≤ length bytes → result ≡ flag_of (has_new (outbox (sender_of o) bytes marks)) }
{
    shore::sending::shore_sender_has_new(o)
}
