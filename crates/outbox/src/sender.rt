// `Outbox`: its numbers are a struct; the messages' bytes and their marks lie in two memories that the caller lends. Message i has the
// 2,048 bytes from 2,048 i on of each. The messages stand in the order of posting, and those behind one that leaves move down. C lends
// both memories anew at each call, so they are no fields of the struct.
ghost use Rattle.std.specs.Prelude.{◌≡◌, List, ℕ, ◌+◌, ◌-◌, ◌*◌, ◌≤◌, ◌<◌, length, get_or, OnErr};
ghost use Rattle.std.proofs.Math.Seq.{paste};
ghost use Rattle.refusal.specs.Numbers.{number_in};
ghost use Rattle.inbox.specs.Messages.{framed};
ghost use Rattle.outbox.specs.Outbox.{push_msg, lens, has_new, stale};
ghost use Rattle.outbox.specs.Marks.{pieces, stale_marks};
ghost use Rattle.outbox.specs.Senders.{count_of, total_in, cut_in, total_of, cut_of, part, put, outbox, unless, post_refusal, posted_of, memory_refusal, pending_of, Eights, none};

use crate::marks;
use refusal::Refusal;

// A message's bytes, the two of its length among them; how many messages; what each memory needs.
pub const MESSAGE_ROOM: usize = 2048;

pub const MESSAGES: usize = 8;

pub const MEMORY: usize = 16384;

// A message: its number, how many bytes it has, and how many were cut into pieces so far.
#[derive(Clone, Copy)]
pub struct Message {
    pub seq: u32,
    pub total: u16,
    pub cut: u16,
}

impl Message {
    // How many bytes it has: no value of a message is wrong, and its memory ends there.
    pub fn total(self) -> usize
        ensures { (result ≡ total_in self) × (result ≤ 2048) }
    {
        usize::from(self.total).min(MESSAGE_ROOM)
    }

    // How many of them were cut.
    pub fn cut(self) -> usize
        ensures { (result ≡ cut_in self) × (result ≤ total_in self) × (result ≤ 2048) }
    {
        usize::from(self.cut).min(self.total())
    }
}

// No value of it is wrong. A count stands beside the messages, since the memory is fixed.
#[derive(Clone, Copy)]
pub struct Sender {
    // The number of the next message.
    pub next: u32,
    // How many messages are held.
    pub count: usize,
    pub messages: [Message; 8],
}

// A fresh start.
pub fn new() -> Sender
    ensures { (bytes marks : List ℕ) → outbox result bytes marks ≡ none }
{
    let message = Message {
        seq: 0,
        total: 0,
        cut: 0,
    };
    Sender {
        next: 0,
        count: 0,
        messages: [message; 8],
    }
}

pub fn count_of(s: Sender) -> usize
    ensures { (result ≡ count_of s) × (result ≤ 8) }
{
    s.count.min(MESSAGES)
}

// `push_msg`: a message queued. Its marks are not touched, whatever they are.
pub fn post(s: &mut Sender, bytes: &mut [u8], body: &[u8]) -> Result<(), Refusal>
    ensures refusal { number_in result ≡ post_refusal s.old.count (length bytes.old) (length body.now) }
    ensures outbox { (marks : List ℕ) → outbox s.new bytes.new marks
        ≡ unless (number_in result) (outbox s.old bytes.old marks) (push_msg (outbox s.old bytes.old marks) body.now) }
    ensures untouched { OnErr result ((s.new ≡ s.old) × (bytes.new ≡ bytes.old)) }
{
    check_post(s.count, bytes.len(), body.len())?;
    put_message(bytes, MESSAGE_ROOM * s.count, body);
    add(s, body.len());
    Ok(())
}

fn check_post(messages: usize, room: usize, n: usize) -> Result<(), Refusal>
    ensures { number_in result ≡ post_refusal messages room n }
{
    if room < MEMORY {
        return Err(Refusal::SmallMemory);
    }
    if 2046 < n {
        return Err(Refusal::Long);
    }
    if MESSAGES <= messages {
        return Err(Refusal::Eight);
    }
    Ok(())
}

// A message of n bytes behind the others.
fn add(s: &mut Sender, n: usize)
    requires { (s.old.count < 8) × (n ≤ 2046) }
    ensures { (s.new ≡ posted_of s.old n) × Eights s.old }
{
    s.messages[s.count] = Message {
        seq: s.next,
        total: (n + 2) as u16,
        cut: 0,
    };
    s.count += 1;
    s.next = bits::one_more(s.next);
}

// A message's length in two bytes, lowest first, and its bytes, one by one: a copy of all at once would need `memmove` from the host, since the compiler can't
// know that the two slices lie apart.
fn put_message(bytes: &mut [u8], at: usize, body: &[u8])
    requires { (length body.now ≤ 2046) × (at + 2048 ≤ length bytes.old) }
    ensures { bytes.new ≡ paste bytes.old at (framed body.now) (length (framed body.now)) }
{
    for k in 0..2 + body.len() {
        bytes[at + k] = framed_at(body, k);
    }
}

// Byte k of it.
fn framed_at(body: &[u8], k: usize) -> u8
    requires { k < 2 + length body.now }
    ensures { result ≡ get_or (framed body.now) k 0 }
{
    match k {
        0 => (body.len() % 256) as u8,
        1 => (body.len() / 256 % 256) as u8,
        _ => body[k - 2],
    }
}

// Whether there are bytes never sent yet.
pub fn has_new(s: Sender) -> bool
    ensures { (bytes marks : List ℕ) → 16384 ≤ length bytes → result ≡ has_new (outbox s bytes marks) }
{
    let n = count_of(s);
    for i in 0..n {
        if s.messages[i].cut() < s.messages[i].total() {
            return true;
        }
    }
    false
}

// How many bytes are not sent yet, or in flight.
pub fn pending(s: Sender, marks: &[u8]) -> Result<usize, Refusal>
    ensures { (bytes : List ℕ) → 16384 ≤ length bytes → result ≡ pending_of s bytes marks.now }
{
    if marks.len() < MEMORY {
        return Err(Refusal::SmallMemory);
    }
    let n = count_of(s);
    let mut sum: usize = 0;
    for i in 0..n {
        sum += pending_at(s, marks, i);
    }
    Ok(sum)
}

// Of message i.
fn pending_at(s: Sender, marks: &[u8], i: usize) -> usize
    requires { (i < 8) × (16384 ≤ length marks.now) }
    ensures { (result ≡ total_of s i - cut_of s i + lens (pieces 0 (part marks.now i (cut_of s i)))) × (result ≤ 4096) }
{
    let at = MESSAGE_ROOM * i;
    let cut = s.messages[i].cut();
    s.messages[i].total() - cut + marks::in_flight(&marks[at..at + cut])
}

// Our last burst got no answer at all.
pub fn stale(s: Sender, marks: &mut [u8]) -> Result<(), Refusal>
    ensures refusal { number_in result ≡ memory_refusal (length marks.old) }
    ensures outbox { (bytes : List ℕ) → outbox s bytes marks.new
        ≡ unless (number_in result) (outbox s bytes marks.old) (stale (outbox s bytes marks.old)) }
    ensures untouched { OnErr result (marks.new ≡ marks.old) }
{
    if marks.len() < MEMORY {
        return Err(Refusal::SmallMemory);
    }
    let n = count_of(s);
    for i in 0..n {
        stale_at(s, marks, i);
    }
    Ok(())
}

fn stale_at(s: Sender, marks: &mut [u8], i: usize)
    requires { (i < 8) × (16384 ≤ length marks.old) }
    ensures { marks.new ≡ put marks.old i (stale_marks (part marks.old i (cut_of s i))) }
{
    let at = MESSAGE_ROOM * i;
    let cut = s.messages[i].cut();
    marks::stale(&mut marks[at..at + cut]);
}
