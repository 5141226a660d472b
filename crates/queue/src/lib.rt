// The directed queue (request U1): the numbers of one boat (dir, dir_delivered, dir_sent_round of ncs.rs), and the bytes in the lent queue.
// The queue has 2,048 bytes for each of the 62 slots, and byte o of a boat's stream stands at o mod 2,048 of them: nothing moves.
#![tactic(auto)]

ghost use Rattle.std.specs.Prelude.{◌≡◌, ◌++◌, ◌+◌, ◌-◌, ◌≤◌, ◌<◌, length, get_or, replicate};
ghost use Rattle.inbox.specs.Messages.{framed};
ghost use Rattle.refusal.specs.Numbers.{number_in};
ghost use Rattle.queue.specs.Queues.{empty_queue, first_of, is_due, sent_in, reported_to, posted_to, space_refusal, place_of, byte_at, bytes_from, put_bytes};

use refusal::Refusal;

// posted: the bytes posted in all, kept: the first of them that the queue keeps, reported: the highest number that the boat reported. round: the
// round in which it was last sent to, where `sent`: a flag and no Option, since the block for C has the round there, every value of which comes back.
#[derive(Clone, Copy)]
pub struct Queue {
    pub posted: u32,
    pub kept: u32,
    pub reported: u32,
    pub round: u32,
    pub sent: bool,
}

// Nothing was posted.
pub fn empty() -> Queue
    ensures { result ≡ empty_queue }
{
    Queue {
        posted: 0,
        kept: 0,
        reported: 0,
        round: 0,
        sent: false,
    }
}

// ---- sending

// The byte that sending begins at: the first one not reported, or the first one kept where that is greater.
#[tactic(auto, using(std::proofs::lemmas::Bool::Decides::nat_tests))]
pub fn first(q: Queue) -> u32
    ensures { result ≡ first_of q }
{
    q.reported.max(q.kept)
}

// There is something to send, and nothing was sent in this round.
pub fn is_due(q: Queue, round: u32) -> bool
    ensures { result ≡ is_due q round }
{
    !(q.sent & (q.round == round)) & (first(q) < q.posted)
}

pub fn sent_in(q: Queue, round: u32) -> Queue
    ensures { result ≡ sent_in q round }
{
    let mut k = q;
    k.round = round;
    k.sent = true;
    k
}

// ---- the report

// The boat reports that it holds the first n bytes: their space is given back, of n above the total that of all.
#[tactic(auto, using(std::proofs::lemmas::Bool::Decides::nat_tests))]
pub fn reported_to(q: Queue, n: u32) -> Queue
    ensures { result ≡ reported_to q n }
{
    let mut k = q;
    k.reported = q.reported.max(n);
    k.kept = q.kept.max(n.min(q.posted));
    k
}

// ---- posting

// 24: the bytes kept and the new ones pass 2,048; 25: the total passes 16,777,215. n is the message's length, to which two bytes are added.
pub fn space_refusal(q: Queue, n: usize) -> Result<(), Refusal>
    ensures { number_in result ≡ space_refusal q n }
{
    if 2046 < n {
        return Err(Refusal::NoSpace);
    }
    if q.kept as usize + 2048 < q.posted as usize + n + 2 {
        return Err(Refusal::NoSpace);
    }
    if 16777215 < q.posted as usize + n + 2 {
        return Err(Refusal::Total);
    }
    Ok(())
}

// n bytes more, where they are posted.
pub fn posted_to(q: Queue, n: usize) -> Queue
    requires { q.posted + n < 4294967296 }
    ensures { result ≡ posted_to q n }
{
    let mut k = q;
    k.posted = q.posted + n as u32;
    k
}

// ---- bytes

// Where byte o of a slot's stream stands.
fn place(slot: u8, o: usize) -> usize
    ensures { result ≡ place_of slot o }
{
    2048 * usize::from(slot) + o % 2048
}

// Byte o of a slot's stream.
fn byte_at(queue: &[u8], slot: u8, o: usize) -> u8
    ensures { result ≡ byte_at queue.now slot o }
{
    queue.get(place(slot, o)).copied().unwrap_or(0)
}

// n of them, from byte o on.
pub fn bytes_from(queue: &[u8], slot: u8, o: usize, n: usize) -> [u8; 255]
    requires { (n ≤ 255) × (o < 4294967296) }
    ensures { result ≡ bytes_from queue.now slot o n ++ replicate (255 - n) 0 }
{
    let mut p = [0u8; 255];
    for k in 0..n {
        p[k] = byte_at(queue, slot, o + k);
    }
    p
}

// Byte k of a message as it is sent: its length in two bytes, lowest first, then its bytes.
fn framed_byte(message: &[u8], k: usize) -> u8
    requires { k < 2 + length message.now }
    ensures { result ≡ get_or (framed message.now) k 0 }
{
    match k {
        0 => (message.len() % 256) as u8,
        1 => (message.len() / 256 % 256) as u8,
        _ => message[k - 2],
    }
}

// A message stands in the queue from byte o of the slot's stream on.
pub fn put(queue: &mut [u8], slot: u8, o: u32, message: &[u8])
    requires { (slot < 62) × (126976 ≤ length queue.old) × (length message.now ≤ 2046) }
    ensures { queue.new ≡ put_bytes queue.old slot o (framed message.now) }
{
    for k in 0..message.len() + 2 {
        let i = place(slot, o as usize + k);
        queue[i] = framed_byte(message, k);
    }
}
