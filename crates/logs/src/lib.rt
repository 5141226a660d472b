// Other stations' logs: whether the turns in their sendings keep to the lists of their rounds.
#![tactic(auto)]

ghost use Rattle.std.specs.Prelude.{◌≡◌, ◌<◌, drop};
ghost use Rattle.logs.specs.Reading.{is_mark, mark_ok, wave_ok, head_part, frame_part, part_of, sendings_ok, marks_ok, entries_of};
ghost use Rattle.logs.specs.Turns.{accepted, verdict_of};
ghost use Rattle.logs.specs.Steps.{walk, marks, count_step, slot_fits, slot_step, mark_step, drawn, listed, begins, again, is_slot, polled, slot_after, acked, tiny_sent, sent, word_step, watch_step};

use refusal::Refusal;
use words::{Head, Item};

// What stands at a place: it takes `size` words, and `room` frames may follow.
#[derive(Clone, Copy)]
pub struct Part {
    pub size: usize,
    pub room: usize,
}

// While the words of marks are read: words of a list to come, and the slots of those before.
#[derive(Clone, Copy)]
pub struct Marks {
    pub left: u32,
    pub before: u64,
}

// While the turns are read: words of a list to come, the listed slots that have had no turn, the slot whose turn runs, if one does, and
// the polls and acknowledgements that it has had.
#[derive(Clone, Copy)]
pub struct Watch {
    pub left: u32,
    pub due: u64,
    pub slot: Option<u32>,
    pub polls: u32,
    pub acks: u32,
}

// The turn check: whether the log is accepted.
pub fn turn_check(words: &[u32]) -> Result<bool, Refusal>
    ensures { result ≡ verdict_of words.now }
{
    if !sendings_ok(words) {
        return Err(Refusal::Words);
    }
    if !marks_ok(words) {
        return Err(Refusal::Marks);
    }
    Ok(turns_ok(words))
}

// Nothing but words 6 and sendings.
fn sendings_ok(words: &[u32]) -> bool
    ensures { result ≡ sendings_ok words.now }
{
    let mut at: usize = 0;
    let mut room: usize = 0;
    // A step is as long as its part.
    while at < words.len() {
        let Some(p) = part_at(&words[at..], room) else {
            return false;
        };
        at += p.size;
        room = p.room;
    }
    true
}

// What stands at the head of the words, where `room` frames may follow; words that are no part of a log are nothing.
fn part_at(words: &[u32], room: usize) -> Option<Part>
    ensures { result ≡ part_of room words.now }
{
    let [w, rest @ ..] = words else {
        return None;
    };
    if is_mark(*w) {
        return Some(Part { size: 1, room: 0 });
    }
    if words::head_ok(*w) {
        return head_part(rest);
    }
    frame_part(room, words::item_at(words))
}

// A head's wave stands at the head of the words.
fn head_part(words: &[u32]) -> Option<Part>
    ensures { result ≡ head_part words.now }
{
    let [w, ..] = words else {
        return None;
    };
    if *w / 32 == 75497472 {
        return Some(Part { size: 2, room: 64 });
    }
    None
}

// A frame, where one may follow.
fn frame_part(room: usize, i: Item) -> Option<Part>
    ensures { result ≡ frame_part room i }
{
    match i {
        Item::End => None,
        Item::Bad => None,
        Item::Lost => None,
        Item::Frame {
            flags: _,
            field: _,
            len,
        } => one_frame(room, len),
    }
}

fn one_frame(room: usize, len: usize) -> Option<Part>
    ensures { result ≡ frame_part room (Item.Frame 0 0 len) }
{
    if room == 0 {
        return None;
    }
    Some(Part {
        size: 2 + words::words_for(len),
        room: room - 1,
    })
}

// No fault in the words of kind 6.
// A match with an arm for each: `is_some_and` was tried, and its proof is longer.
fn marks_ok(words: &[u32]) -> bool
    ensures { result ≡ marks_ok words.now }
{
    match marks_read(words) {
        Some(m) => m.left == 0,
        None => false,
    }
}

// The words of marks, read to the end; nothing where there is a fault.
fn marks_read(words: &[u32]) -> Option<Marks>
    ensures { result ≡ walk mark_step (marks 0 0) words.now }
{
    let mut m = Marks { left: 0, before: 0 };
    for w in words {
        let Some(n) = mark_step(m, *w) else {
            return None;
        };
        m = n;
    }
    Some(m)
}

fn mark_step(m: Marks, w: u32) -> Option<Marks>
    ensures { result ≡ mark_step m w }
{
    if m.left == 0 {
        return count_step(m, w);
    }
    slot_step(m, w)
}

// Where no list is being read a word 6 is a count.
fn count_step(m: Marks, w: u32) -> Option<Marks>
    ensures { result ≡ count_step m w }
{
    if !is_mark(w) {
        return Some(m);
    }
    if !mark_ok(w) {
        return None;
    }
    Some(Marks {
        left: w % 64,
        before: 0,
    })
}

// In a list each word has a slot that none before it has.
fn slot_step(m: Marks, w: u32) -> Option<Marks>
    requires { 0 < m.left }
    ensures { result ≡ slot_step m w }
{
    if !slot_ok(m.before, w) {
        return None;
    }
    Some(Marks {
        left: m.left - 1,
        before: bits::with(m.before, (w % 64) as usize),
    })
}

// A word 6 with a slot that is none of those before it.
fn slot_ok(before: u64, w: u32) -> bool
    ensures { result ≡ slot_fits before w }
{
    if !mark_ok(w) {
        return false;
    }
    if 62 <= w % 64 {
        return false;
    }
    !bits::has(before, (w % 64) as usize)
}

// The turns keep to the lists.
fn turns_ok(words: &[u32]) -> bool
    ensures { result ≡ accepted (entries_of words.now) }
{
    let mut s = Watch {
        left: 0,
        due: 0,
        slot: None,
        polls: 0,
        acks: 0,
    };
    for w in words {
        let Some(t) = watch_step(s, *w) else {
            return false;
        };
        s = t;
    }
    true
}

// Nothing where the log is not accepted.
fn watch_step(s: Watch, w: u32) -> Option<Watch>
    ensures { result ≡ watch_step s w }
{
    if s.left == 0 {
        return word_step(s, w);
    }
    Some(listed(s, w % 64))
}

// A word where no list is being read.
fn word_step(s: Watch, w: u32) -> Option<Watch>
    ensures { result ≡ word_step s w }
{
    if is_mark(w) {
        return drawn(s, w % 64);
    }
    if w / 268435456 == 8 {
        return sent(s, words::head_of(w));
    }
    Some(s)
}

// A mark: each slot of the last list has had its turn.
fn drawn(s: Watch, n: u32) -> Option<Watch>
    ensures { result ≡ drawn s n }
{
    if s.due != 0 {
        return None;
    }
    Some(Watch {
        left: n,
        due: 0,
        slot: None,
        polls: 0,
        acks: 0,
    })
}

// A slot of a list.
fn listed(s: Watch, x: u32) -> Watch
    requires { 0 < s.left }
    ensures { result ≡ listed s x }
{
    Watch {
        left: s.left - 1,
        due: bits::with(s.due, x as usize),
        ..s
    }
}

// A sending: header-only ones may be of a turn.
fn sent(s: Watch, h: Head) -> Option<Watch>
    ensures { result ≡ sent s h }
{
    if h.code == wire::TINY {
        return tiny_sent(s, h.hi, h.extra % 64);
    }
    Some(s)
}

fn tiny_sent(s: Watch, hi: u32, x: u32) -> Option<Watch>
    ensures { result ≡ tiny_sent s hi x }
{
    if (hi == wire::K_POLL) | (hi == wire::K_RELAY) {
        return polled(s, x);
    }
    if hi == wire::K_POLLACK {
        return acked(s, x, false);
    }
    if hi == wire::K_ACK {
        return acked(s, x, true);
    }
    Some(s)
}

// The turn of slot x runs.
fn runs(slot: Option<u32>, x: u32) -> bool
    ensures { result ≡ is_slot slot x }
{
    slot.is_some_and(|y| x == y)
}

fn polled(s: Watch, x: u32) -> Option<Watch>
    ensures { result ≡ polled s x }
{
    if runs(s.slot, x) {
        return again(s);
    }
    begins(s, x)
}

// A further poll of the turn that runs.
fn again(s: Watch) -> Option<Watch>
    ensures { result ≡ again s }
{
    if s.polls < 5 {
        return Some(Watch {
            polls: s.polls + 1,
            ..s
        });
    }
    None
}

// A poll that begins a turn: its slot is listed and has had none.
fn begins(s: Watch, x: u32) -> Option<Watch>
    ensures { result ≡ begins s x }
{
    let slot = x as usize;
    if bits::has(s.due, slot) {
        return Some(Watch {
            left: s.left,
            due: bits::without(s.due, slot),
            slot: Some(x),
            polls: 1,
            acks: 0,
        });
    }
    None
}

// An acknowledgement in the turn that runs; K_ACK, the last, ends it.
fn acked(s: Watch, x: u32, last: bool) -> Option<Watch>
    ensures { result ≡ acked s x last }
{
    if !runs(s.slot, x) {
        return None;
    }
    if 4 <= s.acks {
        return None;
    }
    Some(Watch {
        slot: slot_after(x, last),
        acks: s.acks + 1,
        ..s
    })
}

fn slot_after(x: u32, last: bool) -> Option<u32>
    ensures { result ≡ slot_after x last }
{
    if last { None } else { Some(x) }
}

// Kind 6.
fn is_mark(w: u32) -> bool
    ensures { result ≡ is_mark w }
{
    w / 268435456 == 6
}

// Kind 6 with a number in bits 5-0 and no other bit.
fn mark_ok(w: u32) -> bool
    ensures { result ≡ mark_ok w }
{
    w / 64 == 25165824
}
