// The entry points: the checks in document 01's order, then what the station does. A refusal leaves all as it was.
#![tactic(auto)]

ghost use Rattle.std.specs.Prelude.{IfOk, cond, true, ◌+◌, ◌/◌, ◌≤◌, eqb, ◌≡◌, length};
ghost use Rattle.refusal.specs.Numbers.{number_in};
ghost use Rattle.bits.specs.Mask.{without_bit};
ghost use Rattle.stream.specs.Table.{cell_count};
ghost use Rattle.queue.specs.Queues.{posted_to};
ghost use Rattle.net.specs.State.{with_closing};
ghost use Rattle.std.proofs.lemmas.List.Edits.{sets};
ghost use Rattle.words.specs.Words.{parse, shape_of};
ghost use Rattle.station.specs.Entries.{start_refusal, check1, close_refusal, cell_refusal, check_relay, admit_refusal, next_refusal, post_refusal, receive_check, frames_or65, answered, heard_of, start_of, admit_of, receive_of, next_of, post_of, sent_of, close_of, read_refusal, reading_of, free_of};
ghost use Rattle.station.specs.SignOff.{sign_off_refusal, sign_off_of};
ghost use Rattle.station.specs.Worst.{worst_of};

use admit::Seat;
use config::Given;
use level::Level;
use net::Station;
use out::Output;
use queue::Queue;
use refusal::Refusal;

pub mod show;

// The station beside the answer, why the call is refused or how many words were written: a refused call gives the station back too.
#[derive(Clone, Copy)]
pub struct Answered {
    pub station: Station,
    pub answer: Result<usize, Refusal>,
}

// The same with the pieces of a reception that were not kept.
#[derive(Clone, Copy)]
pub struct Heard {
    pub station: Station,
    pub answer: Result<usize, Refusal>,
    pub mask: u64,
}

// ---- start

fn start_refusal(g: Given, store: usize) -> Result<(), Refusal>
    ensures { number_in result ≡ start_refusal g store }
{
    if store < 6400 {
        return Err(Refusal::SmallMemory);
    }
    if !config::settings_ok(g) {
        return Err(Refusal::Setting);
    }
    Ok(())
}

fn cells_of(store: usize) -> usize
    ensures { result ≡ cell_count (store / 6400) }
{
    let n = store / 6400;
    if n < 64 { n } else { 64 }
}

// A fresh start. The station given comes back where it is refused.
pub fn start(s: Station, g: Given, lent: &[u8]) -> Answered
    ensures { result ≡ answered (start_of s g lent.now) 0 }
{
    match start_refusal(g, lent.len()) {
        Err(r) => Answered {
            station: s,
            answer: Err(r),
        },
        Ok(()) => {
            let t = net::new(config::settings_of(g), cells_of(lent.len()));
            Answered {
                station: t,
                answer: Ok(0),
            }
        }
    }
}

// ---- direct admission

fn relay_refusal(used: u64, relay: u8, rest: Result<(), Refusal>) -> Result<(), Refusal>
    ensures { number_in result ≡ check_relay used relay (number_in rest) }
{
    if relay == wire::ALL {
        return rest;
    }
    if 61 < relay {
        return Err(Refusal::Slot);
    }
    if net::is_member(used, relay) {
        return rest;
    }
    Err(Refusal::NoMember)
}

fn full_refusal(full: bool) -> Result<(), Refusal>
    ensures { number_in result ≡ cond full 23 0 }
{
    if full { Err(Refusal::Full) } else { Ok(()) }
}

fn admit_refusal(room: usize, time: f64, used: u64, relay: u8, full: bool) -> Result<(), Refusal>
    ensures { number_in result ≡ admit_refusal room time used relay full }
{
    if room < 8192 {
        return Err(Refusal::SmallOut);
    }
    if !level::clock_ok(time) {
        return Err(Refusal::Clock);
    }
    relay_refusal(used, relay, full_refusal(full))
}

// Direct admission: five packed bytes, and a relay slot or 63.
pub fn admit(mut s: Station, packed: [u8; 5], relay: u8, time: f64, o: &mut [u32]) -> Answered
    ensures { (result ≡ answered (admit_of s packed relay time (length o.old)) (length o.old))
        × (o.new ≡ sets o.old 0 (admit_of s packed relay time (length o.old)).words) }
{
    let call = wire::calls::unpack_call(packed);
    let found = admit::seat_of(s, call);
    let no = admit_refusal(o.len(), time, s.used, relay, admit::is_full(found));
    let mut out = Output { words: o, at: 0 };
    if no.is_ok() {
        match found {
            Seat::Known(slot) => {
                let i = net::index(slot);
                s.round.toack = bits::with(s.round.toack, i);
            }
            Seat::Free(slot) => {
                let i = net::index(slot);
                let via = admit::via_for(s, slot, relay);
                s.members[i] = roster::new_member(call, via, time);
                s.recent[i] = recent::empty();
                s.queues[i] = queue::empty();
                s.used = bits::with(s.used, i);
                s.round.toack = bits::with(s.round.toack, i);
                admit::admit_events(&mut out, slot, via);
            }
            Seat::Full => {}
        }
    }
    Answered {
        station: s,
        answer: no.and(Ok(out.at)),
    }
}

// ---- reception

// How many frames the words are; 65 for words that are no burst.
fn frames_in(words: &[u32]) -> usize
    ensures { result ≡ frames_or65 (shape_of (parse words.now)) }
{
    match words::shape_of(words) {
        None => 65,
        Some(n) => n,
    }
}

fn receive_refusal(
    room: usize,
    lent: usize,
    count: usize,
    time: f64,
    snr: f32,
    bad: bool,
) -> Result<(), Refusal>
    ensures { number_in result ≡ receive_check room lent count time snr bad }
{
    if room < 8192 {
        return Err(Refusal::SmallOut);
    }
    if lent / 6400 < count {
        return Err(Refusal::SmallMemory);
    }
    if !level::clock_ok(time) {
        return Err(Refusal::Clock);
    }
    if !level::level_ok(snr) {
        return Err(Refusal::Level);
    }
    if bad {
        return Err(Refusal::Words);
    }
    Ok(())
}

// A burst received at snr. Where the call is refused, there is no frame to read, and the burst is nobody's.
pub fn receive(
    s: Station,
    words: &[u32],
    snr: f32,
    time: f64,
    lent: &mut [u8],
    o: &mut [u32],
) -> Heard
    ensures { (result ≡ heard_of (receive_of s words.now snr time lent.old (length o.old)) (length o.old))
        × (lent.new ≡ (receive_of s words.now snr time lent.old (length o.old)).store)
        × (o.new ≡ sets o.old 0 (receive_of s words.now snr time lent.old (length o.old)).words) }
{
    let n = frames_in(words);
    let no = receive_refusal(o.len(), lent.len(), s.count, time, snr, 64 < n);
    let mut out = Output { words: o, at: 0 };
    let mut mask: u64 = 0;
    let ok = no.is_ok();
    let t = rx::ncs_rx(s, ok, words, n, snr, time, lent, &mut out, &mut mask);
    Heard {
        station: t,
        answer: no.and(Ok(out.at)),
        mask: mask,
    }
}

// ---- next decision, end of a sending, closing

fn clock_refusal(time: f64) -> Result<(), Refusal>
    ensures { number_in result ≡ check1 time 0 }
{
    if level::clock_ok(time) {
        Ok(())
    } else {
        Err(Refusal::Clock)
    }
}

fn next_refusal(room: usize, lent: usize, time: f64) -> Result<(), Refusal>
    ensures { number_in result ≡ next_refusal time lent room }
{
    if room < 8192 {
        return Err(Refusal::SmallOut);
    }
    if lent < 126976 {
        return Err(Refusal::SmallMemory);
    }
    clock_refusal(time)
}

// The next decision; `lent` is the directed queue. Where the call is refused, no stage has anything to do.
pub fn next(s: Station, time: f64, lent: &[u8], o: &mut [u32]) -> Answered
    ensures { (result ≡ answered (next_of s time lent.now (length o.old)) (length o.old))
        × (o.new ≡ sets o.old 0 (next_of s time lent.now (length o.old)).words) }
{
    let no = next_refusal(o.len(), lent.len(), time);
    let mut out = Output { words: o, at: 0 };
    let t = next::ncs_next(s, no.is_ok(), time, lent, &mut out);
    Answered {
        station: t,
        answer: no.and(Ok(out.at)),
    }
}

// The end of a sending.
pub fn sent(s: Station, time: f64) -> Answered
    ensures { result ≡ answered (sent_of s time) 0 }
{
    let no = clock_refusal(time);
    let t = net::on_tx_done(s, no.is_ok(), time);
    Answered {
        station: t,
        answer: no.and(Ok(0)),
    }
}

fn close_refusal(count: u32) -> Result<(), Refusal>
    ensures { number_in result ≡ close_refusal count }
{
    if 15 < count {
        Err(Refusal::Closing)
    } else {
        Ok(())
    }
}

fn close_round(r: net::Round, count: u32, ok: bool) -> net::Round
    ensures { result ≡ cond ok (with_closing r true count) r }
{
    let mut k = r;
    if ok {
        k.closed = true;
        k.closeleft = count;
    }
    k
}

// Closing, with `count` closing bursts to send.
pub fn close(mut s: Station, count: u32) -> Answered
    ensures { result ≡ answered (close_of s count) 0 }
{
    let no = close_refusal(count);
    let r = s.round;
    let q = close_round(r, count, no.is_ok());
    s.round = q;
    Answered {
        station: s,
        answer: no.and(Ok(0)),
    }
}

// ---- reading and freeing

fn cell_refusal(count: usize, landed: u64, cell: usize) -> Result<(), Refusal>
    ensures { number_in result ≡ cell_refusal count landed cell }
{
    if (count <= cell) | (64 <= cell) {
        return Err(Refusal::CellNumber);
    }
    if !bits::has(landed, cell) {
        return Err(Refusal::NotLanded);
    }
    Ok(())
}

fn read_refusal(lent: usize, count: usize, landed: u64, cell: usize) -> Result<(), Refusal>
    ensures { number_in result ≡ read_refusal lent count landed cell }
{
    if lent / 6400 < count {
        return Err(Refusal::SmallMemory);
    }
    cell_refusal(count, landed, cell)
}

// The landed message of a cell, a part of the store itself.
pub fn read<'a>(s: Station, lent: &'a [u8], cell: usize) -> Result<&'a [u8], Refusal>
    ensures number { number_in result ≡ read_refusal (length lent.now) s.count s.landed cell }
    ensures message { IfOk result (λ m. m.now ≡ reading_of s lent.now cell) }
{
    read_refusal(lent.len(), s.count, s.landed, cell)?;
    Ok(inbox::store::read(lent, cell))
}

// A cell given back for reuse. The store is not touched.
pub fn free(mut s: Station, cell: usize) -> Answered
    ensures { result ≡ answered (free_of s cell) 0 }
{
    let no = cell_refusal(s.count, s.landed, cell);
    let ok = no.is_ok();
    s.landed = bits::without_if(s.landed, ok, cell);
    s.busy = bits::without_if(s.busy, ok, cell);
    Answered {
        station: s,
        answer: no.and(Ok(0)),
    }
}

// ---- posting

fn post_refusal(lent: usize, used: u64, slot: u8, q: Queue, n: usize) -> Result<(), Refusal>
    ensures { number_in result ≡ post_refusal lent used slot q n }
{
    if lent < 126976 {
        return Err(Refusal::SmallMemory);
    }
    if 61 < slot {
        return Err(Refusal::Slot);
    }
    if net::is_member(used, slot) {
        return queue::space_refusal(q, n);
    }
    Err(Refusal::NoMember)
}

// The numbers of the slot's queue with n bytes more, where they are posted.
fn post_queue(q: Queue, ok: bool, n: usize) -> Queue
    requires { ok ≡ true → q.posted + n + 2 ≤ 16777215 }
    ensures { result ≡ cond ok (posted_to q (n + 2)) q }
{
    if ok {
        return queue::posted_to(q, n + 2);
    }
    q
}

// A message is posted to a boat (request U1); `lent` is the directed queue.
pub fn post(mut s: Station, slot: u8, message: &[u8], lent: &mut [u8]) -> Answered
    ensures { (result ≡ answered (post_of s slot message.now lent.old) 0)
        × (lent.new ≡ (post_of s slot message.now lent.old).store) }
{
    let i = net::index(slot);
    let q = s.queues[i];
    let n = message.len();
    let no = post_refusal(lent.len(), s.used, slot, q, n);
    let ok = no.is_ok();
    if ok {
        queue::put(lent, slot, q.posted, message);
    }
    let k = post_queue(q, ok, n);
    s.queues[i] = k;
    Answered {
        station: s,
        answer: no.and(Ok(0)),
    }
}

// ---- signing off

fn sign_refusal(used: u64, slot: u8) -> Result<(), Refusal>
    ensures { number_in result ≡ sign_off_refusal used slot }
{
    if 61 < slot {
        return Err(Refusal::Slot);
    }
    if net::is_member(used, slot) {
        return Ok(());
    }
    Err(Refusal::NoMember)
}

// A boat signs off (request U3). The store is not touched.
pub fn sign_off(s: Station, slot: u8) -> Answered
    ensures { result ≡ answered (sign_off_of s slot) 0 }
{
    match sign_refusal(s.used, slot) {
        Ok(()) => Answered {
            station: signoff::sign_off(s, slot),
            answer: Ok(0),
        },
        Err(r) => Answered {
            station: s,
            answer: Err(r),
        },
    }
}

// ---- the worst of the last thirty-two

// A boat's poorest signal of late (request U13): the lowest of its last 32 reception levels, Unheard where there are none.
pub fn worst(s: Station, slot: u8) -> Result<Level, Refusal>
    ensures { result ≡ worst_of s slot }
{
    sign_refusal(s.used, slot)?;
    let rs = s.recent;
    let i = net::index(slot);
    let r = rs[i];
    Ok(recent::worst(r))
}
