// Reception, control frames: a check-in, a report, boats overheard, a relay's children.
ghost use Rattle.std.specs.Prelude.{◌≡◌, cond, [], ◌<◌};
ghost use Rattle.out.specs.Outputs.{Writes};
ghost use Rattle.queue.specs.Queues.{reported_to};
ghost use Rattle.net.specs.Net.{Does};
ghost use Rattle.recent.specs.Readings.{noted};
ghost use Rattle.frames.specs.Code.Control.{relay_by};
ghost use Rattle.frames.specs.Code.Reading.{report_rx};
ghost use Rattle.frames.specs.Control.{payload_of, checkin_member, checkin_frame, forwarded_by, report_member, hearing, hear_pairs, newcomer, overheard_frame, kid_member, heard_as, kid_recent, kid_events, kid_of, kids_frame, u24};

use crate::payload::Payload;
use crate::{Air, Rx};
use admit::Seat;
use level::Level;
use net::Station;
use out::Output;
use queue::Queue;
use recent::Recent;
use roster::Member;

// ---- report

// A leaf's report, through the relay that was polled; 255 stands for nobody.
pub fn is_forwarded(m: Member, here: bool, a: Air) -> bool
    ensures { result ≡ forwarded_by a here m }
{
    here & (m.via != wire::ALL) & (m.via != 255) & a.polled.is_some_and(|slot| slot == m.via)
}

// What it tells of the reply, where it is no forwarded one.
pub fn report_rx(x: Rx, forwarded: bool, slot: u8, pending: bool) -> Rx
    ensures { result ≡ report_rx x forwarded slot pending }
{
    if forwarded {
        return x;
    }
    let mut k = x;
    k.sender = Some(slot);
    k.more = x.more | pending;
    k
}

// Its boat, which hears us at the level field q.
pub fn report_member(m: Member, forwarded: bool, a: Air, q: u8) -> Member
    ensures { result ≡ report_member a q forwarded m }
{
    let k = roster::with_down(m, wire::snr_from_q(q));
    if forwarded {
        return roster::with_heard(k, a.time);
    }
    k
}

// The numbers of its directed queue: bytes 9 to 11 say how much of it the boat holds.
pub fn report_queue(q: Queue, p: &Payload) -> Queue
    ensures { result ≡ reported_to q (u24 (payload_of p.now) 9) }
{
    let a = u32::from(p.byte(9));
    let b = u32::from(p.byte(10));
    let c = u32::from(p.byte(11));
    queue::reported_to(q, a + 256 * b + 65536 * c)
}

// Slot r hears slot a at the level field q, and 63 strikes the entry out; keys of 62 and above are dropped.
fn hear(hears: &mut [u8; 3844], r: u8, a: u8, q: u8)
    ensures { hears.new ≡ hearing r a q hears.old }
{
    let slots = (r < 62) & (a < 62);
    if slots {
        let k = usize::from(r) * 62 + usize::from(a);
        hears[k] = q % 64;
    }
}

// The pairs of a report of `slot`: whom it hears, and how well.
pub fn report_hears(hears: &mut [u8; 3844], slot: u8, p: &Payload)
    ensures { hears.new ≡ hear_pairs p.now.len (payload_of p.now) slot hears.old }
{
    let n = usize::from(p.len);
    let mut e: usize = 12;
    // A while: a pair cut off at the end does not count, which (..n.saturating_sub(1)).step_by(2) says no plainer.
    while e + 2 <= n {
        let a = p.byte(e);
        let q = p.byte(e + 1);
        hear(hears, slot, a, q);
        e += 2;
    }
}

// ---- check-in

fn checkin_member(m: Member, a: Air, p: &Payload) -> Member
    ensures { result ≡ checkin_member a p.now.len (payload_of p.now) m }
{
    let down = wire::snr_from_q(p.byte(6));
    let h = roster::received(m, a.level, down, a.time);
    let c = roster::with_caps(h, (7 < p.len).then_some(p.byte(7)));
    roster::with_version(c, (9 < p.len).then_some(p.byte(9)))
}

pub fn checkin(mut s: Station, a: Air, p: &Payload, o: &mut Output) -> Station
    ensures { Does (checkin_frame a p.now.len (payload_of p.now) s) result o.old o.new }
{
    let call = p.call(1);
    let seat = admit::seat_of(s, call);
    match seat {
        Seat::Known(slot) => {
            let i = net::index(slot);
            s.members[i] = checkin_member(s.members[i], a, p);
            s.recent[i] = recent::noted(s.recent[i], a.level);
            s.round.toack = bits::with(s.round.toack, i);
        }
        Seat::Free(slot) => {
            let i = net::index(slot);
            s.members[i] = checkin_member(roster::new_member(call, wire::ALL, a.time), a, p);
            s.recent[i] = recent::noted(recent::empty(), a.level);
            s.queues[i] = queue::empty();
            s.used = bits::with(s.used, i);
            s.round.toack = bits::with(s.round.toack, i);
            admit::admit_events(o, slot, wire::ALL);
        }
        Seat::Full => {}
    }
    s.round.activity = true;
    s
}

// ---- overheard

// The relay of a frame's newcomers: the frame's own boat m, where it has no relay itself and is willing.
fn relay_of(m: Member, here: bool, slot: u8) -> u8
    ensures { result ≡ relay_by here m slot }
{
    let ok = here & (m.via == wire::ALL) & roster::is_willing(m);
    if ok { slot } else { wire::ALL }
}

fn new_boat(m: Member, p: &Payload, e: usize) -> Member
    requires { e < 256 }
    ensures { result ≡ newcomer (payload_of p.now) e m }
{
    let c = roster::with_caps(m, Some(p.byte(e + 6)));
    roster::with_version(c, Some(p.byte(e + 7)))
}

// Stations that a member heard asking in and the control station did not: at each entry of eight bytes an unknown call enters, where a
// slot is free, and the frame's boat hears it.
pub fn overheard(mut s: Station, slot: u8, a: Air, p: &Payload, o: &mut Output) -> Station
    ensures { Does (overheard_frame a p.now.len (payload_of p.now) slot s) result o.old o.new }
{
    let b = net::index(slot);
    let boat = s.members[b];
    let via = relay_of(boat, net::is_member(s.used, slot), slot);
    let n = usize::from(p.len);
    let mut e: usize = 1;
    // A while: an entry cut off at the end does not count, which (..n.saturating_sub(7)).step_by(8) says no plainer.
    while e + 8 <= n {
        let call = p.call(e);
        let seat = admit::seat_of(s, call);
        if let Seat::Free(c) = seat {
            let i = net::index(c);
            s.members[i] = new_boat(roster::new_member(call, via, a.time), p, e);
            s.recent[i] = recent::empty();
            s.queues[i] = queue::empty();
            s.used = bits::with(s.used, i);
            s.round.toack = bits::with(s.round.toack, i);
            admit::admit_events(o, c, via);
            if net::is_member(s.used, slot) {
                hear(&mut s.hears, slot, c, p.byte(e + 5));
            }
        }
        e += 8;
    }
    s
}

// ---- children

fn is_kid(m: Member, here: bool, slot: u8) -> bool
    ensures { result ≡ kid_of here m slot }
{
    here & (m.via == slot) & (m.via != wire::ALL)
}

fn kid_member(m: Member, b: u8, a: Air) -> Member
    ensures { result ≡ kid_member a b m }
{
    if 128 <= b {
        return roster::reached(m, wire::snr_from_q(b), a.time);
    }
    roster::missed_one(m)
}

// Its readings: one more where the relay heard it, none where it says that it did not.
fn kid_recent(r: Recent, b: u8) -> Recent
    ensures { result ≡ kid_recent b r }
{
    if 128 <= b {
        return heard_as(r, wire::snr_from_q(b));
    }
    r
}

fn heard_as(r: Recent, x: Level) -> Recent
    ensures { result ≡ heard_as x r }
{
    match x {
        Level::Unheard => recent::empty(),
        Level::Decibels(snr) => recent::noted(r, snr),
    }
}

fn kid_event(o: &mut Output, b: u8, slot: u8)
    ensures { Writes o.old (kid_events slot b) o.new }
{
    if b < 128 {
        o.missed(usize::from(slot));
    }
}

// The entries of two bytes: which of its leaves the relay reached this turn.
pub fn kids(mut s: Station, slot: u8, a: Air, p: &Payload, o: &mut Output) -> Station
    ensures { Does (kids_frame a p.now.len (payload_of p.now) slot s) result o.old o.new }
{
    let n = usize::from(p.len);
    let mut e: usize = 1;
    // A while: a pair cut off at the end does not count, which (..n.saturating_sub(1)).step_by(2) says no plainer.
    while e + 2 <= n {
        let c = p.byte(e);
        let b = p.byte(e + 1);
        let i = net::index(c);
        let m = s.members[i];
        if is_kid(m, net::is_member(s.used, c), slot) {
            let k = kid_member(m, b, a);
            s.members[i] = k;
            s.recent[i] = kid_recent(s.recent[i], b);
            let limit = s.settings.misslimit;
            let silent = roster::tally(s.totals.silent, limit <= m.missed, limit <= k.missed);
            s.totals.silent = silent;
            kid_event(o, b, c);
        }
        e += 2;
    }
    s
}
