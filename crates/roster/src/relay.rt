// The choices of relays (reroute, relayer_for, relay_src_for, turn_over of ncs.rs), over masks of slots and the table of who hears whom:
// hears[r * 62 + a] is the level field at which slot r hears slot a, 0 to 62, or 63 for none: a number and no Option, since the block for C has a number there, in which every value comes back.
ghost use Rattle.std.specs.Prelude.{◌≡◌, ◌<◌};
ghost use Rattle.roster.specs.Relays.{is_source, hears_it, could_relay, needs_relay, loud_enough, wins, better, best_step, best_of, best_low, best_high, heard_at, relayer_for, relay_src_for, any_hears, tried_with, turn_over, promotable_at, is_leaf};

use super::Member;
use level::Level;
use stream::window;

// The best candidate so far, with the level field at which it hears.
#[derive(Clone, Copy)]
pub struct Pick {
    pub slot: u8,
    pub level: u8,
}

// It could relay: no relay of its own, nothing missed, heard at least once, willing.
pub fn could_relay(m: Member) -> bool
    ensures { result ≡ could_relay m }
{
    let lastheard = m.lastheard;
    (m.via == wire::ALL) & (m.missed == 0) & lastheard.is_some() & super::is_willing(m)
}

// Some of its traffic may lie with others: it missed its poll, or messages arrived past a hole.
pub fn needs_relay(m: Member) -> bool
    ensures { result ≡ needs_relay m }
{
    let w = m.up;
    (m.via == wire::ALL) & ((0 < m.missed) | window::holes(w))
}

// The level field of `hears` is one, of floor or more.
fn loud_enough(q: u8, floor: f32) -> bool
    ensures { result ≡ loud_enough q floor }
{
    let db = wire::field_db(q);
    (q < wire::UNHEARD) & (db >= floor)
}

// Of equal levels the one looked at first stays, the lowest slot; with LAST the one looked at last, the highest.
// A match with an arm for each: `map_or` with a closure that reads LAST was tried and did not prove.
fn wins<const LAST: bool>(p: Option<Pick>, q: u8) -> bool
    ensures { result ≡ wins LAST p q }
{
    match p {
        None => true,
        Some(b) => if LAST { b.level <= q } else { b.level < q },
    }
}

fn better<const LAST: bool>(p: Option<Pick>, ok: bool, slot: u8, q: u8) -> Option<Pick>
    ensures { result ≡ better LAST p ok slot q }
{
    if ok & wins::<LAST>(p, q) {
        return Some(Pick {
            slot: slot,
            level: q,
        });
    }
    p
}

// Slot i is looked at: a candidate where it is in `able` and hears a at floor or more.
fn step<const LAST: bool>(
    hears: &[u8; 3844],
    able: u64,
    a: u8,
    floor: f32,
    i: u8,
    p: Option<Pick>,
) -> Option<Pick>
    ensures { result ≡ best_step LAST hears.now able a floor i p }
{
    if !bits::has(able, usize::from(i)) {
        return p;
    }
    let q = heard_at(hears, i, a);
    better::<LAST>(p, loud_enough(q, floor), i, q)
}

// Of the slots in `able` the one that hears a best, at floor or more; the lowest of equals, with LAST the highest.
fn best<const LAST: bool>(hears: &[u8; 3844], able: u64, a: u8, floor: f32) -> u8
    ensures { result ≡ best_of LAST hears.now able a floor }
{
    let mut p = None;
    for i in 0..62 {
        p = step::<LAST>(hears, able, a, floor, i, p);
    }
    match p {
        Some(b) => b.slot,
        None => wire::ALL,
    }
}

// The slot, 63 for nobody: a number and no Option, since a relay's slot goes into the block for C as it is; of best_high too.
pub fn best_low(hears: &[u8; 3844], able: u64, a: u8, floor: f32) -> u8
    ensures { result ≡ best_low hears.now able a floor }
{
    best::<false>(hears, able, a, floor)
}

pub fn best_high(hears: &[u8; 3844], able: u64, a: u8, floor: f32) -> u8
    ensures { result ≡ best_high hears.now able a floor }
{
    best::<true>(hears, able, a, floor)
}

// The level field at which slot r hears slot a; 63 where either is no slot.
pub fn heard_at(hears: &[u8; 3844], r: u8, a: u8) -> u8
    ensures { result ≡ heard_at hears.now r a }
{
    if 62 <= r {
        return wire::UNHEARD;
    }
    if 62 <= a {
        return wire::UNHEARD;
    }
    let k = usize::from(r) * 62 + usize::from(a);
    hears[k]
}

// The member to forward a's traffic: the best that is untried, else the best of all; 63 for nobody.
// A number and no Option, since a relay's slot goes into the block for C as it is.
pub fn relayer_for(hears: &[u8; 3844], able: u64, tried: u64, a: u8, floor: f32) -> u8
    ensures { result ≡ relayer_for hears.now able tried a floor }
{
    let others = bits::without(able, usize::from(a));
    let first = best_low(hears, bits::minus(others, tried), a, floor);
    if first != wire::ALL {
        return first;
    }
    best_low(hears, others, a, floor)
}

// Station a is in `left`, and its relayer is `slot`.
fn is_source(
    hears: &[u8; 3844],
    left: u64,
    able: u64,
    tried: &[u64; 62],
    slot: u8,
    floor: f32,
    a: u8,
) -> bool
    requires { a < 62 }
    ensures { result ≡ is_source hears.now left able tried.now slot floor a }
{
    let at = usize::from(a);
    if !bits::has(left, at) {
        return false;
    }
    relayer_for(hears, able, tried[at], a, floor) == slot
}

// The station whose traffic `slot` should forward when polled: the first in `needs` whose relayer it is; 63 for none.
// A number and no Option, since it goes into `relayfor`, and that into the block for C, as it is.
pub fn relay_src_for(
    hears: &[u8; 3844],
    needs: u64,
    able: u64,
    tried: &[u64; 62],
    slot: u8,
    floor: f32,
) -> u8
    ensures { result ≡ relay_src_for hears.now needs able tried.now slot floor }
{
    if 62 <= slot {
        return wire::ALL;
    }
    let left = bits::without(needs, usize::from(slot));
    if left == 0 {
        return wire::ALL;
    }
    for a in 0..62 {
        if is_source(hears, left, able, tried, slot, floor, a) {
            return a;
        }
    }
    wire::ALL
}

// Slot i is in `left` and hears a.
fn hears_it(hears: &[u8; 3844], left: u64, a: u8, i: u8) -> bool
    ensures { result ≡ hears_it hears.now left a i }
{
    let q = heard_at(hears, i, a);
    bits::has(left, usize::from(i)) & (q < wire::UNHEARD)
}

// Whether a member of `left` hears a.
fn any_hears(hears: &[u8; 3844], left: u64, a: u8) -> bool
    ensures { result ≡ any_hears hears.now left a }
{
    for i in 0..62 {
        if hears_it(hears, left, a, i) {
            return true;
        }
    }
    false
}

// The relayers that were tried, with `slot`; none once every other member that hears a has had a go.
fn tried_with(hears: &[u8; 3844], used: u64, tried: u64, a: u8, slot: u8) -> u64
    ensures { result ≡ tried_with hears.now used tried a slot }
{
    let more = bits::with(tried, usize::from(slot));
    let left = bits::minus(bits::without(used, usize::from(a)), more);
    if any_hears(hears, left, a) { more } else { 0 }
}

// A turn of `slot`, which was to forward the traffic of the member m in slot a, has ended.
pub fn turn_over(hears: &[u8; 3844], used: u64, m: Member, a: u8, slot: u8) -> Member
    ensures { result ≡ turn_over hears.now used m a slot }
{
    let mut k = m;
    let w = m.up;
    let marks = window::bitmap(w);
    if (w.next != m.marknext) | (marks != m.markbits) {
        k.marknext = w.next;
        k.markbits = marks;
        k.tried = 0;
        return k;
    }
    k.tried = tried_with(hears, used, m.tried, a, slot);
    k
}

// The level at which a leaf was heard directly, if it is floor or more; Unheard where there is no leaf to be promoted.
pub fn promotable(here: bool, m: Member, floor: f32) -> Level
    ensures { result ≡ promotable_at here m floor }
{
    let leaf = here & (m.via != wire::ALL);
    let direct = m.direct;
    match direct {
        Level::Unheard => Level::Unheard,
        Level::Decibels(snr) => if leaf & (snr >= floor) {
            Level::Decibels(snr)
        } else {
            Level::Unheard
        },
    }
}

// A leaf, or a member never heard directly that keeps missing its polls.
pub fn is_leaf(m: Member, limit: u32) -> bool
    ensures { result ≡ is_leaf m limit }
{
    let snrup = m.snrup;
    (m.via != wire::ALL) | ((limit <= m.missed) & !level::is_heard(snrup))
}
