// The bursts of the next decision (poll_burst, acks_burst, beacon, rx_list_burst of ncs.rs).
#![tactic(auto)]

ghost use Rattle.std.specs.Prelude.{◌≡◌, [], ◌∷◌, ◌++◌, ◌-◌, ◌/◌, ◌%◌, replicate, take, set};
ghost use Rattle.bits.specs.Mask.{lowest_bit};
ghost use Rattle.out.specs.Outputs.{Writes};
ghost use Rattle.net.specs.Net.{Does};
ghost use Rattle.bursts.specs.Bursts.{poll_extra, poll_kind, poll_level, poll_burst, floor_if, ack_frames, acks_burst, beacon_lasts, first_ms, len_ms, name_payload, beacon_payload, beacon_size, without_found, beyond, window_end, beacon_of, tell_of, tell_all, rx_list_burst};

use net::{Round, Settings, Station};
use out::Output;
use roster::Member;

pub mod direct;
pub mod reroute;
pub mod rows;

// ---- poll_burst

// Caps above 15 are sent as 15. K_RELAY where the slot is to forward a source's traffic, else K_POLL.
fn poll_extra(slot: u8, relayfor: u8, cap: u32, burst: u8) -> u32
    ensures { result ≡ poll_extra slot relayfor cap burst }
{
    let c = cap.min(15);
    let s = u32::from(slot) % 64;
    if relayfor == wire::ALL {
        return s + 64 * c + 1024 * (u32::from(burst) % 4);
    }
    s + 64 * (u32::from(relayfor) % 64) + 4096 * c
}

fn poll_kind(relayfor: u8) -> u32
    ensures { result ≡ poll_kind relayfor }
{
    if relayfor == wire::ALL {
        wire::K_POLL
    } else {
        wire::K_RELAY
    }
}

fn poll_level(g: Settings, m: Member, robust: bool) -> u32
    ensures { result ≡ poll_level g m robust }
{
    if robust { 0 } else { net::down_level(g, m) }
}

// The poll of a slot, whose member is m where there is one; robust: at the floor.
// (A flag beside the member: callers read it in place and ask for the flag themselves, so an Option would only copy it once more.)
pub fn poll_burst(
    g: Settings,
    here: bool,
    m: Member,
    slot: u8,
    relayfor: u8,
    robust: bool,
    o: &mut Output,
)
    ensures { Writes o.old (poll_burst g here m slot relayfor robust) o.new }
{
    let kind = poll_kind(relayfor);
    if here {
        let snrup = m.snrup;
        let cap = net::level_for(g, snrup);
        let lev = poll_level(g, m, robust);
        o.tiny(kind, poll_extra(slot, relayfor, cap, m.burst), lev);
        return;
    }
    o.tiny(kind, poll_extra(slot, relayfor, 0, 0), 0);
}

// ---- acks_burst

// A slot without a member among those told is at the floor.
fn floor_if(strays: u64, lev: u32) -> u32
    ensures { result ≡ floor_if strays lev }
{
    if strays == 0 { lev } else { 0 }
}

// Slot assignments, and the relay of every leaf among them or moved, in words; the round behind them.
pub fn acks_round(s: Station, o: &mut Output) -> Round
    ensures { (result ≡ (acks_burst s).station.round) × Writes o.old (acks_burst s).words o.new }
{
    let members = net::members(s.used);
    let known = bits::both(s.round.toack, members);
    let moved = bits::both(s.round.treenews, members);
    let all = bits::either(known, moved);
    let strays = bits::minus(bits::either(s.round.toack, s.round.treenews), members);
    let acks = rows::ack_rows(s, known);
    let tree = rows::tree_rows(s, all, moved);
    let lev = floor_if(strays, rows::least_reach(s, all));
    o.head(0, 0, 0, lev);
    o.chunks(wire::C_ACKS, acks.as_slice(), 18);
    o.chunks(wire::C_TREE, tree.as_slice(), 20);
    let mut r = s.round;
    r.toack = 0;
    r.treenews = 0;
    r
}

// The acknowledgements are sent.
pub fn acks_burst(mut s: Station, o: &mut Output) -> Station
    ensures { Does (acks_burst s) result o.old o.new }
{
    let r = acks_round(s, o);
    s.round = r;
    let w = s.wait;
    let v = net::sending(w);
    s.wait = v;
    s
}

// ---- beacon

fn name_payload(g: Settings) -> [u8; 32]
    ensures { result ≡ name_payload g ++ replicate 18 0 }
{
    let call = g.call;
    let c = wire::calls::pack_call(call);
    let n = g.name;
    let mut p = [0u8; 32];
    p[0] = wire::C_BEACON;
    p[1] = c[0];
    p[2] = c[1];
    p[3] = c[2];
    p[4] = c[3];
    p[5] = c[4];
    p[6] = n[0];
    p[7] = n[1];
    p[8] = n[2];
    p[9] = n[3];
    p[10] = n[4];
    p[11] = n[5];
    p[12] = 1;
    p[13] = g.windowslots;
    p
}

fn beacon_lasts(g: Settings, acks: usize) -> f64
    ensures { result ≡ beacon_lasts g acks }
{
    let k = acks % 4;
    let d = g.durations;
    d[k]
}

// Where the burst of slot 0 starts after the beacon's own start, in milliseconds.
fn first_ms(g: Settings, acks: usize) -> u16
    ensures { result ≡ first_ms g acks }
{
    let first = beacon_lasts(g, acks) - g.lead + g.turnaround + g.lead + g.latency;
    rounding::whole_ms(first * 1000.0)
}

// The slot length, 1 at least; a NaN is 0.
fn len_ms(g: Settings) -> u16
    ensures { result ≡ len_ms g }
{
    let x = net::slot_len(g) * 1000.0;
    if level::is_nan(x) {
        return 0;
    }
    let n = rounding::whole_ms(x);
    if n == 0 { 1 } else { n }
}

// The window's timing behind the first 14 bytes.
fn with_timing(p: [u8; 32], first: u16, len: u16) -> [u8; 32]
    ensures { result ≡ set (set (set (set p 14 (first % 256)) 15 (first / 256)) 16 (len % 256)) 17 (len / 256) }
{
    let mut q = p;
    q[14] = (first % 256) as u8;
    q[15] = (first / 256) as u8;
    q[16] = (len % 256) as u8;
    q[17] = (len / 256) as u8;
    q
}

// The first frame of a beacon with this many frames after it, and how many bytes it has.
fn beacon_payload(g: Settings, acks: usize) -> [u8; 32]
    ensures { result ≡ beacon_payload g acks ++ replicate (32 - beacon_size g) 0 }
{
    let p = name_payload(g);
    if g.prime {
        return with_timing(p, first_ms(g, acks), len_ms(g));
    }
    p
}

fn beacon_size(g: Settings) -> usize
    ensures { result ≡ beacon_size g }
{
    if g.prime { 18 } else { 14 }
}

// When the check-in window of a beacon of 1 + acks frames ends.
fn window_end(g: Settings, time: f64, acks: usize) -> f64
    ensures { result ≡ window_end g time acks }
{
    time + beacon_lasts(g, acks)
        + g.turnaround
        + g.windowslots as f64 * net::slot_len(g)
        + 0.0
        + g.replyslack
}

// The mask without its lowest slot.
fn without_lowest(mask: u64) -> u64
    ensures { result ≡ without_found (lowest_bit mask) mask }
{
    match bits::lowest(mask) {
        Some(i) => bits::without(mask, i),
        None => mask,
    }
}

// The mask without its nine lowest slots.
fn beyond_nine(mask: u64) -> u64
    ensures { result ≡ beyond 9 mask }
{
    let mut m = mask;
    for _ in 0..9usize {
        m = without_lowest(m);
    }
    m
}

// The beacon in words, and the round behind it: a check-in window opens, and those waiting for acknowledgement whom it does not list go on
// waiting.
pub fn beacon_round(s: Station, time: f64, o: &mut Output) -> Round
    ensures { (result ≡ (beacon_of s time).station.round) × Writes o.old (beacon_of s time).words o.new }
{
    let g = s.settings;
    let acks = rows::beacon_rows(s);
    let more = (acks.len() + 17) / 18;
    let p = beacon_payload(g, more);
    o.head(0, 0, 0, u32::from(g.beaconlevel));
    o.ctrl(&p, beacon_size(g));
    o.chunks(wire::C_ACKS, acks.as_slice(), 18);
    let mut r = s.round;
    r.nextbeacon = time + g.beaconevery;
    r.windowend = window_end(g, time, more);
    r.toack = beyond_nine(bits::both(r.toack, net::members(s.used)));
    r
}

// ---- rx_list_burst

pub fn tell_at(m: Member, here: bool) -> Member
    ensures { result ≡ tell_of here m }
{
    if here & roster::is_news(m) {
        return roster::told(m);
    }
    m
}

// What the list would say is noted.
fn tell_all(mut s: Station) -> Station
    ensures { result ≡ tell_all s }
{
    for i in 0..62 {
        let m = s.members[i];
        let k = tell_at(m, bits::has(s.used, i));
        s.members[i] = k;
    }
    s
}

// The end-of-round received list, when it has news; what it would tell is noted all the same.
pub fn rx_list_burst(mut s: Station, o: &mut Output) -> Station
    ensures { Does (rx_list_burst s) result o.old o.new }
{
    let list = rows::list_rows(s);
    let news = s.round.rxdirty | rows::any_holes(s);
    let lev = rows::least_direct(s);
    s.round.rxdirty = false;
    s = tell_all(s);
    if !news | list.is_empty() {
        return s;
    }
    o.head(0, 0, 0, lev);
    o.chunks(wire::C_RXLIST, list.as_slice(), 21);
    let w = s.wait;
    let v = net::sending(w);
    s.wait = v;
    let lists = bits::one_more(s.totals.rxlists);
    s.totals.rxlists = lists;
    s
}
