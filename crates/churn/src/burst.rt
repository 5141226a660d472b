// Bursts of boats: words of a head and its frames.
use crate::chance::Drawn;
use arrayvec::ArrayVec;
use net::Station;
use out::Output;

// The words of a burst: none here has as many as there is room for.
pub type Burst = ArrayVec<u32, 64>;

// The first n words.
fn burst_of(words: [u32; 64], n: usize) -> Burst {
    let mut burst = Burst::from(words);
    burst.truncate(n);
    burst
}

fn low(x: u32) -> u8 {
    (x % 256) as u8
}

// One of 250 calls.
pub fn call_of(x: u32) -> [u8; 5] {
    [(x % 250) as u8, 10, 0, 0, 0]
}

// A level field, 63 now and then: nothing was measured.
fn field_of(x: u32) -> u8 {
    if x % 16 == 0 { 63 } else { (x % 60) as u8 }
}

// The boat whose reply is waited for, or any slot.
fn speaker(s: Station, d: Drawn) -> u8 {
    match net::polled_slot(s.wait) {
        Some(p) if d.b % 4 != 0 => p,
        _ => (d.a % 62) as u8,
    }
}

fn checkin(out: &mut Output, x: u32, y: u32) {
    let [a, b, c, d, e] = call_of(x);
    let report = [2, a, b, c, d, e, field_of(y), low(y % 32), 2, 1];
    out.frame(0xbf, 0, &report, report.len());
}

fn overheard(out: &mut Output, slot: u8, x: u32, y: u32) {
    let [a, b, c, d, e] = call_of(x);
    let report = [4, a, b, c, d, e, field_of(y), 4, 2];
    out.frame(0x80 + slot % 64, 0, &report, report.len());
}

// The boat hears us, and three others.
fn report(out: &mut Output, slot: u8, x: u32, y: u32) {
    let report = [
        3,
        slot,
        field_of(x),
        0,
        0,
        0,
        0,
        0,
        0,
        0,
        0,
        0,
        low(x % 62),
        field_of(y),
        low(y % 62),
        field_of(x / 64),
        low(x / 64 % 62),
        field_of(y / 64),
    ];
    out.frame(0x80 + slot % 64, 0, &report, report.len());
}

fn kids(out: &mut Output, slot: u8, x: u32, y: u32) {
    let report = [10, low(x % 62), low(y % 63 + 128), low(y % 62), low(x % 60)];
    out.frame(0x80 + slot % 64, 0, &report, report.len());
}

// Of the boat's next message, or the one after it: all of it, its first bytes, or a later part.
fn piece(out: &mut Output, s: Station, slot: u8, x: u32) {
    let next = net::member_at(s, slot).up.next;
    let field = (next % 256 + x % 2) % 256 * 65536;
    let mut message = [7u8; 40];
    message[0] = 38;
    message[1] = 0;
    match x / 2 % 4 {
        0 => out.frame(slot % 64, field + 20, &message[20..], 20),
        1 => out.frame(slot % 64, field, &message[..20], 20),
        _ => out.frame(slot % 64, field, &message, 40),
    }
}

// A boat's burst: its report, pieces, and what it heard of others.
pub fn reply(s: Station, d: Drawn) -> Burst {
    let slot = speaker(s, d);
    let burst = u32::from(net::member_at(s, slot).burst);
    let mut words = [0u32; 64];
    let mut out = Output {
        words: &mut words,
        at: 0,
    };
    out.word(0x8060_0000 + burst % 4 * 131072);
    report(&mut out, slot, d.a, d.b);
    piece(&mut out, s, slot, d.b);
    piece(&mut out, s, slot, d.a / 8);
    match d.a % 3 {
        0 => overheard(&mut out, slot, d.b / 16, d.a / 4),
        1 => kids(&mut out, slot, d.b, d.a / 2),
        _ => {}
    }
    let n = out.at;
    burst_of(words, n)
}

// A check-in; now and then two.
pub fn new_boat(d: Drawn) -> Burst {
    let mut words = [0u32; 64];
    let mut out = Output {
        words: &mut words,
        at: 0,
    };
    out.word(0x8010_0000);
    checkin(&mut out, d.a, d.b);
    if d.b % 4 == 0 {
        checkin(&mut out, d.b / 4, d.a);
    }
    let n = out.at;
    burst_of(words, n)
}

// A burst with no frames: nothing to send.
pub fn idle(s: Station, d: Drawn) -> [u32; 1] {
    let slot = u32::from(speaker(s, d) % 64);
    let level = u32::from(field_of(d.b) % 64);
    [0x87c8_0000 + slot + level * 64]
}
