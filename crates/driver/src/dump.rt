// The roster as `drive` prints it: a line for each member, then the totals.
use super::page::Page;
use level::Level;
use net::{Station, Totals};
use queue::Queue;
use roster::Member;
use script::number::Pattern;
use stream::window;

// The last `digits` digits of v behind a space.
fn field(page: &mut Page, v: u64, digits: usize) {
    page.put(b' ');
    page.small(v, digits);
}

// ` -` where there is none.
fn known(page: &mut Page, v: Option<u64>, digits: usize) {
    match v {
        Some(v) => field(page, v, digits),
        None => {
            page.put(b' ');
            page.put(b'-');
        }
    }
}

fn put_level(page: &mut Page, x: Level) {
    let v = match x {
        Level::Unheard => None,
        Level::Decibels(d) => Some(u64::from(d.bits())),
    };
    known(page, v, 8);
}

fn put_clock(page: &mut Page, x: Option<f64>) {
    let v = match x {
        None => None,
        Some(d) => Some(d.bits()),
    };
    known(page, v, 16);
}

fn put_call(page: &mut Page, call: [u8; 7]) {
    page.put(b' ');
    for c in call {
        page.small(u64::from(c), 2);
    }
}

// Slot a, heard at level q, behind a space or a comma.
fn put_hear(page: &mut Page, first: bool, a: usize, q: u8) {
    page.put(if first { b' ' } else { b',' });
    page.small(a as u64, 2);
    page.put(b':');
    page.small(u64::from(wire::field_db(q).bits()), 8);
}

// Whom the boat of this row hears.
fn put_hears(page: &mut Page, row: &[u8]) {
    let mut first = true;
    for (a, q) in row.iter().enumerate() {
        if *q < wire::UNHEARD {
            put_hear(page, first, a, *q);
            first = false;
        }
    }
    if first {
        known(page, None, 2);
    }
}

fn put_member(page: &mut Page, m: &Member, i: usize) {
    page.put(b'S');
    field(page, i as u64, 2);
    put_call(page, m.call);
    field(page, u64::from(m.via), 2);
    put_level(page, m.snrup);
    put_level(page, m.snrdown);
    put_clock(page, m.lastheard);
    field(page, u64::from(m.missed), 8);
    field(page, u64::from(m.bytesin), 16);
    field(page, u64::from(m.up.next), 8);
    field(page, u64::from(window::bitmap(m.up)), 2);
    field(page, u64::from(m.burst), 2);
    known(page, m.hascaps.then_some(u64::from(m.caps)), 2);
    known(page, m.hasversion.then_some(u64::from(m.version)), 2);
}

// The total posted, the first byte kept, the number reported.
fn put_queue(page: &mut Page, q: &Queue) {
    for v in [q.posted, q.kept, q.reported] {
        field(page, u64::from(v), 8);
    }
}

fn put_totals(page: &mut Page, x: &Totals) {
    page.begin();
    page.put(b'T');
    for v in [x.polls, x.relays, x.rxlists, x.rounds, x.replies] {
        field(page, u64::from(v), 8);
    }
    page.put(b'\n');
}

// The whole of it. (No clause: one would only say these lines once more.)
#[inline(never)]
pub fn roster(s: &Station, page: &mut Page) {
    for i in 0..62 {
        if bits::has(s.used, i) {
            page.begin();
            put_member(page, &s.members[i], i);
            put_hears(page, &s.hears[62 * i..62 * i + 62]);
            put_queue(page, &s.queues[i]);
            page.put(b'\n');
        }
    }
    put_totals(page, &s.totals);
}
