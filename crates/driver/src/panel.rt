// What `panel` says of the station in plain words: the silent boats, the boat in a slot, who hears whom, the month's dues.
use super::command::only_frame;
use super::page::Page;
use dues::Bill;
use level::Level;
use net::Station;
use script::number::Pattern;
use script::{action, number};
use station::show;
use station::show::Entry;
use std::fmt;
use std::fmt::Write;

// ---- levels and times

// To the nearest hundredth of a decibel; a minus where the highest bit is set, that of -0 too.
#[derive(Drop)]
struct Decibels(f32);

impl fmt::Display for Decibels {
    fn fmt<W: fmt::Write>(&self, f: &mut fmt::Formatter<W>) -> fmt::Result {
        let d = self.0;
        let sign = if d.bits() < 2147483648 { "" } else { "-" };
        let h = rounding::whole_ms(size_of(std::num::f32_to_f64_with_nan(d)) * 100.0);
        write!(f, "{sign}{}.{:02} dB", h / 100, h % 100)
    }
}

fn size_of(x: f64) -> f64 {
    if x < 0.0 { 0.0 - x } else { x }
}

fn put_level(page: &mut Page, x: Level) -> fmt::Result {
    match x {
        Level::Unheard => write!(page, "unheard"),
        Level::Decibels(d) => write!(page, "{}", Decibels(d)),
    }
}

// To the nearest second, 65,535 at most.
fn put_clock(page: &mut Page, x: Option<f64>, now: f64) -> fmt::Result {
    match x {
        None => write!(page, ", never heard"),
        Some(d) => {
            let ago = rounding::whole_ms(now - d);
            write!(page, ", last heard {ago} s ago")
        }
    }
}

// ---- questions of one word

// A slot and the call of the boat in it, the spaces at its end left out.
fn named(page: &mut Page, slot: u8, call: [u8; 7]) -> fmt::Result {
    write!(page, "slot {slot} (")?;
    for c in call {
        if c == b' ' {
            break;
        }
        page.put(c);
    }
    page.put(b')');
    Ok(())
}

fn put_relay(page: &mut Page, via: u8) -> fmt::Result {
    if via == wire::ALL {
        return write!(page, ": direct");
    }
    write!(page, ": by relay {via}")
}

fn put_known(page: &mut Page, name: &str, x: Option<u8>) -> fmt::Result {
    match x {
        Some(x) => write!(page, ", {name} {x}"),
        None => Ok(()),
    }
}

fn put_boat(page: &mut Page, e: &Entry, now: f64) -> fmt::Result {
    put_relay(page, e.via)?;
    write!(page, ", up ")?;
    put_level(page, e.snrup)?;
    write!(page, ", down ")?;
    put_level(page, e.snrdown)?;
    write!(page, ", level cap {}", e.cap)?;
    put_clock(page, e.lastheard, now)?;
    write!(page, ", missed {}, bytes in {}", e.missed, e.bytesin)?;
    put_known(page, "capability", e.hascaps.then_some(e.caps))?;
    put_known(page, "version", e.hasversion.then_some(e.version))
}

// The boat in a slot.
fn boat(page: &mut Page, s: &Station, slot: u8, now: f64) -> fmt::Result {
    let e = show::roster_entry(*s, slot);
    if !e.here {
        return write!(page, "slot {slot}: nobody");
    }
    named(page, slot, e.call)?;
    put_boat(page, &e, now)
}

// At which level the boat in slot r hears the one in slot x.
fn hears(page: &mut Page, s: &Station, r: u8, x: u8) -> fmt::Result {
    write!(page, "slot {r} hears slot {x}: ")?;
    put_level(page, show::hears(*s, r, x))
}

// The lowest of the last 32 levels at which the boat in a slot was received.
fn worst(page: &mut Page, s: &Station, slot: u8) -> fmt::Result {
    match station::worst(*s, slot) {
        Err(r) => write!(page, "{:08X}", u8::from(r)),
        Ok(x) => {
            write!(page, "slot {slot}: worst of the last 32 levels: ")?;
            put_level(page, x)
        }
    }
}

fn byte_of(x: u32) -> u8 {
    (x % 256) as u8
}

// The answer to a question: 0 the silent boats, 1 the boat in the slot of bits 15-8, 2 how it hears the one of bits 23-16,
// 4 its lowest level of late. (No clause: one would only say these lines once more.)
#[inline(never)]
pub fn asked(s: &Station, w: u32, now: f64, page: &mut Page) {
    let rest = action::rest_of(w);
    let slot = byte_of(rest / 16);
    page.begin();
    let _ = match rest % 16 {
        0 => write!(page, "silent boats: {}", s.totals.silent),
        1 => boat(page, s, slot, now),
        2 => hears(page, s, slot, byte_of(rest / 4096)),
        _ => worst(page, s, slot),
    };
    page.put(b'\n');
}

// ---- dues

// How many figures of four bytes the words are, one frame of them.
fn figures_in(words: &[u32]) -> Option<usize> {
    let (flags, field, len) = only_frame(words)?;
    (flags == 0 && field == 0 && len % 4 == 0).then_some(len / 4)
}

// The figures, lowest byte first.
fn figures(p: &[u8; 255]) -> [u32; 63] {
    let mut f = [0u32; 63];
    for i in 0..63 {
        f[i] = number::u32_at(p, 4 * i);
    }
    f
}

// A line for each boat, then the port's takings.
fn put_bill(page: &mut Page, s: &Station, b: &Bill) -> fmt::Result {
    for i in 0..62 {
        if bits::has(s.used, i) {
            named(page, i as u8, s.members[i].call)?;
            let charge = b.charges[i];
            let credit = b.credits[i];
            writeln!(page, ": charge {charge} cents, credit {credit} cents")?;
        }
    }
    writeln!(page, "takings: {} cents", b.takings)
}

// The dues of the figures in the words. (No clause: one would only say these lines once more.)
#[inline(never)]
pub fn billed(s: &Station, words: &[u32], page: &mut Page) {
    let Some(n) = figures_in(words) else {
        page.word(3);
        return;
    };
    let f = figures(&words::payload(words, 0, 252));
    match dues::dues(*s, &f[..n.min(63)]) {
        Ok(b) => {
            page.begin();
            let _ = put_bill(page, s, &b);
        }
        Err(refusal) => page.word(u32::from(u8::from(refusal))),
    }
}
