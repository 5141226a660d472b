// What must hold after each call.
use level::Level;
use net::{Reply, Station, Turn};
use roster::Member;
use std::fmt;

// What does not hold.
#[derive(Clone, Copy, Debug, PartialEq, Eq)]
pub enum Fault {
    NotBlank,
    Shown,
    Hearing,
    Tried,
    Listed,
    Turn,
    Cell,
    Silent,
    Relay,
}

impl fmt::Display for Fault {
    fn fmt<W: fmt::Write>(&self, f: &mut fmt::Formatter<W>) -> fmt::Result {
        f.write_str(match self {
            Fault::NotBlank => "a free slot is not blank",
            Fault::Shown => "a slot is shown otherwise than it is held",
            Fault::Hearing =>
                "a free slot hears somebody, or somebody hears the boat that signed off",
            Fault::Tried => "a tried list names a free slot",
            Fault::Listed => "a list names a free slot",
            Fault::Turn => "a turn is a free slot's, or relays for one",
            Fault::Cell => "a cell belongs to a free slot",
            Fault::Silent => "the count of silent boats is not true",
            Fault::Relay => "a relay leads to nobody, or back",
        })
    }
}

fn unheard(x: Level) -> bool {
    matches!(x, Level::Unheard)
}

// A start has the clock 0 there.
fn never(x: Option<f64>) -> bool {
    x.is_none_or(|d| d == 0.0)
}

fn no_links(m: Member) -> bool {
    unheard(m.snrup) && unheard(m.snrdown) && unheard(m.direct) && never(m.lastheard)
}

fn no_messages(m: Member) -> bool {
    m.up.next == 0
        && m.up.low == 0
        && m.up.high == 0
        && m.toldbits == 0
        && m.markbits == 0
        && m.toldnext == 0
        && m.marknext == 0
        && m.bytesin == 0
}

fn is_blank(m: Member) -> bool {
    m.call == *b"       "
        && no_links(m)
        && no_messages(m)
        && m.via == 63
        && !m.hascaps
        && m.caps == 0
        && !m.hasversion
        && m.version == 0
        && m.burst == 0
        && m.missed == 0
        && m.tried == 0
}

// ---- slot by slot

// A free slot: blank, shown as nobody. A boat: shown, tries only boats.
fn of_member(s: Station, m: Member, i: u8) -> Result<(), Fault> {
    let here = net::is_member(s.used, i);
    if station::show::roster_entry(s, i).here != here {
        return Err(Fault::Shown);
    }
    if !here && !is_blank(m) {
        return Err(Fault::NotBlank);
    }
    if here && bits::minus(m.tried, s.used) != 0 {
        return Err(Fault::Tried);
    }
    Ok(())
}

fn of_members(s: Station) -> Result<(), Fault> {
    for (i, m) in (0..62).zip(s.members.iter()) {
        of_member(s, *m, i)?;
    }
    Ok(())
}

// A free slot hears nobody, and nobody hears the boat that has just signed off. (A later report may name a free slot again.)
fn of_row(used: u64, row: &[u8; 62], r: usize, gone: Option<usize>) -> Result<(), Fault> {
    for (a, level) in row.iter().enumerate() {
        if *level != 63 && (!bits::has(used, r) || gone == Some(a)) {
            return Err(Fault::Hearing);
        }
    }
    Ok(())
}

fn of_hears(s: Station, gone: Option<usize>) -> Result<(), Fault> {
    let (rows, _none) = s.hears.as_chunks::<62>();
    for (r, row) in rows.iter().enumerate() {
        of_row(s.used, row, r, gone)?;
    }
    Ok(())
}

// ---- lists, the turn, cells

fn of_lists(s: Station) -> Result<(), Fault> {
    let r = s.round;
    let named = bits::either(r.list, bits::either(r.toack, r.treenews));
    if bits::minus(named, s.used) != 0 {
        return Err(Fault::Listed);
    }
    Ok(())
}

fn of_reply(used: u64, r: Reply) -> Result<(), Fault> {
    if net::is_member(used, r.slot) && (r.relayfor == 63 || net::is_member(used, r.relayfor)) {
        return Ok(());
    }
    Err(Fault::Turn)
}

fn of_turn(s: Station) -> Result<(), Fault> {
    match s.wait.turn {
        Turn::Idle | Turn::Sending => Ok(()),
        Turn::Waiting(r) => of_reply(s.used, r),
    }
}

fn of_cells(s: Station) -> Result<(), Fault> {
    for (c, owner) in s.owners.iter().enumerate() {
        let slot = (owner / 4294967296 % 256) as u8;
        if bits::has(s.busy, c) && !net::is_member(s.used, slot) {
            return Err(Fault::Cell);
        }
    }
    Ok(())
}

// ---- silent boats and relays

fn of_silent(s: Station) -> Result<(), Fault> {
    let silent = s
        .members
        .iter()
        .enumerate()
        .filter(|(i, m)| bits::has(s.used, *i) && s.settings.misslimit <= m.missed)
        .count();
    if silent == s.totals.silent as usize {
        return Ok(());
    }
    Err(Fault::Silent)
}

// From slot i relays lead to a boat without one.
fn ends(s: Station, i: u8) -> bool {
    let mut at = i;
    for _ in 0..62 {
        if !net::is_member(s.used, at) {
            return false;
        }
        at = net::member_at(s, at).via;
        if at == 63 {
            return true;
        }
    }
    false
}

fn of_relays(s: Station) -> Result<(), Fault> {
    for i in 0..62 {
        if net::is_member(s.used, i) && !ends(s, i) {
            return Err(Fault::Relay);
        }
    }
    Ok(())
}

// gone: the slot that this call freed.
pub fn check(s: Station, gone: Option<usize>) -> Result<(), Fault> {
    of_members(s)?;
    of_hears(s, gone)?;
    of_lists(s)?;
    of_turn(s)?;
    of_cells(s)?;
    of_silent(s)?;
    of_relays(s)
}
