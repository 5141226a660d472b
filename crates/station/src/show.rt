// What a dispatcher's tool shows of the roster (roster of ncs.rs).
ghost use Rattle.std.specs.Prelude.{◌≡◌};
ghost use Rattle.station.specs.Shows.{entry_of, hears_of};

use level::Level;
use net::Station;

// RosterEntry of net.rs: the boat in a slot. `cap` is its level cap.
// `here` is a flag and no Option, since C's stands in it: beside it C gets what the slot holds, of one above 61 what slot 0 holds.
#[derive(Clone, Copy)]
pub struct Entry {
    pub here: bool,
    pub call: [u8; 7],
    pub via: u8,
    pub snrup: Level,
    pub snrdown: Level,
    pub cap: u32,
    pub lastheard: Option<f64>,
    pub missed: u32,
    pub bytesin: u32,
    pub hascaps: bool,
    pub caps: u8,
    pub hasversion: bool,
    pub version: u8,
}

// The boat in a slot; `here` is false where there is none, and the rest is then no boat's.
pub fn roster_entry(s: Station, slot: u8) -> Entry
    ensures { result ≡ entry_of s slot }
{
    let g = s.settings;
    let m = net::member_at(s, slot);
    let call = m.call;
    let snrup = m.snrup;
    let snrdown = m.snrdown;
    let lastheard = m.lastheard;
    Entry {
        here: net::is_member(s.used, slot),
        call: call,
        via: m.via,
        snrup: snrup,
        snrdown: snrdown,
        cap: net::level_for(g, snrup),
        lastheard: lastheard,
        missed: m.missed,
        bytesin: m.bytesin,
        hascaps: m.hascaps,
        caps: m.caps,
        hasversion: m.hasversion,
        version: m.version,
    }
}

// The level at which the boat in slot r hears the one in slot a.
pub fn hears(s: Station, r: u8, a: u8) -> Level
    ensures { result ≡ hears_of s r a }
{
    let fields = s.hears;
    let q = roster::relay::heard_at(&fields, r, a);
    if net::is_member(s.used, r) & net::is_member(s.used, a) & (q < wire::UNHEARD) {
        return wire::snr_from_q(q);
    }
    Level::Unheard
}
