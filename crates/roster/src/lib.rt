// The members of a net (Member of ncs.rs): what the control station knows of a boat, and the choices of relays.
// A field's name has no underscore, since the definitions name the fields too.
#![tactic(auto)]

ghost use Rattle.std.specs.Prelude.{◌≡◌};
ghost use Rattle.roster.specs.Members.{with_links, with_heard, with_down, with_direct, heard_by, new_member, received_at, reached_at, with_caps, with_version, promoted_at, rerouted_to, missed_one, landed_one, barred_one, told_now, is_news, is_willing, down_or_up, is_direct, tally};

use level::Level;
use stream::window;
use stream::window::Window;

pub mod relay;

// `via` is the relay's slot, 63 for none; a flag says whether caps and version are known. Numbers and no Options, since the block for C has numbers there, in
// which every value comes back.
// `up` says which of its messages are whole;
// told and mark are (next, bitmap) as last sent in a received list and as when its relayers were last tried.
#[derive(Clone, Copy)]
pub struct Member {
    pub call: [u8; 7],
    pub via: u8,
    pub hascaps: bool,
    pub caps: u8,
    pub hasversion: bool,
    pub version: u8,
    pub burst: u8,
    pub toldbits: u8,
    pub markbits: u8,
    pub missed: u32,
    pub toldnext: u32,
    pub marknext: u32,
    pub bytesin: u32,
    pub snrup: Level,
    pub snrdown: Level,
    pub direct: Level,
    pub lastheard: Option<f64>,
    pub up: Window,
    pub tried: u64,
}

pub fn with_heard(m: Member, now: f64) -> Member
    ensures { result ≡ with_heard m now }
{
    let mut k = m;
    k.lastheard = Some(now);
    k
}

pub fn with_down(m: Member, snrdown: Level) -> Member
    ensures { result ≡ with_down m snrdown }
{
    let mut k = m;
    k.snrdown = snrdown;
    k
}

pub fn with_direct(m: Member, snr: f32) -> Member
    ensures { result ≡ with_direct m snr }
{
    let mut k = m;
    k.direct = Level::Decibels(snr);
    k
}

// A boat with no relay was heard now, one with a relay never.
fn heard_by(via: u8, now: f64) -> Option<f64>
    ensures { result ≡ heard_by via now }
{
    let direct = via == wire::ALL;
    if direct { Some(now) } else { None }
}

pub fn new_member(call: [u8; 7], via: u8, now: f64) -> Member
    ensures { result ≡ new_member call via now }
{
    let lastheard = heard_by(via, now);
    let up = window::fresh();
    Member {
        call: call,
        via: via,
        hascaps: false,
        caps: 0,
        hasversion: false,
        version: 0,
        burst: 0,
        toldbits: 0,
        markbits: 0,
        missed: 0,
        toldnext: 0,
        marknext: 0,
        bytesin: 0,
        snrup: Level::Unheard,
        snrdown: Level::Unheard,
        direct: Level::Unheard,
        lastheard: lastheard,
        up: up,
        tried: 0,
    }
}

// Its own burst came in at snr: the level up is smoothed, the boat hears us at snrdown.
pub fn received(m: Member, snr: f32, snrdown: Level, now: f64) -> Member
    ensures { result ≡ received_at m snr snrdown now }
{
    let mut k = m;
    k.snrup = Level::Decibels(level::smooth(m.snrup, snr));
    k.snrdown = snrdown;
    k.lastheard = Some(now);
    k
}

// A relay reached it, at snrup.
pub fn reached(m: Member, snrup: Level, now: f64) -> Member
    ensures { result ≡ reached_at m snrup now }
{
    let mut k = m;
    k.snrup = snrup;
    k.lastheard = Some(now);
    k.missed = 0;
    k
}

// Capability and version, where a check-in has them.
pub fn with_caps(m: Member, caps: Option<u8>) -> Member
    ensures { result ≡ with_caps m caps }
{
    let Some(byte) = caps else {
        return m;
    };
    let mut k = m;
    k.hascaps = true;
    k.caps = wire::caps_of(byte);
    k
}

pub fn with_version(m: Member, version: Option<u8>) -> Member
    ensures { result ≡ with_version m version }
{
    let Some(byte) = version else {
        return m;
    };
    let mut k = m;
    k.hasversion = true;
    k.version = byte;
    k
}

// The member as a direct one, heard at snr.
pub fn promoted(m: Member, snr: f32) -> Member
    ensures { result ≡ promoted_at m snr }
{
    let mut k = m;
    k.via = wire::ALL;
    k.missed = 0;
    k.snrup = Level::Decibels(snr);
    k.direct = Level::Unheard;
    k
}

// The member moved to another relay.
pub fn rerouted(m: Member, via: u8) -> Member
    ensures { result ≡ rerouted_to m via }
{
    let mut k = m;
    k.via = via;
    k.missed = 0;
    k
}

pub fn missed_one(m: Member) -> Member
    ensures { result ≡ missed_one m }
{
    let mut k = m;
    k.missed = bits::one_more(m.missed);
    k
}

// A message of n bytes has landed.
pub fn landed(m: Member, number: u32, n: u32) -> Member
    ensures { result ≡ landed_one m number n }
{
    let w = m.up;
    let v = window::land(w, number);
    let mut k = m;
    k.up = v;
    k.bytesin = bits::more_by(m.bytesin, n);
    k
}

// Its message of this number claims too much.
pub fn barred(m: Member, number: u32) -> Member
    ensures { result ≡ barred_one m number }
{
    let w = m.up;
    let v = window::bar(w, number);
    let mut k = m;
    k.up = v;
    k
}

// What a received list would say of it is noted.
pub fn told(m: Member) -> Member
    ensures { result ≡ told_now m }
{
    let w = m.up;
    let mut k = m;
    k.toldnext = w.next;
    k.toldbits = window::bitmap(w);
    k
}

// What the station holds of it differs from what was told, or has a hole.
pub fn is_news(m: Member) -> bool
    ensures { result ≡ is_news m }
{
    let w = m.up;
    (w.next != m.toldnext) | (window::bitmap(w) != m.toldbits) | window::holes(w)
}

pub fn is_willing(m: Member) -> bool
    ensures { result ≡ is_willing m }
{
    !m.hascaps | wire::relays(m.caps)
}

// The level at which it is reached: as it hears us, or as we hear it.
pub fn down_or_up(m: Member) -> Level
    ensures { result ≡ down_or_up m }
{
    level::or_else(m.snrdown, m.snrup)
}

// A member polled directly that answers.
pub fn is_direct(m: Member, limit: u32) -> bool
    ensures { result ≡ is_direct m limit }
{
    (m.missed < limit) & m.lastheard.is_some() & (m.via == wire::ALL)
}

// How many boats are silent, when one boat changes.
pub fn tally(n: u32, before: bool, after: bool) -> u32
    ensures { result ≡ tally n before after }
{
    if before {
        if after {
            return n;
        }
        if n == 0 {
            return n;
        }
        return n - 1;
    }
    if after {
        return bits::one_more(n);
    }
    n
}
