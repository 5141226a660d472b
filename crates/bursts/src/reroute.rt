// Rerouting (reroute of ncs.rs): leaves that are heard directly leave their relay; leaves whose relay or exchange failed take the best that
// hears them. And what one look over the members finds for the choice of relays.
ghost use Rattle.std.specs.Prelude.{◌≡◌, cond, [], ◌∷◌, eqb};
ghost use Rattle.out.specs.Encode.{event_word};
ghost use Rattle.out.specs.Outputs.{Writes};
ghost use Rattle.roster.specs.Members.{rerouted_to};
ghost use Rattle.net.specs.Net.{Does, said};
ghost use Rattle.bursts.specs.Reroute.{able_of, survey_of, promoted_by, recent_by, promote_all, leaves_of, is_down, relay_from, move_all, reroute_of};

use level::Level;
use net::Station;
use out::Output;
use recent::Recent;
use roster::{Member, relay};

// Who could relay, who needs a relayer, and the relayers tried for each.
#[derive(Clone, Copy)]
pub struct Surveyed {
    pub able: u64,
    pub needs: u64,
    pub tried: [u64; 62],
}

pub fn survey(s: Station) -> Surveyed
    ensures { result ≡ survey_of s }
{
    let ms = s.members;
    let mut able: u64 = 0;
    let mut needs: u64 = 0;
    let mut tried = [0u64; 62];
    for i in 0..62 {
        let m = ms[i];
        let here = bits::has(s.used, i);
        able = bits::with_if(able, here & relay::could_relay(m), i);
        needs = bits::with_if(needs, here & relay::needs_relay(m), i);
        tried[i] = m.tried;
    }
    Surveyed {
        able: able,
        needs: needs,
        tried: tried,
    }
}

fn promote_member(m: Member, x: Level) -> Member
    ensures { result ≡ promoted_by x m }
{
    match x {
        Level::Unheard => m,
        Level::Decibels(snr) => roster::promoted(m, snr),
    }
}

// A promoted boat has no reading yet.
fn recent_by(r: Recent, x: Level) -> Recent
    ensures { result ≡ recent_by x r }
{
    match x {
        Level::Unheard => r,
        Level::Decibels(_) => recent::empty(),
    }
}

// Event 5, where a boat moved.
fn routed(moved: bool, slot: usize, via: u8, o: &mut Output)
    ensures { Writes o.old (cond moved (event_word 5 slot via ∷ []) []) o.new }
{
    if moved {
        o.event(5, slot, via);
    }
}

// Leaves that the station hears well directly leave their relay.
fn promote(mut s: Station, o: &mut Output) -> Station
    ensures { Does (promote_all s) result o.old o.new }
{
    let g = s.settings;
    let th = g.thresholds;
    let floor = th[0] + g.margin;
    for i in 0..62 {
        let m = s.members[i];
        let x = relay::promotable(bits::has(s.used, i), m, floor);
        let moved = level::is_heard(x);
        let k = promote_member(m, x);
        s.members[i] = k;
        let r = s.recent[i];
        let q = recent_by(r, x);
        s.recent[i] = q;
        let limit = s.settings.misslimit;
        let silent = roster::tally(s.totals.silent, limit <= m.missed, limit <= k.missed);
        s.totals.silent = silent;
        let news = bits::with_if(s.round.treenews, moved, i);
        s.round.treenews = news;
        routed(moved, i, wire::ALL, o);
    }
    s
}

// The leaves, as they are after promotion.
fn leaves_of(s: Station) -> u64
    ensures { result ≡ leaves_of s }
{
    let ms = s.members;
    let limit = s.settings.misslimit;
    let mut leaves: u64 = 0;
    for i in 0..62 {
        let m = ms[i];
        leaves = bits::with_if(leaves, bits::has(s.used, i) & relay::is_leaf(m, limit), i);
    }
    leaves
}

// Whether the leaf m, with p in its relay's slot, is to be moved: it or its relay misses too often, or the relay is no member.
pub fn is_down(used: u64, m: Member, p: Member, limit: u32) -> bool
    ensures { result ≡ is_down used m p limit }
{
    !net::is_member(used, m.via) | (limit <= p.missed) | (limit <= m.missed)
}

// The slot that the leaf c goes to; 63 where it stays.
fn new_relay(hears: &[u8; 3844], able: u64, down: bool, via: u8, c: u8, floor: f32) -> u8
    ensures { result ≡ cond down (relay_from hears.now able via c floor) 63 }
{
    if down {
        let others = bits::without(bits::without(able, usize::from(c)), usize::from(via));
        return relay::best_high(hears, others, c, floor);
    }
    wire::ALL
}

fn moved_to(m: Member, r: u8) -> Member
    ensures { result ≡ cond (eqb r 63) m (rerouted_to m r) }
{
    if r == wire::ALL {
        m
    } else {
        roster::rerouted(m, r)
    }
}

// Each leaf in turn, as the earlier ones left the roster. A boat that moved can relay no more.
fn move_leaves(mut s: Station, leaves: u64, able: u64, o: &mut Output) -> Station
    requires { (leaves ≡ leaves_of s) × (able ≡ able_of s) }
    ensures { Does (move_all (said s [])) result o.old o.new }
{
    let mut free = able;
    for c in 0..62 {
        let m = s.members[c];
        let v = net::index(m.via);
        let p = s.members[v];
        let down = bits::has(leaves, c) & is_down(s.used, m, p, s.settings.misslimit);
        let r = new_relay(&s.hears, free, down, m.via, c as u8, s.settings.relaysnr);
        let moved = r != wire::ALL;
        let k = moved_to(m, r);
        s.members[c] = k;
        let limit = s.settings.misslimit;
        let silent = roster::tally(s.totals.silent, limit <= m.missed, limit <= k.missed);
        s.totals.silent = silent;
        free = bits::without_if(free, moved, c);
        let news = bits::with_if(s.round.treenews, moved, c);
        s.round.treenews = news;
        routed(moved, c, r, o);
    }
    s
}

pub fn reroute(s: Station, o: &mut Output) -> Station
    ensures { Does (reroute_of s) result o.old o.new }
{
    let t = promote(s, o);
    let leaves = leaves_of(t);
    if leaves == 0 {
        return t;
    }
    let v = survey(t);
    move_leaves(t, leaves, v.able, o)
}
