// Request U3: a boat signs off. Its record, turn, lists, cells and `hears` go; the boats that it relayed for lose their relay.
#![tactic(auto)]

ghost use Rattle.std.specs.Prelude.{◌≡◌, cond, ◌<◌, leb};
ghost use Rattle.roster.specs.Members.{tally};
ghost use Rattle.net.specs.State.{with_table, table_of, with_hears};
ghost use Rattle.signoff.specs.SignOff.{vacant, bereft, bereave_all, clear_all, unhear_all, strike_round, strike_by, strike_wait, sign_off};

use level::Level;
use net::{Reply, Round, Station, Turn, Wait};
use roster::Member;

// What a start has in every slot.
fn vacant() -> Member
    ensures { result ≡ vacant }
{
    roster::new_member([32u8; 7], wire::ALL, 0.0)
}

// A boat goes on without the slot, and without its relay where that was the slot.
fn bereft(m: Member, slot: u8, limit: u32) -> Member
    ensures { result ≡ bereft slot limit m }
{
    let mut k = m;
    k.tried = bits::without(m.tried, usize::from(slot));
    if m.via == slot {
        k.snrup = Level::Unheard;
        k.via = wire::ALL;
        k.missed = limit;
        return k;
    }
    k
}

// The number of silent boats after the boat m became k, where it did.
fn tally_if(n: u32, yes: bool, limit: u32, m: Member, k: Member) -> u32
    ensures { result ≡ cond yes (tally n (leb limit m.missed) (leb limit k.missed)) n }
{
    if yes {
        return roster::tally(n, limit <= m.missed, limit <= k.missed);
    }
    n
}

fn bereft_if(yes: bool, m: Member, slot: u8, limit: u32) -> Member
    ensures { result ≡ cond yes (bereft slot limit m) m }
{
    if yes {
        return bereft(m, slot, limit);
    }
    m
}

fn bereave_all(mut s: Station, slot: u8) -> Station
    ensures { result ≡ bereave_all slot s }
{
    for i in 0..62 {
        let m = s.members[i];
        let limit = s.settings.misslimit;
        let here = bits::has(s.used, i);
        let k = bereft_if(here, m, slot, limit);
        s.members[i] = k;
        let r = s.recent[i];
        let q = net::recent_if(r, here & (m.via == slot));
        s.recent[i] = q;
        let silent = tally_if(s.totals.silent, here, limit, m, k);
        s.totals.silent = silent;
    }
    s
}

fn strike_reply(r: Reply, slot: u8, w: Wait) -> Wait
    ensures { result ≡ strike_by (Turn.Waiting r) slot w }
{
    if r.slot == slot {
        return net::idle();
    }
    if r.relayfor == slot {
        let n = Reply {
            slot: r.slot,
            relayfor: wire::ALL,
            tries: r.tries,
            turnbursts: r.turnbursts,
        };
        let d = w.deadline;
        return net::waiting(n, d);
    }
    w
}

fn strike_wait(w: Wait, slot: u8) -> Wait
    ensures { result ≡ strike_wait slot w }
{
    let turn = w.turn;
    match turn {
        Turn::Waiting(r) => strike_reply(r, slot, w),
        Turn::Sending => w,
        Turn::Idle => w,
    }
}

fn strike_round(mut r: Round, slot: u8) -> Round
    ensures { result ≡ strike_round slot r }
{
    let i = usize::from(slot);
    r.toack = bits::without(r.toack, i);
    r.treenews = bits::without(r.treenews, i);
    r.list = bits::without(r.list, i);
    r
}

fn clear_all(mut s: Station, slot: u8) -> Station
    ensures { result ≡ with_table s (clear_all slot (table_of s)) }
{
    for c in 0..64 {
        let o = s.owners[c];
        let yes = bits::has(s.busy, c) & (o / 4294967296 == u64::from(slot));
        s.landed = bits::without_if(s.landed, yes, c);
        s.busy = bits::without_if(s.busy, yes, c);
    }
    s
}

fn unhear_all(mut s: Station, slot: u8) -> Station
    requires { slot < 62 }
    ensures { result ≡ with_hears s (unhear_all slot s.hears) }
{
    let a = usize::from(slot);
    for i in 0..62 {
        s.hears[a * 62 + i] = wire::UNHEARD;
        s.hears[i * 62 + a] = wire::UNHEARD;
    }
    s
}

// A boat signs off.
// (A slot below 62: past it the definition names places of other boats, so a value in its stead would be no plainer.)
pub fn sign_off(mut s: Station, slot: u8) -> Station
    requires { slot < 62 }
    ensures { result ≡ sign_off s slot }
{
    let w = s.wait;
    let v = strike_wait(w, slot);
    s.wait = v;
    let r = s.round;
    let q = strike_round(r, slot);
    s.round = q;
    s = clear_all(s, slot);
    s = unhear_all(s, slot);
    let i = usize::from(slot);
    let m = s.members[i];
    let k = vacant();
    let limit = s.settings.misslimit;
    s.members[i] = k;
    let none = recent::empty();
    s.recent[i] = none;
    let silent = roster::tally(s.totals.silent, limit <= m.missed, limit <= k.missed);
    s.totals.silent = silent;
    s.used = bits::without(s.used, i);
    let q = queue::empty();
    s.queues[i] = q;
    bereave_all(s, slot)
}
