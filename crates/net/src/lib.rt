// The net control station's state (NetStation of net.rs), its start, and the end of a sending.
#![tactic(auto)]

ghost use Rattle.std.specs.Prelude.{◌≡◌, cond};
ghost use Rattle.recent.specs.Readings.{empty};
ghost use Rattle.net.specs.State.{index_of, member_at};
ghost use Rattle.net.specs.Code.Done.{is_sure, deadline_for, done_for};
ghost use Rattle.net.specs.Net.{is_member, members_in, first_round, no_totals, new_station, wait_of, idle_wait, is_idle, polled_by, on_tx_done, level_in, down_level, slot_len, leaf_wait};

use inbox::cell::Cell;
use level::Level;
use queue::Queue;
use recent::Recent;
use roster::Member;

// What a reply is waited for: from which slot, whose traffic it also forwards (63: nobody's), how often it was asked again, and how many
// bursts of this turn are in (Wait::Reply of ncs.rs).
// relayfor is a number and no Option, since the block for C has a number there, in which every value comes back.
#[derive(Clone, Copy)]
pub struct Reply {
    pub slot: u8,
    pub relayfor: u8,
    pub tries: u8,
    pub turnbursts: u8,
}

// Document 01's turn: neither, waiting for the end of a sending, or waiting for a reply.
#[derive(Clone, Copy)]
pub enum Turn {
    Idle,
    Sending,
    Waiting(Reply),
}

// The turn, and when its waiting ends.
#[derive(Clone, Copy)]
pub struct Wait {
    pub turn: Turn,
    pub deadline: Option<f64>,
}

#[derive(Clone, Copy)]
pub struct Settings {
    pub turnaround: f64,
    pub maxburst: f64,
    pub replyslack: f64,
    pub detect: f64,
    pub beaconevery: f64,
    pub quickbeacon: f64,
    pub idleroundgap: f64,
    pub durations: [f64; 4],
    pub thresholds: [f32; 17],
    pub margin: f32,
    pub relaysnr: f32,
    pub misslimit: u32,
    pub beaconlevel: u8,
    pub windowslots: u8,
    pub call: [u8; 7],
    pub name: [u8; 6],
    pub prime: bool,
    pub lead: f64,
    pub latency: f64,
    // Of each level: how many frames a burst of data may have, and the largest payload of one (request U1).
    pub rooms: [u8; 17],
    pub payloads: [u8; 17],
}

// Sets are masks of slots, the round's list too: its lowest slot is the front. rxsent: the round whose received list was looked at, 0 for
// none: a number and no Option, since the block for C has a number there, in which every value comes back.
#[derive(Clone, Copy)]
pub struct Round {
    pub list: u64,
    pub toack: u64,
    pub treenews: u64,
    pub windowend: f64,
    pub nextbeacon: f64,
    pub nextround: f64,
    pub txat: f64,
    pub number: u32,
    pub rxsent: u32,
    pub closeleft: u32,
    pub closed: bool,
    pub traffic: bool,
    pub rxdirty: bool,
    pub activity: bool,
}

#[repr(C)]
#[derive(Clone, Copy)]
pub struct Totals {
    pub polls: u32,
    pub relays: u32,
    pub rxlists: u32,
    pub rounds: u32,
    pub replies: u32,
    // Boats at or above the miss limit.
    pub silent: u32,
}

// `used` is the mask of slots with a member; recent[i] has the last reception levels of the boat in slot i. Cell c below `count` is free, or in `busy` and filling, or in both `busy` and `landed`;
// owners[c] is slot * 2^32 + number of its message. `hears` has 63 for none: numbers and no Options, since the block for C has numbers there, in which every value comes back.
// The arrays stand in the station itself, so that an element is stored in place.
#[derive(Clone, Copy)]
pub struct Station {
    pub settings: Settings,
    pub wait: Wait,
    pub round: Round,
    pub totals: Totals,
    pub used: u64,
    pub busy: u64,
    pub landed: u64,
    pub count: usize,
    pub members: [Member; 62],
    pub recent: [Recent; 62],
    pub queues: [Queue; 62],
    pub hears: [u8; 3844],
    pub owners: [u64; 64],
    pub cells: [Cell; 64],
}

// A slot of the roster as an index; a number that is no slot gives 0, whose member is then not asked for.
pub fn index(slot: u8) -> usize
    ensures { result ≡ index_of slot }
{
    let i = usize::from(slot);
    if i < 62 { i } else { 0 }
}

// The slot has a member.
pub fn is_member(used: u64, slot: u8) -> bool
    ensures { result ≡ is_member used slot }
{
    (slot < 62) & bits::has(used, usize::from(slot))
}

// The slots with a member: bits 62 and 63 of `used` are no slots.
pub fn members(used: u64) -> u64
    ensures { result ≡ members_in used }
{
    bits::both(used, 4611686018427387903)
}

fn first_round() -> Round
    ensures { result ≡ first_round }
{
    Round {
        list: 0,
        toack: 0,
        treenews: 0,
        windowend: 0.0,
        nextbeacon: 0.0,
        nextround: 0.0,
        txat: 0.0,
        number: 0,
        rxsent: 0,
        closeleft: 0,
        closed: false,
        traffic: false,
        rxdirty: false,
        activity: false,
    }
}

fn no_totals() -> Totals
    ensures { result ≡ no_totals }
{
    Totals {
        polls: 0,
        relays: 0,
        rxlists: 0,
        rounds: 0,
        replies: 0,
        silent: 0,
    }
}

// NetStation::new, with `count` cells.
pub fn new(settings: Settings, count: usize) -> Station
    ensures { result ≡ new_station settings count }
{
    let nobody = [32u8; 7];
    let m = roster::new_member(nobody, wire::ALL, 0.0);
    let c = inbox::store::empty_cell();
    let wait = Wait {
        turn: Turn::Idle,
        deadline: None,
    };
    let round = first_round();
    let totals = no_totals();
    let members = [m; 62];
    let none = recent::empty();
    let recent = [none; 62];
    let q = queue::empty();
    let queues = [q; 62];
    let hears = [63u8; 3844];
    let owners = [0u64; 64];
    let cells = [c; 64];
    Station {
        settings: settings,
        wait: wait,
        round: round,
        totals: totals,
        used: 0,
        busy: 0,
        landed: 0,
        count: count,
        members: members,
        recent: recent,
        queues: queues,
        hears: hears,
        owners: owners,
        cells: cells,
    }
}

// ---- waiting

// The wait for the end of a sending.
pub fn sending(w: Wait) -> Wait
    ensures { result ≡ wait_of Turn.Sending w.deadline }
{
    let mut v = w;
    v.turn = Turn::Sending;
    v
}

// The wait for a reply.
pub fn waiting(reply: Reply, deadline: Option<f64>) -> Wait
    ensures { result ≡ wait_of (Turn.Waiting reply) deadline }
{
    Wait {
        turn: Turn::Waiting(reply),
        deadline: deadline,
    }
}

// Nothing is waited for.
pub fn idle() -> Wait
    ensures { result ≡ idle_wait }
{
    Wait {
        turn: Turn::Idle,
        deadline: None,
    }
}

pub fn is_idle(w: Wait) -> bool
    ensures { result ≡ is_idle w.turn }
{
    matches!(w.turn, Turn::Idle)
}

// The slot whose reply is waited for.
pub fn polled_slot(w: Wait) -> Option<u8>
    ensures { result ≡ polled_by w.turn }
{
    let turn = w.turn;
    match turn {
        Turn::Waiting(r) => Some(r.slot),
        Turn::Sending | Turn::Idle => None,
    }
}

// The member in a slot; of a number that is no slot, the one in slot 0.
pub fn member_at(s: Station, slot: u8) -> Member
    ensures { result ≡ member_at s slot }
{
    let ms = s.members;
    let i = index(slot);
    ms[i]
}

// ---- on_tx_done

// The slot that is waited for has a member that is heard and answered its last poll. Of a slot without one no member is read.
fn is_sure(s: Station, polled: Option<u8>) -> bool
    ensures { result ≡ is_sure s polled }
{
    let Some(slot) = polled else {
        return false;
    };
    if !is_member(s.used, slot) {
        return false;
    }
    let m = member_at(s, slot);
    let snrup = m.snrup;
    level::is_heard(snrup) & (m.missed == 0)
}

// A boat that is unheard, or missed its poll, may still be answering: a whole burst is waited out.
fn deadline_of(g: Settings, sure: bool, t: f64) -> Option<f64>
    ensures { result ≡ deadline_for g sure t }
{
    let reply = if sure { g.detect } else { g.maxburst };
    Some(t + g.turnaround + reply + g.replyslack)
}

fn done_wait(w: Wait, g: Settings, sure: bool, t: f64) -> Wait
    ensures { result ≡ done_for w.turn w g sure t }
{
    let turn = w.turn;
    let deadline = w.deadline;
    match turn {
        Turn::Waiting(r) => waiting(r, deadline_of(g, sure, t)),
        Turn::Sending => Wait {
            turn: Turn::Idle,
            deadline: deadline,
        },
        Turn::Idle => w,
    }
}

// A sending has ended at t; where not `ok`, nothing changes.
pub fn on_tx_done(mut s: Station, ok: bool, t: f64) -> Station
    ensures { result ≡ cond ok (on_tx_done s t) s }
{
    let w = s.wait;
    let g = s.settings;
    let v = done_wait(w, g, is_sure(s, polled_slot(w)), t);
    let wait = wait_if(ok, v, w);
    s.wait = wait;
    let txat = if ok { t } else { s.round.txat };
    s.round.txat = txat;
    s
}

fn wait_if(ok: bool, a: Wait, b: Wait) -> Wait
    ensures { result ≡ cond ok a b }
{
    if ok { a } else { b }
}

// The readings of a boat; none where it starts anew.
pub fn recent_if(r: Recent, fresh: bool) -> Recent
    ensures { result ≡ cond fresh empty r }
{
    if fresh { recent::empty() } else { r }
}

// ---- levels

pub fn level_for(g: Settings, x: Level) -> u32
    ensures { result ≡ level_in g x }
{
    level::level_for(&g.thresholds, g.margin, x)
}

// The level of bursts to a member.
pub fn down_level(g: Settings, m: Member) -> u32
    ensures { result ≡ down_level g m }
{
    level_for(g, roster::down_or_up(m))
}

pub fn slot_len(g: Settings) -> f64
    ensures { result ≡ slot_len g }
{
    let d = g.durations;
    let one = d[0];
    one + 2.0 * g.turnaround + 0.3
}

// How long a relay's leaf exchange may still take.
pub fn leaf_wait(g: Settings) -> f64
    ensures { result ≡ leaf_wait g }
{
    3.0 * g.turnaround + g.maxburst + g.detect + 2.0 * g.replyslack + 1.0
}
