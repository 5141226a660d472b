// From the station to the block. An array is in a variable before it is part of a literal, as the check asks, and before it is lent: a part of a parameter that
// is lent keeps the whole parameter in memory.
ghost use Rattle.std.specs.Prelude.{◌≡◌, map};
ghost use Rattle.shore.specs.Blocks.{reading_of, time_of, await_made, await_by, setup_of, course_of, boat_of, line_of, block_of};

use super::block::{Await, Block, Boat, Course, Line, Reading, Setup, Time};
use level::Level;
use net::{Reply, Round, Settings, Station, Turn, Wait};
use queue::Queue;
use roster::Member;

pub fn reading_of(x: Level) -> Reading
    ensures { result ≡ reading_of x }
{
    match x {
        Level::Unheard => Reading {
            heard: 0,
            decibels: 0.0,
        },
        Level::Decibels(d) => Reading {
            heard: 1,
            decibels: d,
        },
    }
}

pub fn time_of(c: Option<f64>) -> Time
    ensures { result ≡ time_of c }
{
    match c {
        None => Time {
            known: 0,
            seconds: 0.0,
        },
        Some(t) => Time {
            known: 1,
            seconds: t,
        },
    }
}

fn await_made(turn: u8, r: Reply, d: Option<f64>) -> Await
    ensures { result ≡ await_made turn r d }
{
    Await {
        turn,
        slot: r.slot,
        relayfor: r.relayfor,
        tries: r.tries,
        turnbursts: r.turnbursts,
        deadline: time_of(d),
    }
}

fn await_of(w: Wait) -> Await
    ensures { result ≡ await_by w.turn w.deadline }
{
    let none = Reply {
        slot: 0,
        relayfor: 0,
        tries: 0,
        turnbursts: 0,
    };
    match w.turn {
        Turn::Idle => await_made(0, none, w.deadline),
        Turn::Sending => await_made(1, none, w.deadline),
        Turn::Waiting(r) => await_made(2, r, w.deadline),
    }
}

pub fn setup_of(g: Settings) -> Setup
    ensures { result ≡ setup_of g }
{
    let durations = g.durations;
    let thresholds = g.thresholds;
    let call = g.call;
    let name = g.name;
    let rooms = g.rooms;
    let payloads = g.payloads;
    Setup {
        turnaround: g.turnaround,
        maxburst: g.maxburst,
        replyslack: g.replyslack,
        detect: g.detect,
        beaconevery: g.beaconevery,
        quickbeacon: g.quickbeacon,
        idleroundgap: g.idleroundgap,
        durations,
        thresholds,
        margin: g.margin,
        relaysnr: g.relaysnr,
        misslimit: g.misslimit,
        beaconlevel: g.beaconlevel,
        windowslots: g.windowslots,
        call,
        name,
        prime: u8::from(g.prime),
        lead: g.lead,
        latency: g.latency,
        rooms,
        payloads,
    }
}

fn course_of(r: Round) -> Course
    ensures { result ≡ course_of r }
{
    Course {
        list: r.list,
        toack: r.toack,
        treenews: r.treenews,
        windowend: r.windowend,
        nextbeacon: r.nextbeacon,
        nextround: r.nextround,
        txat: r.txat,
        number: r.number,
        rxsent: r.rxsent,
        closeleft: r.closeleft,
        closed: u8::from(r.closed),
        traffic: u8::from(r.traffic),
        rxdirty: u8::from(r.rxdirty),
        activity: u8::from(r.activity),
    }
}

fn boat_of(m: Member) -> Boat
    ensures { result ≡ boat_of m }
{
    let call = m.call;
    Boat {
        call,
        via: m.via,
        hascaps: u8::from(m.hascaps),
        caps: m.caps,
        hasversion: u8::from(m.hasversion),
        version: m.version,
        burst: m.burst,
        toldbits: m.toldbits,
        markbits: m.markbits,
        missed: m.missed,
        toldnext: m.toldnext,
        marknext: m.marknext,
        bytesin: m.bytesin,
        snrup: reading_of(m.snrup),
        snrdown: reading_of(m.snrdown),
        direct: reading_of(m.direct),
        lastheard: time_of(m.lastheard),
        up: m.up,
        tried: m.tried,
    }
}

fn line_of(q: Queue) -> Line
    ensures { result ≡ line_of q }
{
    Line {
        posted: q.posted,
        kept: q.kept,
        reported: q.reported,
        round: q.round,
        sent: u8::from(q.sent),
    }
}

// What f gives of each element. [T; N]::map would move the elements through an IntoIter of Options: more copies than this loop.
pub(super) fn each<A: Copy, B: Copy, F: Fn(A) -> B>(xs: &[A; 62], f: F) -> [B; 62]
    requires { F.IsAlwaysCallable f }
    ensures { (g : A → B) → ((x : A) (y : B) → F.post f x y → y ≡ g x) → result ≡ map g xs.now }
{
    let mut out = [f(xs[0]); 62];
    for i in 0..62 {
        out[i] = f(xs[i]);
    }
    out
}

pub fn block_of(s: Station) -> Block
    ensures { result ≡ block_of s }
{
    let recent = s.recent;
    let hears = s.hears;
    let owners = s.owners;
    let cells = s.cells;
    let boats = s.members;
    let lines = s.queues;
    let members = each(&boats, boat_of);
    let queues = each(&lines, line_of);
    Block {
        settings: setup_of(s.settings),
        wait: await_of(s.wait),
        round: course_of(s.round),
        totals: s.totals,
        used: s.used,
        busy: s.busy,
        landed: s.landed,
        count: s.count,
        members,
        recent,
        queues,
        hears,
        owners,
        cells,
    }
}
