// From the block to the station: every block gives one. An array is in a variable before it is part of a literal, as the check asks.
ghost use Rattle.std.specs.Prelude.{◌≡◌, map};
ghost use Rattle.shore.specs.Blocks.{level_of, clock_of, turn_of, wait_of, settings_of, round_of, member_of, queue_of, station_of};

use super::block::{Await, Block, Boat, Course, Line, Reading, Setup, Time};
use super::pack::each;
use level::Level;
use net::{Reply, Round, Settings, Station, Turn, Wait};
use queue::Queue;
use roster::Member;

fn level_of(x: Reading) -> Level
    ensures { result ≡ level_of x }
{
    if x.heard == 0 {
        return Level::Unheard;
    }
    Level::Decibels(x.decibels)
}

fn clock_of(t: Time) -> Option<f64>
    ensures { result ≡ clock_of t }
{
    if t.known == 0 {
        return None;
    }
    Some(t.seconds)
}

fn turn_of(w: Await) -> Turn
    ensures { result ≡ turn_of w }
{
    if w.turn == 0 {
        return Turn::Idle;
    }
    if w.turn == 1 {
        return Turn::Sending;
    }
    let r = Reply {
        slot: w.slot,
        relayfor: w.relayfor,
        tries: w.tries,
        turnbursts: w.turnbursts,
    };
    Turn::Waiting(r)
}

fn wait_of(w: Await) -> Wait
    ensures { result ≡ wait_of w }
{
    Wait {
        turn: turn_of(w),
        deadline: clock_of(w.deadline),
    }
}

pub fn settings_of(g: Setup) -> Settings
    ensures { result ≡ settings_of g }
{
    let durations = g.durations;
    let thresholds = g.thresholds;
    let call = g.call;
    let name = g.name;
    let rooms = g.rooms;
    let payloads = g.payloads;
    Settings {
        turnaround: g.turnaround,
        maxburst: g.maxburst,
        replyslack: g.replyslack,
        detect: g.detect,
        beaconevery: g.beaconevery,
        quickbeacon: g.quickbeacon,
        idleroundgap: g.idleroundgap,
        durations,
        thresholds,
        margin: g.margin,
        relaysnr: g.relaysnr,
        misslimit: g.misslimit,
        beaconlevel: g.beaconlevel,
        windowslots: g.windowslots,
        call,
        name,
        prime: g.prime != 0,
        lead: g.lead,
        latency: g.latency,
        rooms,
        payloads,
    }
}

fn round_of(r: Course) -> Round
    ensures { result ≡ round_of r }
{
    Round {
        list: r.list,
        toack: r.toack,
        treenews: r.treenews,
        windowend: r.windowend,
        nextbeacon: r.nextbeacon,
        nextround: r.nextround,
        txat: r.txat,
        number: r.number,
        rxsent: r.rxsent,
        closeleft: r.closeleft,
        closed: r.closed != 0,
        traffic: r.traffic != 0,
        rxdirty: r.rxdirty != 0,
        activity: r.activity != 0,
    }
}

fn member_of(m: Boat) -> Member
    ensures { result ≡ member_of m }
{
    let call = m.call;
    Member {
        call,
        via: m.via,
        hascaps: m.hascaps != 0,
        caps: m.caps,
        hasversion: m.hasversion != 0,
        version: m.version,
        burst: m.burst,
        toldbits: m.toldbits,
        markbits: m.markbits,
        missed: m.missed,
        toldnext: m.toldnext,
        marknext: m.marknext,
        bytesin: m.bytesin,
        snrup: level_of(m.snrup),
        snrdown: level_of(m.snrdown),
        direct: level_of(m.direct),
        lastheard: clock_of(m.lastheard),
        up: m.up,
        tried: m.tried,
    }
}

fn queue_of(q: Line) -> Queue
    ensures { result ≡ queue_of q }
{
    Queue {
        posted: q.posted,
        kept: q.kept,
        reported: q.reported,
        round: q.round,
        sent: q.sent != 0,
    }
}

pub fn station_of(s: Block) -> Station
    ensures { result ≡ station_of s }
{
    let recent = s.recent;
    let hears = s.hears;
    let owners = s.owners;
    let cells = s.cells;
    let boats = s.members;
    let lines = s.queues;
    let members = each(&boats, member_of);
    let queues = each(&lines, queue_of);
    Station {
        settings: settings_of(s.settings),
        wait: wait_of(s.wait),
        round: round_of(s.round),
        totals: s.totals,
        used: s.used,
        busy: s.busy,
        landed: s.landed,
        count: s.count,
        members,
        recent,
        queues,
        hears,
        owners,
        cells,
    }
}
