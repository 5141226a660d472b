// The next decision (ncs_next of ncs.rs), stage by stage in the source's order.
#![tactic(auto)]

ghost use Rattle.std.specs.Prelude.{◌≡◌, ◌+◌, ◌%◌, ◌^◌, false, [], if◌then◌else◌};
ghost use Rattle.bits.specs.Loop.{any};
ghost use Rattle.out.specs.Outputs.{Writes};
ghost use Rattle.net.specs.State.{with_number};
ghost use Rattle.net.specs.Net.{Does, said};
ghost use Rattle.bursts.specs.Reroute.{source_for};
ghost use Rattle.next.specs.Next.{overdue_of, due_by, due_of, drawn, ncs_next};
ghost use Rattle.next.specs.Code.Decision.{late_of, slot_of, relay_of, is_quiet, late_words, late_member, late_source, late_wait, late_polls, late_totals, close_round, forward_to, late_round, act_in, is_said, is_draw, spoken_of, rerouting_of, round_then, list_in, list_due, told_in, eventful_at, eventful_in, list_round, no_list_yet, may_poll, front_of, Ends, none_seen, look_at, to_of, asks_for, poll_wait};

use bursts::{direct, reroute};
use net::{Reply, Round, Settings, Station, Totals, Turn, Wait};
use out::Output;
use queue::Queue;
use roster::{Member, relay};
use stream::window;
use words::least;

// Each stage changes parts of the station in place; where not `ok`, nothing changes.
// `queue` is the directed queue.
pub fn ncs_next(mut s: Station, ok: bool, time: f64, queue: &[u8], o: &mut Output) -> Station
    ensures { Does (if ok then said (ncs_next s time queue.now).station (ncs_next s time queue.now).words else said s []) result o.old o.new }
{
    let w = s.wait;
    let q = s.round;
    let g = s.settings;
    let l = late_of(due_of(w, q.closed, time), ok);
    let polled = slot_of(l);
    let i = net::index(polled);
    let m = s.members[i];
    let here = net::is_member(s.used, polled);
    put_late(o, l, q.closeleft, g, m, here);
    let k = late_member(m, l, here);
    s.members[i] = k;
    let a = net::index(relay_of(l));
    let b = s.members[a];
    let c = late_source(&s.hears, s.used, b, l);
    s.members[a] = c;
    let v = late_wait(w, l);
    s.wait = v;
    let t = s.totals;
    let u = late_totals(t, l, g.misslimit <= m.missed, g.misslimit <= k.missed);
    s.totals = u;
    let r = late_round(q, l, g, time);
    s.round = r;
    let act = act_of(is_quiet(l), r, s.used, time);
    if is_said(act) {
        let said = spoken(s, act, time, o);
        s.round = said;
        let sends = net::sending(v);
        s.wait = sends;
    }
    if is_draw(act) {
        s = round_end(s, time, o);
    }
    let now = s.wait;
    if let Some(slot) = front(now, s.round.list, act) {
        let number = s.round.number;
        let end = end_of(s.used);
        let mut seen = none_seen();
        for j in 0..end {
            let p = s.members[j];
            let f = s.queues[j];
            seen = look(seen, s.used, j, p, f, number, slot);
        }
        if let Some(to) = to_of(seen.word, slot) {
            s = direct::direct_burst(s, to, queue, o);
        } else {
            let mut source: u8 = wire::ALL;
            if asks(seen.needs, slot) {
                source = source_for(s, slot);
            }
            let h = s.settings;
            let e = net::index(slot);
            let n = s.members[e];
            let here = net::is_member(s.used, slot);
            bursts::poll_burst(h, here, n, slot, source, false, o);
            let x = s.wait;
            let y = poll_wait(x, slot, source);
            s.wait = y;
            let polls = bits::one_more(s.totals.polls);
            s.totals.polls = polls;
            let list = bits::without(s.round.list, usize::from(slot));
            s.round.list = list;
        }
    }
    s
}

// ---- close and timeout

// What the turn asks for at this time.
#[derive(Clone, Copy)]
pub enum Due {
    // Nothing is waited for.
    Free,
    // A reply or the end of a sending is still waited for.
    Quiet,
    // The net is closed.
    Close,
    // The first poll had no answer.
    Again(Reply),
    // The second had none.
    Missed(Reply),
}

fn overdue(r: Reply) -> Due
    ensures { result ≡ overdue_of r }
{
    if r.tries == 0 {
        return Due::Again(r);
    }
    Due::Missed(r)
}

fn due_by(d: Option<f64>, r: Reply, time: f64) -> Due
    ensures { result ≡ due_by d r time }
{
    match d {
        None => Due::Quiet,
        Some(end) => {
            if time < end {
                return Due::Quiet;
            }
            overdue(r)
        }
    }
}

fn due_of(w: Wait, closed: bool, time: f64) -> Due
    ensures { result ≡ due_of w closed time }
{
    if closed {
        return Due::Close;
    }
    let turn = w.turn;
    let d = w.deadline;
    match turn {
        Turn::Idle => Due::Free,
        Turn::Sending => Due::Quiet,
        Turn::Waiting(r) => due_by(d, r, time),
    }
}

// Where not `ok`, nothing is done.
fn late_of(d: Due, ok: bool) -> Due
    ensures { result ≡ late_of d ok }
{
    if ok { d } else { Due::Quiet }
}

// The slot of the reply that did not come; 63, which is no slot, for none: `net::index` and `net::is_member` take any number, so that none
// needs no case of its own.
fn slot_of(d: Due) -> u8
    ensures { result ≡ slot_of d }
{
    match d {
        Due::Again(r) => r.slot,
        Due::Missed(r) => r.slot,
        Due::Free | Due::Quiet | Due::Close => wire::ALL,
    }
}

// Whose traffic it was to forward; 63 for none, as in `Reply`: `net::index` takes any number here too.
fn relay_of(d: Due) -> u8
    ensures { result ≡ relay_of d }
{
    match d {
        Due::Again(r) => r.relayfor,
        Due::Missed(r) => r.relayfor,
        Due::Free | Due::Quiet | Due::Close => wire::ALL,
    }
}

// The decision ends here.
fn is_quiet(d: Due) -> bool
    ensures { result ≡ is_quiet d }
{
    matches!(d, Due::Quiet | Due::Close | Due::Again(_))
}

// K_CLOSE, the poll once more in the most robust waveform, or event 3.
fn put_late(o: &mut Output, d: Due, left: u32, g: Settings, m: Member, here: bool)
    ensures { Writes o.old (late_words d left g m here) o.new }
{
    match d {
        Due::Close => {
            if left != 0 {
                o.tiny(wire::K_CLOSE, 0, u32::from(g.beaconlevel));
            }
        }
        Due::Again(r) => bursts::poll_burst(g, here, m, r.slot, r.relayfor, true, o),
        Due::Missed(r) => {
            if here {
                o.missed(usize::from(r.slot));
            }
        }
        Due::Free | Due::Quiet => {}
    }
}

fn late_member(m: Member, d: Due, here: bool) -> Member
    ensures { result ≡ late_member m d here }
{
    match d {
        Due::Missed(_) => {
            if here {
                return roster::missed_one(m);
            }
            m
        }
        Due::Free | Due::Quiet | Due::Close | Due::Again(_) => m,
    }
}

fn late_source(hears: &[u8; 3844], used: u64, m: Member, d: Due) -> Member
    ensures { result ≡ late_source hears.now used m d }
{
    match d {
        Due::Missed(r) => {
            if net::is_member(used, r.relayfor) {
                return relay::turn_over(hears, used, m, r.relayfor, r.slot);
            }
            m
        }
        Due::Free | Due::Quiet | Due::Close | Due::Again(_) => m,
    }
}

fn late_wait(w: Wait, d: Due) -> Wait
    ensures { result ≡ late_wait w d }
{
    match d {
        Due::Again(r) => {
            let again = Reply {
                slot: r.slot,
                relayfor: r.relayfor,
                tries: 1,
                turnbursts: r.turnbursts,
            };
            net::waiting(again, None)
        }
        Due::Missed(_) => net::idle(),
        Due::Free | Due::Quiet | Due::Close => w,
    }
}

// The polls sent, with the one once more.
fn late_polls(polls: u32, d: Due) -> u32
    ensures { result ≡ late_polls polls d }
{
    match d {
        Due::Again(_) => bits::one_more(polls),
        Due::Free | Due::Quiet | Due::Close | Due::Missed(_) => polls,
    }
}

fn late_totals(t: Totals, d: Due, before: bool, after: bool) -> Totals
    ensures { result ≡ late_totals t d before after }
{
    let mut k = t;
    k.silent = roster::tally(t.silent, before, after);
    k.polls = late_polls(t.polls, d);
    k
}

fn close_round(r: Round, at: f64) -> Round
    ensures { result ≡ close_round r at }
{
    let mut k = r;
    if 0 < r.closeleft {
        k.closeleft = r.closeleft - 1;
        k.txat = at;
    }
    k
}

// ---- window, beacon, acknowledgements

// Something happened in the last check-in window: the next beacon comes soon.
fn forward(r: Round, soon: f64) -> Round
    ensures { result ≡ forward_to r soon }
{
    let mut k = r;
    if r.activity {
        k.activity = false;
        k.nextbeacon = level::least(r.nextbeacon, soon);
    }
    k
}

// The round after the first stages: closing counts down, and past the window the next beacon may come forward.
fn late_round(r: Round, d: Due, g: Settings, time: f64) -> Round
    ensures { result ≡ late_round r d g time }
{
    match d {
        Due::Close => close_round(r, time + g.maxburst),
        Due::Quiet | Due::Again(_) => r,
        Due::Free | Due::Missed(_) => {
            if time < r.windowend {
                return r;
            }
            forward(r, time + g.quickbeacon)
        }
    }
}

// What is to be done, in the source's order.
#[derive(Clone, Copy)]
pub enum Act {
    Wait,
    Beacon,
    Acks,
    Draw,
    Poll,
}

fn act_of(quiet: bool, r: Round, used: u64, time: f64) -> Act
    ensures { result ≡ act_in quiet r used time }
{
    if quiet | (time < r.windowend) {
        return Act::Wait;
    }
    if time >= r.nextbeacon {
        return Act::Beacon;
    }
    if (r.toack != 0) | (r.treenews != 0) {
        return Act::Acks;
    }
    if r.list != 0 {
        return Act::Poll;
    }
    if net::members(used) == 0 {
        return Act::Wait;
    }
    Act::Draw
}

// A burst to all goes out: the beacon or the acknowledgements.
fn is_said(a: Act) -> bool
    ensures { result ≡ is_said a }
{
    matches!(a, Act::Beacon | Act::Acks)
}

fn is_draw(a: Act) -> bool
    ensures { result ≡ is_draw a }
{
    matches!(a, Act::Draw)
}

// The words of such a burst, and the round behind it.
fn spoken(s: Station, a: Act, time: f64, o: &mut Output) -> Round
    ensures { (result ≡ (spoken_of a s time).station.round) × Writes o.old (spoken_of a s time).words o.new }
{
    let r = s.round;
    match a {
        Act::Beacon => bursts::beacon_round(s, time, o),
        Act::Acks => bursts::acks_round(s, o),
        Act::Wait | Act::Draw | Act::Poll => r,
    }
}

// ---- received list, reroute, round

// The slots that a round of this number polls.
fn draw(ms: [Member; 62], used: u64, limit: u32, number: u32) -> u64
    ensures { result ≡ list_in ms used limit number }
{
    let fourth = number % 4 == 0;
    let mut list: u64 = 0;
    for i in 0..62 {
        let m = ms[i];
        let listed = bits::has(used, i) & (m.via == wire::ALL) & (fourth | (m.missed < limit));
        list = bits::with_if(list, listed, i);
    }
    list
}

fn next_round(r: Round, at: f64) -> Round
    ensures { result ≡ with_number r ((r.number + 1) % 2 ^ 32) at false }
{
    let mut k = r;
    k.number = std::num::wrapping_add_u32(r.number, 1);
    k.traffic = false;
    k.nextround = at;
    k
}

fn new_round(mut s: Station, time: f64) -> Station
    ensures { result ≡ drawn s time }
{
    let g = s.settings;
    let r = s.round;
    let q = next_round(r, time + g.idleroundgap);
    s.round = q;
    let rounds = bits::one_more(s.totals.rounds);
    s.totals.rounds = rounds;
    let ms = s.members;
    let list = draw(ms, s.used, g.misslimit, q.number);
    s.round.list = list;
    s
}

fn rerouting(s: Station, time: f64, o: &mut Output) -> Station
    ensures { Does (rerouting_of s time) result o.old o.new }
{
    let r = s.round;
    if !r.traffic & (0 < r.number) & (time < r.nextround) {
        return s;
    }
    let t = reroute::reroute(s, o);
    if t.round.treenews != 0 {
        return bursts::acks_burst(t, o);
    }
    new_round(t, time)
}

// What has arrived is said, if that is news; else boats are moved and a new list is drawn up.
fn list_end(mut s: Station, time: f64, o: &mut Output) -> Station
    ensures { Does (round_then s time) result o.old o.new }
{
    let n = s.round.number;
    if (n == 0) | (s.round.rxsent == n) {
        return rerouting(s, time, o);
    }
    s.round.rxsent = n;
    let t = bursts::rx_list_burst(s, o);
    let w = t.wait;
    if net::is_idle(w) {
        return rerouting(t, time, o);
    }
    t
}

fn list_due(r: Round) -> bool
    ensures { result ≡ list_due r }
{
    (r.number != 0) & (r.rxsent != r.number)
}

// What a received list would tell is noted, where one is due.
fn told_in(ms: [Member; 62], used: u64, due: bool) -> [Member; 62]
    ensures { result ≡ told_in due used ms }
{
    let mut ks = ms;
    for i in 0..62 {
        let m = ks[i];
        let k = bursts::tell_at(m, due & bits::has(used, i));
        ks[i] = k;
    }
    ks
}

// The boat m, with p in its relay's slot, has a hole in its messages, or is to be promoted or moved.
fn eventful_at(used: u64, here: bool, m: Member, p: Member, floor: f32, limit: u32) -> bool
    ensures { result ≡ eventful_at used here m p floor limit }
{
    let w = m.up;
    let x = relay::promotable(here, m, floor);
    let down = relay::is_leaf(m, limit) & reroute::is_down(used, m, p, limit);
    level::is_heard(x) | (here & (window::holes(w) | down))
}

// Some boat does.
fn eventful(ms: [Member; 62], used: u64, g: Settings) -> bool
    ensures { result ≡ any (eventful_in ms used g) 62 0 }
{
    let th = g.thresholds;
    let floor = th[0] + g.margin;
    for i in 0..62 {
        let m = ms[i];
        let v = net::index(m.via);
        let p = ms[v];
        if eventful_at(used, bits::has(used, i), m, p, floor, g.misslimit) {
            return true;
        }
    }
    false
}

// The round behind a received list that is not sent, where one is due.
fn list_round(r: Round) -> Round
    ensures { result ≡ list_round r }
{
    let mut k = r;
    if list_due(r) {
        k.rxsent = r.number;
        k.rxdirty = false;
    }
    k
}

// No new list yet.
fn no_list_yet(r: Round, time: f64) -> bool
    ensures { result ≡ no_list_yet r time }
{
    !r.traffic & (0 < r.number) & (time < r.nextround)
}

// The end of a round. Mostly there is nothing to say and nobody to move: then the station stays where it is.
fn round_end(mut s: Station, time: f64, o: &mut Output) -> Station
    ensures { Does (round_then s time) result o.old o.new }
{
    let w = s.wait;
    let g = s.settings;
    let r = s.round;
    let ms = s.members;
    let ks = told_in(ms, s.used, list_due(r));
    let still = net::is_idle(w) & !r.rxdirty & (r.treenews == 0);
    if !still | eventful(ks, s.used, g) {
        s = list_end(s, time, o);
    } else {
        s.members = ks;
        let k = list_round(r);
        s.round = k;
        if !no_list_yet(k, time) {
            let q = next_round(k, time + g.idleroundgap);
            s.round = q;
            let list = draw(ks, s.used, g.misslimit, q.number);
            s.round.list = list;
            let rounds = bits::one_more(s.totals.rounds);
            s.totals.rounds = rounds;
        }
    }
    s
}

// ---- poll

fn may_poll(a: Act) -> bool
    ensures { result ≡ may_poll a }
{
    matches!(a, Act::Draw | Act::Poll)
}

// The slot to be polled, where nothing is being sent or waited for.
fn front(w: Wait, list: u64, a: Act) -> Option<u8>
    ensures { result ≡ front_of w list a }
{
    if !net::is_idle(w) | !may_poll(a) {
        return None;
    }
    let slot = bits::lowest(list)?;
    Some(slot as u8)
}

// What one look over the members finds for the poll of a slot: who needs a relayer, and whom word goes to before it.
#[derive(Clone, Copy)]
struct Seen {
    needs: u64,
    word: u64,
}

fn none_seen() -> Seen
    ensures { result ≡ none_seen }
{
    Seen { needs: 0, word: 0 }
}

// One past the highest slot in use.
fn end_of(used: u64) -> usize
    ensures { Ends used result }
{
    least(64 - u64::leading_zeros(used) as usize, 62)
}

// Slot j looked at before the poll of `slot` in this round: its member m and the queue of word for it, q.
fn look(seen: Seen, used: u64, j: usize, m: Member, q: Queue, number: u32, slot: u8) -> Seen
    ensures { result ≡ look_at seen used j m q number slot }
{
    let here = bits::has(used, j);
    let below = (m.via == slot) & (slot != wire::ALL);
    let word = here & queue::is_due(q, number) & ((j == usize::from(slot)) | below);
    Seen {
        needs: bits::with_if(seen.needs, here & relay::needs_relay(m), j),
        word: bits::with_if(seen.word, word, j),
    }
}

// To whom word goes before the poll of the slot: itself, or the first boat relayed by it.
fn to_of(word: u64, slot: u8) -> Option<u8>
    ensures { result ≡ to_of word slot }
{
    if bits::has(word, usize::from(slot)) {
        return Some(slot);
    }
    let i = bits::lowest(word)?;
    Some(i as u8)
}

// Others than the polled slot need a relayer.
fn asks(needs: u64, slot: u8) -> bool
    ensures { result ≡ asks_for needs slot }
{
    bits::without(needs, usize::from(slot)) != 0
}

// Whose traffic the polled slot is best placed to forward; 63 for none.
fn source_for(s: Station, slot: u8) -> u8
    ensures { result ≡ source_for s slot }
{
    let v = reroute::survey(s);
    relay::relay_src_for(
        &s.hears,
        v.needs,
        v.able,
        &v.tried,
        slot,
        s.settings.relaysnr,
    )
}

fn poll_wait(w: Wait, slot: u8, relayfor: u8) -> Wait
    ensures { result ≡ poll_wait w slot relayfor }
{
    let deadline = w.deadline;
    let r = Reply {
        slot: slot,
        relayfor: relayfor,
        tries: 0,
        turnbursts: 0,
    };
    net::waiting(r, deadline)
}
