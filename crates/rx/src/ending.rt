// Reception, the end (ncs_rx of ncs.rs): the deadline that moves, a K_IDLE, the reply to a poll.
ghost use Rattle.std.specs.Prelude.{◌≡◌, ◌+◌, ◌%◌};
ghost use Rattle.out.specs.Outputs.{Writes};
ghost use Rattle.rx.specs.Ending.{is_aside, is_busy, postponed, busy_wait, goes_on, names, is_reply, idle_member, reply_member, ack_extra};
ghost use Rattle.rx.specs.Code.Ending.{no_reply, awaited_of, is_awaited, ends, is_answer, no_ending, idle_ending, reply_ending, replied_by, ending_by, end_member, end_recent, end_source, end_wait, end_totals, end_level, end_words};

use frames::{Air, Rx};
use net::{Reply, Settings, Totals, Turn, Wait};
use out::Output;
use recent::Recent;
use roster::{Member, relay};
use words::Head;

pub fn is_aside(h: Head) -> bool
    ensures { result ≡ is_aside h }
{
    (h.code != wire::TINY) & (wire::ASIDE <= h.hi)
}

// The deadline moves while the relay that was polled is busy.
pub fn busy_wait(w: Wait, h: Head, g: Settings, time: f64) -> Wait
    ensures { result ≡ busy_wait w h g time }
{
    if is_busy(h) {
        return postponed(w, time + net::leaf_wait(g));
    }
    w
}

// The relay that was polled is busy with its leaves: an aside burst, K_SUBPOLL or K_SUBACK.
fn is_busy(h: Head) -> bool
    ensures { result ≡ is_busy h }
{
    is_aside(h) | ((h.code == wire::TINY) & ((h.hi == wire::K_SUBPOLL) | (h.hi == wire::K_SUBACK)))
}

fn postponed(w: Wait, at: f64) -> Wait
    ensures { result ≡ postponed w.turn w at }
{
    let turn = w.turn;
    match turn {
        Turn::Waiting(r) => net::waiting(r, Some(at)),
        Turn::Sending => w,
        Turn::Idle => w,
    }
}

#[derive(Clone, Copy)]
pub enum Kind {
    Other,
    // K_IDLE
    Idle,
    // the reply to a poll
    Answer,
}

// What a burst is at its end. slot: the boat it is from; over: the turn that `reply` waited in ends; more: it goes on.
#[derive(Clone, Copy)]
pub struct Ending {
    pub kind: Kind,
    pub slot: u8,
    pub over: bool,
    pub more: bool,
    pub reply: Reply,
}

// The reply that is waited for.
fn awaited_by(w: Wait) -> Option<Reply>
    ensures { result ≡ awaited_of w.turn }
{
    match w.turn {
        Turn::Waiting(r) => Some(r),
        Turn::Sending => None,
        Turn::Idle => None,
    }
}

// The reply that is waited for is one from the slot.
fn is_awaited(w: Option<Reply>, slot: u8) -> bool
    ensures { result ≡ is_awaited w slot }
{
    w.is_some_and(|r| r.slot == slot)
}

fn ends(kind: Kind) -> bool
    ensures { result ≡ ends kind }
{
    !matches!(kind, Kind::Other)
}

fn is_answer(kind: Kind) -> bool
    ensures { result ≡ is_answer kind }
{
    matches!(kind, Kind::Answer)
}

fn no_reply() -> Reply
    ensures { result ≡ no_reply }
{
    Reply {
        slot: 255,
        relayfor: wire::ALL,
        tries: 0,
        turnbursts: 0,
    }
}

pub fn ending_of(w: Wait, x: Rx, h: Head) -> Ending
    ensures { result ≡ ending_by (awaited_of w.turn) x.sender x.more h }
{
    let a = awaited_by(w);
    if h.code == wire::TINY {
        if h.hi == wire::K_IDLE {
            return idle_ending(a, h);
        }
        return no_ending();
    }
    match a {
        Some(r) => replied(r, x, h),
        None => no_ending(),
    }
}

fn replied(r: Reply, x: Rx, h: Head) -> Ending
    ensures { result ≡ replied_by r x.sender x.more h }
{
    if is_reply(h, x.sender, r) {
        return reply_ending(r, goes_on(h, x.more, r));
    }
    no_ending()
}

// A reply needs a code of the ladder, and that the last report, if any, names the boat that was polled.
fn is_reply(h: Head, sender: Option<u8>, r: Reply) -> bool
    ensures { result ≡ is_reply h sender r }
{
    !is_aside(h) & (h.code < 17) & names(sender, r.slot)
}

// The last report, if any, names the slot.
fn names(sender: Option<u8>, slot: u8) -> bool
    ensures { result ≡ names sender slot }
{
    sender.is_none_or(|x| x == slot)
}

// More to come, and the turn has bursts left.
fn goes_on(h: Head, more: bool, r: Reply) -> bool
    ensures { result ≡ goes_on h more r }
{
    ((h.hi / 4 % 2 == 1) | more) & (r.turnbursts < 3)
}

// K_IDLE from the polled boat ends the turn.
fn idle_ending(w: Option<Reply>, h: Head) -> Ending
    ensures { result ≡ idle_ending w h }
{
    let slot = (h.extra % 64) as u8;
    Ending {
        kind: Kind::Idle,
        slot: slot,
        over: is_awaited(w, slot),
        more: false,
        reply: w.unwrap_or(no_reply()),
    }
}

fn reply_ending(r: Reply, more: bool) -> Ending
    ensures { result ≡ reply_ending r more }
{
    Ending {
        kind: Kind::Answer,
        slot: r.slot,
        over: !more,
        more: more,
        reply: r,
    }
}

// Neither a K_IDLE nor a reply.
fn no_ending() -> Ending
    ensures { result ≡ no_ending }
{
    let r = no_reply();
    Ending {
        kind: Kind::Other,
        slot: 255,
        over: false,
        more: false,
        reply: r,
    }
}

pub fn end_member(m: Member, e: Ending, here: bool, h: Head, a: Air) -> Member
    ensures { result ≡ end_member m e here h a }
{
    if !here {
        return m;
    }
    match e.kind {
        Kind::Other => m,
        Kind::Idle => idle_member(m, h.extra, a),
        Kind::Answer => reply_member(m, h.hi, a),
    }
}

// The burst's own level is one more reading of the boat that it is from.
pub fn end_recent(r: Recent, e: Ending, here: bool, a: Air) -> Recent
    ensures { result ≡ end_recent r e here a }
{
    if ends(e.kind) & here {
        return recent::noted(r, a.level);
    }
    r
}

fn idle_member(m: Member, extra: u32, a: Air) -> Member
    ensures { result ≡ idle_member a extra m }
{
    let down = wire::snr_from_q((extra / 64 % 64) as u8);
    let mut k = roster::received(m, a.level, down, a.time);
    k.missed = 0;
    if m.via != wire::ALL {
        return roster::with_direct(k, a.level);
    }
    k
}

fn reply_member(m: Member, hi: u32, a: Air) -> Member
    ensures { result ≡ reply_member a (hi % 4) m }
{
    let down = m.snrdown;
    let mut k = roster::received(m, a.level, down, a.time);
    k.missed = 0;
    k.burst = next_burst(hi);
    k
}

fn next_burst(hi: u32) -> u8
    ensures { result ≡ (hi % 4 + 1) % 4 }
{
    ((hi % 4 + 1) % 4) as u8
}

// turn_over, where the turn ends and was to forward a member's traffic.
pub fn end_source(hears: &[u8; 3844], used: u64, m: Member, e: Ending, source: u8) -> Member
    ensures { result ≡ end_source hears.now used m e source }
{
    if e.over & net::is_member(used, source) {
        return relay::turn_over(hears, used, m, source, e.slot);
    }
    m
}

// More is pending and the turn has bursts left: polled again with the acknowledgement. Otherwise the turn ends with it.
pub fn end_wait(w: Wait, e: Ending) -> Wait
    ensures { result ≡ end_wait w e }
{
    let r = e.reply;
    if e.more {
        let q = Reply {
            slot: r.slot,
            relayfor: r.relayfor,
            tries: 0,
            turnbursts: r.turnbursts % 4 + 1,
        };
        return net::waiting(q, None);
    }
    if is_answer(e.kind) {
        return Wait {
            turn: Turn::Sending,
            deadline: None,
        };
    }
    if e.over {
        return net::idle();
    }
    w
}

pub fn end_totals(t: Totals, e: Ending, before: bool, after: bool) -> Totals
    ensures { result ≡ end_totals t e before after }
{
    let mut k = t;
    k.silent = roster::tally(t.silent, before, after);
    if is_answer(e.kind) | e.over {
        k.replies = bits::one_more(t.replies);
    }
    k
}

// K_POLLACK where the turn goes on, else K_ACK, after the events.
pub fn put_end(o: &mut Output, e: Ending, h: Head, heard: u64, lev: u32)
    ensures { Writes o.old (end_words e h heard lev) o.new }
{
    if !is_answer(e.kind) {
        return;
    }
    let kind = if e.more { wire::K_POLLACK } else { wire::K_ACK };
    o.tiny(kind, ack_extra(e.slot, h.hi, heard), lev);
}

pub fn ack_level(g: Settings, m: Member, here: bool) -> u32
    ensures { result ≡ end_level g m here }
{
    if here {
        let down = m.snrdown;
        return net::level_for(g, down);
    }
    0
}

// slot + 64 * burst + 256 * bitmap, which covers the first six frames.
fn ack_extra(slot: u8, hi: u32, heard: u64) -> u32
    ensures { result ≡ ack_extra slot (hi % 4) heard }
{
    u32::from(slot) % 64 + 64 * (hi % 4) + 256 * (heard % 64) as u32
}
