// What a host gives at the start, and what each call gives back, in numbers and arrays.
// C reads the structs: a refusal, a flag and a level are numbers in them.
ghost use Rattle.std.specs.Prelude.{◌≡◌};
ghost use Rattle.net.specs.State.{queue_at};
ghost use Rattle.shore.specs.Calls.{given_of, done_of, told, told_heard, poorest_of, shown_of, month_of, checked_of, counts_of};

use super::block::{Block, Reading, Setup, Time};
use super::{pack, unpack};
use config::Given;
use dues::Bill;
use level::Level;
use net::Station;
use queue::Queue;
use refusal::Refusal;
use station::show::Entry;
use station::{Answered, Heard};
use stream::window;

// config::Given: the call of the net as five packed bytes, how long a burst of n frames of data takes at a level (at 64 * level + n - 1), the
// largest payload of each level. `call`, `rooms` and `payloads` of `settings` are not looked at.
#[repr(C)]
#[derive(Clone, Copy)]
pub struct Plan {
    pub settings: Setup,
    pub times: [f64; 1088],
    pub call: [u8; 5],
    pub payloads: [u8; 17],
}

// The block to go on with, a refusal's number (0 for none), how many words were written, and of a reception the pieces not kept.
#[repr(C)]
#[derive(Clone, Copy)]
pub struct Done {
    pub block: Block,
    pub words: usize,
    pub mask: u64,
    pub refusal: u8,
}

// Where a landed message stands in the store.
#[repr(C)]
#[derive(Clone, Copy)]
pub struct Part {
    pub offset: usize,
    pub length: usize,
    pub refusal: u8,
}

// The lowest of a boat's levels, or why there is none.
#[repr(C)]
#[derive(Clone, Copy)]
pub struct Poorest {
    pub level: Reading,
    pub refusal: u8,
}

// station::show::Entry.
#[repr(C)]
#[derive(Clone, Copy)]
pub struct Shown {
    pub lastheard: Time,
    pub snrup: Reading,
    pub snrdown: Reading,
    pub cap: u32,
    pub missed: u32,
    pub bytesin: u32,
    pub here: u8,
    pub call: [u8; 7],
    pub via: u8,
    pub hascaps: u8,
    pub caps: u8,
    pub hasversion: u8,
    pub version: u8,
}

// The numbers of the boat in a slot. next: its first message that has not landed; bitmap: which of the eight after it have; burst: the number of the burst
// that it is polled with; posted, kept, reported: of the bytes posted to it how many there were, the first that is still kept, how many it reported.
#[repr(C)]
#[derive(Clone, Copy)]
pub struct Counts {
    pub next: u32,
    pub posted: u32,
    pub kept: u32,
    pub reported: u32,
    pub bitmap: u8,
    pub burst: u8,
}

// dues::Bill, or why there is none.
#[repr(C)]
#[derive(Clone, Copy)]
pub struct Month {
    pub takings: u64,
    pub charges: [u32; 62],
    pub credits: [u32; 62],
    pub refusal: u8,
}

// Why a log is sent back, or whether it is accepted.
#[repr(C)]
#[derive(Clone, Copy)]
pub struct Checked {
    pub refusal: u8,
    pub accepted: u8,
}

pub fn given_of(p: Plan) -> Given
    ensures { result ≡ given_of p }
{
    let settings = p.settings;
    let call = p.call;
    let times = p.times;
    let payloads = p.payloads;
    Given {
        settings: unpack::settings_of(settings),
        call: call,
        times: times,
        payloads: payloads,
    }
}

fn done_of(s: Station, a: Result<usize, Refusal>, mask: u64) -> Done
    ensures { result ≡ done_of s a mask }
{
    let block = pack::block_of(s);
    match a {
        Ok(n) => Done {
            block: block,
            words: n,
            mask: mask,
            refusal: 0,
        },
        Err(r) => Done {
            block: block,
            words: 0,
            mask: mask,
            refusal: u8::from(r),
        },
    }
}

pub fn told(x: Answered) -> Done
    ensures { result ≡ told x }
{
    let s = x.station;
    let a = x.answer;
    done_of(s, a, 0)
}

pub fn told_heard(x: Heard) -> Done
    ensures { result ≡ told_heard x }
{
    let s = x.station;
    let a = x.answer;
    done_of(s, a, x.mask)
}

pub fn poorest_of(x: Result<Level, Refusal>) -> Poorest
    ensures { result ≡ poorest_of x }
{
    match x {
        Ok(l) => Poorest {
            level: pack::reading_of(l),
            refusal: 0,
        },
        Err(r) => Poorest {
            level: pack::reading_of(Level::Unheard),
            refusal: u8::from(r),
        },
    }
}

pub fn shown_of(e: Entry) -> Shown
    ensures { result ≡ shown_of e }
{
    let call = e.call;
    let up = e.snrup;
    let down = e.snrdown;
    let heard = e.lastheard;
    Shown {
        lastheard: pack::time_of(heard),
        snrup: pack::reading_of(up),
        snrdown: pack::reading_of(down),
        cap: e.cap,
        missed: e.missed,
        bytesin: e.bytesin,
        here: u8::from(e.here),
        call: call,
        via: e.via,
        hascaps: u8::from(e.hascaps),
        caps: e.caps,
        hasversion: u8::from(e.hasversion),
        version: e.version,
    }
}

fn queue_at(s: Station, slot: u8) -> Queue
    ensures { result ≡ queue_at s slot }
{
    let qs = s.queues;
    let i = net::index(slot);
    qs[i]
}

pub fn counts_of(s: Station, slot: u8) -> Counts
    ensures { result ≡ counts_of s slot }
{
    let m = net::member_at(s, slot);
    let w = m.up;
    let q = queue_at(s, slot);
    Counts {
        next: w.next,
        posted: q.posted,
        kept: q.kept,
        reported: q.reported,
        bitmap: window::bitmap(w),
        burst: m.burst,
    }
}

pub fn month_of(answer: Result<Bill, Refusal>) -> Month
    ensures { result ≡ month_of answer }
{
    match answer {
        Ok(b) => {
            let charges = b.charges;
            let credits = b.credits;
            Month {
                takings: b.takings,
                charges,
                credits,
                refusal: 0,
            }
        }
        Err(r) => {
            let none = [0u32; 62];
            Month {
                takings: 0,
                charges: none,
                credits: none,
                refusal: u8::from(r),
            }
        }
    }
}

pub fn checked_of(answer: Result<bool, Refusal>) -> Checked
    ensures { result ≡ checked_of answer }
{
    match answer {
        Ok(accepted) => Checked {
            refusal: 0,
            accepted: u8::from(accepted),
        },
        Err(r) => Checked {
            refusal: u8::from(r),
            accepted: 0,
        },
    }
}
