// The last message number, and counters that stop.
use crate::burst;
use crate::trial::Trial;
use net::Station;
use station::Heard;
use std::fmt;

// The boat in slot 0 has handed over every number below next.
fn at_number(mut s: Station, next: u32) -> Station {
    s.members[0].up.next = next;
    s
}

// A piece of the boat's next message is received.
fn piece(trial: &mut Trial, s: Station, next: u32, payload: &[u8]) -> Heard {
    let burst = burst::piece(next, payload);
    station::receive(
        at_number(s, next),
        &burst,
        0.0,
        1.0,
        &mut trial.store,
        &mut trial.out,
    )
}

fn with_boat(trial: &mut Trial) -> Station {
    burst::with_boat(burst::fresh(&trial.store), 1, &mut trial.out)
}

// Three bytes of which the first two say a length of 1.
pub fn numbers(trial: &mut Trial) -> fmt::Result {
    let s = with_boat(trial);
    for next in [4294967039, 4294967040] {
        let r = piece(trial, s, next, &[1, 0, 7]);
        trial.number("message of number", u64::from(next))?;
        trial.number("  pieces not kept, as a mask", r.mask)?;
        let lowest = r.station.members[0].up.next;
        trial.number("  lowest number not handed over", u64::from(lowest))?;
    }
    Ok(())
}

// A length of 2,047 shown with the first number that is too high: the number limit comes first, and nothing is barred (request U4).
pub fn claims(trial: &mut Trial) -> fmt::Result {
    let s = with_boat(trial);
    let r = piece(trial, s, 4294967040, &[255, 7]);
    trial.number("a length of 2,047 there: not kept, as a mask", r.mask)?;
    let barred = r.station.members[0].up.barlow;
    trial.number("  barred from there on, as a mask", barred)
}

// Every counter at its end, and no beacon due for long.
fn at_the_end(mut s: Station) -> Station {
    s.members[0].missed = u32::MAX;
    s.members[0].bytesin = u32::MAX;
    s.totals.polls = u32::MAX;
    s.totals.relays = u32::MAX;
    s.totals.rxlists = u32::MAX;
    s.totals.rounds = u32::MAX;
    s.totals.replies = u32::MAX;
    s.round.number = u32::MAX;
    s.round.nextbeacon = 1000.0;
    s
}

// The list of members is sent, then the boat is polled, then its time is over.
pub fn counters(trial: &mut Trial) -> fmt::Result {
    let mut s = at_the_end(with_boat(trial));
    for time in [200.0, 300.0, 400.0] {
        s = burst::turned(s, time, &mut trial.out);
    }
    let missed = s.members[0].missed;
    trial.number("missed polls after one more", u64::from(missed))?;
    trial.number("polls after one more", u64::from(s.totals.polls))?;
    trial.number("rounds after one more", u64::from(s.totals.rounds))?;
    trial.number("round number after 4294967295", u64::from(s.round.number))
}
