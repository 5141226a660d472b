// A day of 20,000 calls with boats that come and go: admissions direct and overheard, pieces, polls, sign-offs. After each call it is checked what must hold of
// the slots that are free, of the count of silent boats and of the relays (request U3; the Rust has no signing off).
#![tactic(auto)]

mod act;
mod burst;
mod chance;
mod holds;
mod tell;

use act::Port;
use arrayvec::ArrayString;
use chance::Chance;
use std::fmt::Write;
use std::io;
use tell::Tally;

// The calls of the day, one after the other.
fn day() -> Tally {
    let mut port = Port::new();
    let mut tally = Tally::default();
    let mut chance = Chance(20261116);
    for i in 0..20000 {
        let drawn = chance.draw();
        let answer = port.call(drawn, act::time(i));
        tally.count(drawn.call, answer, &port.out);
        tally.hold(port.station.used);
        tally.judge(i, holds::check(port.station, act::freed(drawn, answer)));
    }
    tally
}

// The text has room for any tally. What cannot be written is dropped.
fn main(rt: HostRuntime) {
    let mut text = ArrayString::<1024>::new();
    let _ = write!(text, "{}", day());
    let _ = io::Write::write_all(&mut rt.stdout(), text.as_str().as_bytes());
}
