// What no script of words reaches: small memories, NaN, the last numbers; and the two tie rules. Run and printed.
#![tactic(auto)]

mod burst;
mod count;
mod refused;
mod slip;
mod trial;

use std::fmt;
use std::io::Write;
use trial::Trial;

fn refusals(trial: &mut Trial) -> fmt::Result {
    refused::short(trial)?;
    refused::output(trial)?;
    refused::store(trial)?;
    refused::queue(trial)?;
    refused::clock(trial)?;
    refused::level(trial)
}

fn cases(trial: &mut Trial) -> fmt::Result {
    refusals(trial)?;
    count::numbers(trial)?;
    count::claims(trial)?;
    count::counters(trial)?;
    slip::ties(trial)
}

// There is room for every line. What cannot be written is dropped.
fn main(rt: HostRuntime) {
    let mut trial = Trial::new();
    let _ = cases(&mut trial);
    let _ = rt.stdout().write_all(trial.text.as_str().as_bytes());
}
