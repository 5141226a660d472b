// The quay tender's boat set and the shore station, joined by a channel that makes frames lost ones and loses, repeats and reorders bursts: eight messages are
// posted, and the run goes on until all have landed and the sending end holds none. The channel's dice are seeded, so that each run is the same.
#![tactic(auto)]

mod boat;
mod channel;
mod message;
mod run;
mod shore;
mod tell;

use run::Run;
use std::io::Write;

// What cannot be written is dropped.
fn main(rt: HostRuntime) {
    let mut run = Run::new();
    run.whole();
    let _ = rt.stdout().write_all(run.shore.text.as_str().as_bytes());
}
