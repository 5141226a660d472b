// `drive` with questions of its own (command 15), answered in plain words: what the Rust has not.
#![tactic(auto)]

fn main(rt: HostRuntime) {
    driver::run(rt.stdin(), rt.stdout(), true, true);
}
