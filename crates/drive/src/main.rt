// The test program beside `tape`: every entry point, every setting and every refusal can be reached from a script of words.
#![tactic(auto)]

fn main(rt: HostRuntime) {
    driver::run(rt.stdin(), rt.stdout(), true, false);
}
