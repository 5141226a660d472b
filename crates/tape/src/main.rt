// The program of document 01, Words: a tape of words on standard input, result words on standard output.
#![tactic(auto)]

fn main(rt: HostRuntime) {
    driver::run(rt.stdin(), rt.stdout(), false, false);
}
