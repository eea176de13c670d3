// A console for testers: a call a line, an answer a line.
#![tactic(auto)]

fn main(rt: HostRuntime) {
    console_io::serve(rt.stdin());
}
