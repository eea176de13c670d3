// The program `walk`. Its test is R5's plan.
#![tactic(auto)]

fn main(rt: HostRuntime) {
    walk_io::walk(rt.stdin());
}
