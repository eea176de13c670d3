// Draws two axes of a plan's run. Its test exchanges the axes.
#![tactic(auto)]

fn main(rt: HostRuntime) {
    picture::plot(rt.stdin());
}
