// The program `console` on an input that begins with a byte order mark, has carriage returns and ends without a newline.
#![tactic(auto)]

fn main(rt: HostRuntime) {
    console_io::serve(rt.stdin());
}
