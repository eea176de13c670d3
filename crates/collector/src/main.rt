// A collector's main loop: one sampler, lent once, which each turn steps where it lies; each turn writes a line.
#![tactic(auto)]

ghost use Rattle.std.specs.Prelude.{◌≡◌};
ghost use Rattle.collector.specs.Serving.{ended, served, is_over};

use sampler::{Moved, Sampler, refusal};

const STDOUT_FILENO: i32 = 1;

// Writes a line: the number that a step answered, and the words of the point.
fn say(code: u64, point: &[u64]) {
    io::print_decimal(STDOUT_FILENO, code);
    io::write_all(STDOUT_FILENO, b":");
    for word in point {
        io::write_all(STDOUT_FILENO, b" ");
        io::print_decimal(STDOUT_FILENO, *word);
    }
    io::write_all(STDOUT_FILENO, b"\n");
}

// Steps the lent sampler in place, and says each step, until one answers another number than 0.
fn collect(s: &mut Sampler, point: &mut [u64]) -> u64
    ensures { ended result s.new point.new ≡ served s.old point.old }
{
    loop {
        let code = sampler::step_in_place(s, point);
        say(code, point);
        if code != 0 {
            return code;
        }
    }
}

// The sampler is a local of this function for as long as the loop runs.
fn keep(s: Sampler, point: &mut [u64]) -> Moved
    ensures { ended result.code result.state point.new ≡ served s point.old }
{
    let mut own = s;
    let code = collect(&mut own, point);
    Moved { code, state: own }
}

// How a day went: whether it is over, and the state.
#[derive(Clone, Copy)]
struct Day {
    over: bool,
    state: Sampler,
}

// Writes that the day is over, where it is.
fn tell(over: bool) {
    if over {
        io::write_all(STDOUT_FILENO, b"the day is over\n");
    }
}

// Serves what is left of a run, and says whether the day is over: at 12 alone. A buffer that is shorter than a point, 13, ends no day, and the state
// goes on from where it is once it has room.
fn serve_day(s: Sampler, point: &mut [u64]) -> Day
    ensures { (result.over ≡ is_over s point.old)
        × (result.state ≡ (served s point.old).state)
        × (point.new ≡ (served s point.old).words) }
{
    let r = keep(s, point);
    let state = r.state;
    let over = r.code == refusal::EXHAUSTED;
    tell(over);
    Day { over, state }
}

// Halton, bases 2 and 3, a run of four points: first lent too few words, then enough, and with no point left too few again.
fn main() {
    let r = sampler::read(&[16, 8, 16]);
    let o = sampler::open(r.state, &[0, 0], 4);
    let mut short = [0u64; 1];
    let a = serve_day(o.state, &mut short);
    let mut point = [0u64; 2];
    let b = serve_day(a.state, &mut point);
    serve_day(b.state, &mut short);
}
