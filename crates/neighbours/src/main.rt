// Two neighbouring collectors on one plan: axis 1 picks the second to wake at, axis 2 the meter to call and axis 3 the channel. With one start both
// wake at the same second every time. So the neighbour starts on axis 1 where the first one's run ends: no index of that axis is read by both, and
// their seconds together are those of one run of 2,000 steps, spread as evenly. Axes 2 and 3 keep their start: each collector has meters of its own,
// and channels meet only where seconds do.
#![tactic(auto)]

ghost use Rattle.std.specs.Prelude.{◌<◌};

use sampler::Sampler;

const STDOUT_FILENO: i32 = 1;

// The steps of a run.
const STEPS: u64 = 1000;

// Writes a text and a number.
fn say(text: &[u8], n: u64) {
    io::write_all(STDOUT_FILENO, text);
    io::print_decimal(STDOUT_FILENO, n);
}

// A run of the plan; a refusal is written.
fn opened(s: Sampler, starts: &[u64]) -> Sampler {
    let r = sampler::open(s, starts, STEPS);
    if r.code != 0 {
        say(b"refused ", r.code);
        io::write_all(STDOUT_FILENO, b"\n");
    }
    r.state
}

// The slot that the next step picks on an axis, the first being 0: that of the index which this axis reads then, its start plus the steps taken.
fn slot(s: Sampler, axis: usize, slots: u64) -> u64
    requires { axis < 6 }
{
    let starts = s.starts;
    let index = std::num::wrapping_add_u64(starts[axis], s.taken);
    let r = sampler::slot(s, index, axis as u64 + 1, slots);
    r.slot
}

// The second to wake at, of a day of 86,400.
fn second(s: Sampler) -> u64 {
    slot(s, 0, 86400)
}

// Writes the next call of a collector.
fn say_call(name: &[u8], s: Sampler) {
    say(name, second(s));
    say(b", meter ", slot(s, 1, 250));
    say(b" on channel ", slot(s, 2, 8));
}

// The state after a step.
fn stepped(s: Sampler) -> Sampler {
    let mut point = [0u64; 3];
    let r = sampler::step(s, &mut point);
    r.state
}

// Writes the next calls of both collectors.
fn say_step(t: u64, first: Sampler, neighbour: Sampler) {
    say(b"step ", t);
    say_call(b": second ", first);
    say_call(b"; the neighbour: second ", neighbour);
    io::write_all(STDOUT_FILENO, b"\n");
}

// At how many steps of their runs both collectors wake at the same second. The first so many steps are written.
fn together(first: Sampler, neighbour: Sampler, shown: u64) -> u64 {
    let mut a = first;
    let mut b = neighbour;
    let mut met = 0;
    for t in 0..STEPS {
        if t < shown {
            say_step(t, a, b);
        }
        if second(a) == second(b) {
            met += 1;
        }
        a = stepped(a);
        b = stepped(b);
    }
    met
}

// Writes at how many steps of their runs both wake at the same second.
fn say_together(label: &[u8], met: u64) {
    io::write_all(STDOUT_FILENO, label);
    say(b": at the same second at ", met);
    say(b" of ", STEPS);
    io::write_all(STDOUT_FILENO, b" steps\n");
}

// The permuted Halton sequence, bases 2, 3 and 5.
fn main() {
    let r = sampler::read(&[88, 8, 16, 32]);
    let first = opened(r.state, &[0, 0, 0]);
    let neighbour = opened(r.state, &[STEPS, 0, 0]);
    let one = together(first, first, 0);
    let own = together(first, neighbour, 8);
    say_together(b"one start", one);
    say_together(b"a start of its own on axis 1", own);
}
