// The calls on a plan: reading it, writing it, and opening a run of it.
#![tactic(auto)]

ghost use Rattle.std.specs.Prelude.{◌≡◌, ◌≤◌, length};
ghost use Rattle.numbers.specs.Listed.{padded};
ghost use Rattle.points.specs.Run.{run_of};
ghost use Rattle.state.specs.State.{ms_in};
ghost use Rattle.calls.specs.Calls.{read_spec, write_spec, write_buf, open_spec};

use calls::Moved;
use plan::refusal;
use points::PlanAxes;
use state::Sampler;
use writer::PlanWritten;

// Reads a plan: the state with start 0 and count 0, or the blank state.
pub fn read(bytes: &[u8]) -> Moved
    ensures { result ≡ read_spec bytes.now }
{
    let a = reader::read_plan(bytes);
    if a.code != 0 {
        let s = state::blank_state();
        return Moved {
            code: a.code,
            state: s,
        };
    }
    let s = state::make(a);
    Moved { code: 0, state: s }
}

// The given m's of each axis, by its direction numbers.
fn ms_of(directions: &[u64]) -> [u64; 72]
    requires { length directions.now ≡ 192 }
    ensures { result ≡ ms_in directions.now }
{
    let mut ms = [0u64; 72];
    for k in 0..72 {
        let m = directions[32 * (k / 12) + k % 12] >> (31 - k % 12);
        ms[k] = m;
    }
    ms
}

// Writes the plan's bytes to the front of `out` and reports their number.
pub fn write(s: Sampler, out: &mut [u8]) -> PlanWritten
    ensures { (result ≡ write_spec s out.old) × (out.new ≡ write_buf s out.old) }
{
    if !genuine::is_genuine(&s) {
        return PlanWritten {
            code: refusal::INVALID_STATE,
            len: 0,
        };
    }
    let ms = ms_of(&s.directions);
    writer::write_plan(out, s.family, s.axes, &s.bases, &s.polynomials, &ms)
}

// The starts, one for each axis, with zeros after them.
fn six_starts(starts: &[u64]) -> [u64; 6]
    requires { length starts.now ≤ 6 }
    ensures { result ≡ padded 6 starts.now }
{
    let mut six = [0u64; 6];
    bits::store(&mut six, 0, starts);
    six
}

// Opens a run, which replaces the old one, with a start for each axis.
pub fn open(s: Sampler, starts: &[u64], count: u64) -> Moved
    ensures { result ≡ open_spec s (run_of starts.now count) }
{
    if !genuine::is_genuine(&s) {
        return calls::refused(refusal::INVALID_STATE, s);
    }
    if !points::all_in_range(starts, count) {
        return calls::refused(refusal::OUT_OF_RANGE, s);
    }
    if !points::has_starts(s.family, s.axes, starts) {
        return calls::refused(refusal::SPLIT_START, s);
    }
    let six = six_starts(starts);
    let p = PlanAxes {
        family: s.family,
        axes: s.axes,
        bases: &s.bases,
        directions: &s.directions,
    };
    let next = state::next_point(p, &six, count, 0);
    let t = state::with_run(s, six, count, next);
    Moved { code: 0, state: t }
}
