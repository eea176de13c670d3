// The calls that serve a run's points: one at a time, as many as fit, and one with the state stored in place.
#![tactic(auto)]

ghost use Rattle.std.specs.Prelude.{◌≡◌, ◌+◌, ◌/◌, ◌≤◌, min};
ghost use Rattle.columns.specs.Rows.{Columns};
ghost use Rattle.calls.specs.Calls.{blocked, step_spec, step_buf, block_spec, block_buf, rows_spec, row_numerator};

use calls::{Blocked, Moved};
use plan::refusal;
use points::PlanAxes;
use state::Sampler;

// Writes the run's next point to the front of `out`, and moves on by one.
pub fn step(s: Sampler, out: &mut [u64]) -> Moved
    ensures { (result ≡ step_spec s out.old) × (out.new ≡ step_buf s out.old) }
{
    if !genuine::is_genuine(&s) {
        return calls::refused(refusal::INVALID_STATE, s);
    }
    let axes = s.axes;
    if out.len() < axes {
        return calls::refused(refusal::BUFFER_TOO_SMALL, s);
    }
    if s.count <= s.taken {
        return calls::refused(refusal::EXHAUSTED, s);
    }
    let x = s.numerators;
    bits::store(out, 0, &x[..axes]);
    let p = PlanAxes {
        family: s.family,
        axes: s.axes,
        bases: &s.bases,
        directions: &s.directions,
    };
    let next = state::point_after(p, &s.starts, s.count, s.taken, x);
    let t = state::moved_on(s, s.taken + 1, next);
    Moved { code: 0, state: t }
}

// A block that is turned down: its number, no points, and the state as given.
fn no_block(code: u64, s: Sampler) -> Blocked
    ensures { result ≡ blocked code 0 s }
{
    Blocked {
        code,
        points: 0,
        state: s,
    }
}

// How many points a block takes: as many as are left and fit whole.
fn block_size(left: u64, room: usize, width: usize) -> usize
    requires { 1 ≤ width }
    ensures { result ≡ min left (room / width) }
{
    let whole = room / width;
    if left < (whole as u64) {
        left as usize
    } else {
        whole
    }
}

// Writes as many of the run's points as are left and fit whole, in rows that have `lead` words before each point, and moves on by that many. The
// words before a point stay as they are.
pub fn block_rows(s: Sampler, lead: usize, out: &mut [u64]) -> Blocked
    requires { lead ≤ 1 }
    ensures { (result ≡ rows_spec lead s out.old)
        × Columns (row_numerator s) 0 result.points (lead + s.axes) lead s.axes out.old out.new }
{
    if !genuine::is_genuine(&s) {
        return no_block(refusal::INVALID_STATE, s);
    }
    let axes = s.axes;
    let width = lead + axes;
    if out.len() < width {
        return no_block(refusal::BUFFER_TOO_SMALL, s);
    }
    if s.taken >= s.count {
        return no_block(refusal::EXHAUSTED, s);
    }
    let k = block_size(s.count - s.taken, out.len(), width);
    let ns = points::indexes(&s.starts, s.taken);
    let p = PlanAxes {
        family: s.family,
        axes: s.axes,
        bases: &s.bases,
        directions: &s.directions,
    };
    blocks::fill(out, lead, p, &ns, k);
    let taken = s.taken + (k as u64);
    let next = state::next_point(p, &s.starts, s.count, taken);
    let t = state::moved_on(s, taken, next);
    Blocked {
        code: 0,
        points: k as u64,
        state: t,
    }
}

// Writes as many of the run's points as are left and fit whole, and moves on by that many.
pub fn block(s: Sampler, out: &mut [u64]) -> Blocked
    ensures { (result ≡ block_spec s out.old) × (out.new ≡ block_buf s out.old) }
{
    block_rows(s, 0, out)
}

// Steps a sampler in place: the same as `step`, its state stored where the sampler is.
pub fn step_in_place(s: &mut Sampler, out: &mut [u64]) -> u64
    ensures { (result ≡ (step_spec s.old out.old).code)
        × (s.new ≡ (step_spec s.old out.old).state)
        × (out.new ≡ step_buf s.old out.old) }
{
    let r = step(*s, out);
    *s = r.state;
    r.code
}
