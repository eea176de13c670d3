// The calls that make and serve a day set. Each tests that the run starts at 0 on each axis, and leaves the other tests to its run twin.
#![tactic(auto)]

ghost use Rattle.std.specs.Prelude.{◌≡◌, ◌+◌, ◌*◌, ◌^◌, ◌<◌, ◌≤◌, length, set};
ghost use Rattle.columns.specs.Rows.{Column};
ghost use Rattle.plan.specs.Order.{unless_number};
ghost use Rattle.day_set.specs.Calls.{make_spec, day_jump_spec, day_jump_buf, day_step_spec, day_step_buf, day_block_spec, day_block_buf};

use calls::Jumped;
use day_set::{DayBlocked, DayMoved, DaySet};
use plan::refusal;
use state::Sampler;

// Makes the day set of `size` points of a state's plan, whatever the state's run.
pub fn make_day_set(s: Sampler, size: u64) -> DayMoved
    ensures { result ≡ make_spec s size }
{
    let zeros = [0u64; 6];
    let axes = s.axes.min(6);
    let r = plan_calls::open(s, &zeros[..axes], size);
    if r.code != 0 {
        return DayMoved {
            code: r.code,
            set: day_set::blank_day_set(),
        };
    }
    let opened = r.state;
    DayMoved {
        code: 0,
        set: DaySet { run: opened },
    }
}

// The index of point `n`, and one that is out of range where the set of `size` points has no such point.
fn index_of(n: u64, size: u64) -> u64
    ensures { (n < size → result ≡ n) × (size ≤ n → result ≡ 2 ^ 32) }
{
    if n < size { n } else { numbers::INDEXES }
}

// Puts a point's number into the first word, where the point was written behind it.
fn put_number(code: u64, n: u64, out: &mut [u64])
    requires { code ≡ 0 → 1 ≤ length out.old }
    ensures { out.new ≡ unless_number code (set out.old 0 n) out.old }
{
    if code != 0 {
        return;
    }
    out[0] = n;
}

// Writes point `n` to the front of `out`: n, and the plan's point of index n behind it.
pub fn day_jump(d: DaySet, n: u64, out: &mut [u64]) -> Jumped
    ensures { (result ≡ day_jump_spec d n out.old) × (out.new ≡ day_jump_buf d n out.old) }
{
    let s = d.run;
    if !day_set::from_zero(&s.starts) {
        return Jumped {
            code: refusal::INVALID_STATE,
        };
    }
    let index = index_of(n, s.count);
    let first = out.len().min(1);
    let r = index_calls::jump(s, index, &mut out[first..]);
    put_number(r.code, n, out);
    r
}

// Writes the next point to the front of `out`, and moves on by one.
pub fn day_step(d: DaySet, out: &mut [u64]) -> DayMoved
    ensures { (result ≡ day_step_spec d out.old) × (out.new ≡ day_step_buf d out.old) }
{
    let run = d.run;
    if !day_set::from_zero(&run.starts) {
        return DayMoved {
            code: refusal::INVALID_STATE,
            set: d,
        };
    }
    let next = run.taken;
    let first = out.len().min(1);
    let r = run_calls::step(run, &mut out[first..]);
    put_number(r.code, next, out);
    let stepped = r.state;
    DayMoved {
        code: r.code,
        set: DaySet { run: stepped },
    }
}

// Puts the numbers from `n` on into the first words of `k` rows, where the points of so many axes were written behind them.
fn put_numbers(code: u64, n: u64, k: usize, axes: usize, out: &mut [u64])
    requires { code ≡ 0 → (axes ≤ 6) × (k * (1 + axes) ≤ length out.old) × (n + k ≤ 2 ^ 32) }
    ensures { Column (◌+◌ n) 0 (unless_number code k 0) (1 + axes) 0 out.old out.new }
{
    if code != 0 {
        return;
    }
    columns::number(n, k, 1 + axes, out);
}

// Writes as many points as are left and fit whole, and moves on by that many.
pub fn day_block(d: DaySet, out: &mut [u64]) -> DayBlocked
    ensures { (result ≡ day_block_spec d out.old) × (out.new ≡ day_block_buf d out.old) }
{
    let s = d.run;
    if !day_set::from_zero(&s.starts) {
        return DayBlocked {
            code: refusal::INVALID_STATE,
            points: 0,
            set: d,
        };
    }
    let axes = s.axes;
    let first = s.taken;
    let r = run_calls::block_rows(s, 1, out);
    put_numbers(r.code, first, r.points as usize, axes, out);
    let filled = r.state;
    DayBlocked {
        code: r.code,
        points: r.points,
        set: DaySet { run: filled },
    }
}
