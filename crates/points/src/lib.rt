// The points of a plan held in arrays: by jump and by steps. And the runs that are opened.
#![tactic(auto)]

ghost use Rattle.std.specs.Prelude.{◌≡◌, ℕ, ◌+◌, ◌^◌, ◌<◌};
ghost use Rattle.points.specs.Arrays.{numerator_at, of_axis, denominator_at, BaseAt, AxisAt, Within};
ghost use Rattle.points.specs.Run.{run_of, indexes_at, start_in_range, in_range, same_starts, has_starts};
ghost use Rattle.points.specs.PlanAxes.{axes_point};

mod plan_axes;

pub use plan_axes::PlanAxes;

// ---- runs

// Whether start + count is at most 2^32.
pub fn in_range(start: u64, count: u64) -> bool
    ensures { result ≡ start_in_range start count }
{
    if numbers::INDEXES < start {
        return false;
    }
    count <= numbers::INDEXES - start
}

// Whether each start + count is at most 2^32.
pub fn all_in_range(starts: &[u64], count: u64) -> bool
    ensures { result ≡ in_range (run_of starts.now count) }
{
    for n in starts {
        if !in_range(*n, count) {
            return false;
        }
    }
    true
}

// Whether all starts are equal.
fn same_starts(starts: &[u64]) -> bool
    ensures { result ≡ same_starts starts.now }
{
    for n in starts {
        if *n != starts[0] {
            return false;
        }
    }
    true
}

// Whether there is one start for each axis, and the same one for all axes of a Sobol plan.
pub fn has_starts(family: u64, axes: usize, starts: &[u64]) -> bool
    ensures { result ≡ has_starts family axes starts.now }
{
    if starts.len() != axes {
        return false;
    }
    if family != 2 {
        return true;
    }
    same_starts(starts)
}

// The index that each axis reads at step `t`.
pub fn indexes(starts: &[u64], t: u64) -> [u64; 6]
    requires { Within starts.now t }
    ensures { (count : ℕ) → result ≡ indexes_at (run_of starts.now count) t }
{
    let mut ns = [0u64; 6];
    for i in 0..6 {
        ns[i] = starts[i] + t;
    }
    ns
}

// ---- points

// The numerator of index `n` on axis `i`, by a jump.
pub fn numerator<'a>(family: u64, bases: &'a [u64], directions: &'a [u64], n: u64, i: usize) -> u64
    requires { AxisAt family bases.now directions.now i × (n < 2 ^ 32) }
    ensures { result ≡ numerator_at family bases.now directions.now n i }
{
    if family == 2 {
        let from = 32 * i;
        let to = from + 32;
        return sobol::jump(&directions[from..to], n);
    }
    let x = halton::jump(family, bases[i], &[], n);
    x.numerator
}

// The numerator of index `n + 1` on axis `i`, by a step from that of index `n`, which is `x`.
fn next_numerator(family: u64, bases: &[u64], directions: &[u64], n: u64, i: usize, x: u64) -> u64
    requires { AxisAt family bases.now directions.now i × (n + 1 < 2 ^ 32) × (x ≡ numerator_at family bases.now directions.now n i) }
    ensures { result ≡ numerator_at family bases.now directions.now (n + 1) i }
{
    if family == 2 {
        let start = 32 * i;
        let end = start + 32;
        return sobol::step(&directions[start..end], n, x);
    }
    halton::step(family, bases[i], n, x)
}

// The denominator of axis `i`.
pub fn denominator(family: u64, bases: &[u64], i: usize) -> u64
    requires { BaseAt family bases.now i }
    ensures { result ≡ denominator_at family bases.now i }
{
    if family == 2 {
        return 4294967296;
    }
    numbers::denominator(bases[i])
}

// The point `t` places after the first index of each axis, by jumps.
pub fn point(p: PlanAxes, starts: &[u64], t: u64) -> [u64; 6]
    requires { Within starts.now (t + 1) }
    ensures { result ≡ axes_point p.entry (λ i. of_axis starts.now i + t) }
{
    let mut x = [0u64; 6];
    for i in 0..p.axes {
        let y = numerator(p.family, p.bases, p.directions, starts[i] + t, i);
        x[i] = y;
    }
    x
}

// The point `t + 1` places after the first index of each axis, by a step from that of `t` places, which is `x`.
pub fn advance(p: PlanAxes, starts: &[u64], t: u64, x: [u64; 6]) -> [u64; 6]
    requires { Within starts.now (t + 2) × (x ≡ axes_point p (λ i. of_axis starts.now i + t)) }
    ensures { result ≡ axes_point p.entry (λ i. of_axis starts.now i + t + 1) }
{
    let mut y = x;
    for i in 0..p.axes {
        let z = next_numerator(p.family, p.bases, p.directions, starts[i] + t, i, y[i]);
        y[i] = z;
    }
    y
}
