// The sampler's state: made of a plan and a run, and moved on.
#![tactic(auto)]

ghost use Rattle.std.specs.Prelude.{◌≡◌, true, cond, ◌+◌, ◌*◌, ◌<◌, ◌≤◌, ltb, length, replicate};
ghost use Rattle.numbers.specs.Listed.{padded};
ghost use Rattle.plan.specs.Plan.{Valid, sobol};
ghost use Rattle.plan.specs.Answer.{axes_of, plan_answered, Accepted};
ghost use Rattle.points.specs.Arrays.{directions_in, directions_array, Within};
ghost use Rattle.points.specs.Run.{Run, run_of, one_start, index_at};
ghost use Rattle.points.specs.PlanAxes.{axes_point};
ghost use Rattle.state.specs.State.{plan_in, run_in, next_point, made, blank, genuine};

use plan::PlanRead;
use points::PlanAxes;

// A sampler: its plan, its run, and how many of the run's points are taken. `directions` has 32 words for each Sobol axis; `starts` is the index
// of the run's first point on each axis; `numerators` is the next point, and 0 where none is left. Entries that are not used are 0.
#[derive(Clone, Copy)]
pub struct Sampler {
    pub family: u64,
    pub axes: usize,
    pub bases: [u64; 6],
    pub polynomials: [u64; 6],
    pub directions: [u64; 192],
    pub starts: [u64; 6],
    pub count: u64,
    pub taken: u64,
    pub numerators: [u64; 6],
}

// The blank state, all zero: what a refused reading hands back.
pub fn blank_state() -> Sampler
    ensures { result ≡ blank }
{
    Sampler {
        family: 0,
        axes: 0,
        bases: [0; 6],
        polynomials: [0; 6],
        directions: [0; 192],
        starts: [0; 6],
        count: 0,
        taken: 0,
        numerators: [0; 6],
    }
}

// ---- a state of a plan and a run

// The direction numbers of the first `axes` axes, 32 words for each.
fn direction_table(axes: usize, polynomials: &[u64], ms: &[u64]) -> [u64; 192]
    requires { (axes ≤ 6) × (axes ≤ length polynomials.now) × (72 ≤ length ms.now) × Valid (sobol (axes_of polynomials.now ms.now axes)) }
    ensures { result ≡ padded 192 (directions_in (axes_of polynomials.now ms.now axes)) }
{
    let mut table = [0u64; 192];
    for i in 0..axes {
        let p = polynomials[i];
        let from = 12 * i;
        let to = from + 12;
        let v = sobol::direction_numbers(sobol::degree(p), p, &ms[from..to]);
        bits::store(&mut table, 32 * i, &v);
    }
    table
}

// The direction numbers of a plan that the reader accepted, zeros in a Halton plan.
pub fn plan_directions(a: PlanRead) -> [u64; 192]
    requires { Accepted a }
    ensures { result ≡ directions_array (plan_answered a) }
{
    if a.family != 2 {
        return [0; 192];
    }
    let polynomials = a.polynomials;
    let ms = a.ms;
    direction_table(a.axes, &polynomials, &ms)
}

// The point of step `taken`, and zeros where no point is left.
pub fn next_point(p: PlanAxes, starts: &[u64], count: u64, taken: u64) -> [u64; 6]
    requires { Within starts.now count }
    ensures { result ≡ cond (ltb taken count) (axes_point p.entry (λ i. index_at (run_of starts.now count) i taken)) (replicate 6 0) }
{
    if taken < count {
        return points::point(p, starts, taken);
    }
    [0; 6]
}

// The point after that of step `taken`, which is `x`, by a step, and zeros where none is left.
pub fn point_after(p: PlanAxes, starts: &[u64], count: u64, taken: u64, x: [u64; 6]) -> [u64; 6]
    requires { Within starts.now count × (taken < count) × (x ≡ axes_point p (λ i. index_at (run_of starts.now count) i taken)) }
    ensures { result ≡ cond (ltb (taken + 1) count) (axes_point p.entry (λ i. index_at (run_of starts.now count) i (taken + 1))) (replicate 6 0) }
{
    if taken + 1 < count {
        return points::advance(p, starts, taken, x);
    }
    [0; 6]
}

// The state with a plan that the reader accepted, and the run that starts at 0 on each axis and has no points.
pub fn make(a: PlanRead) -> Sampler
    requires { Accepted a }
    ensures { result ≡ made (plan_answered a) (one_start (plan_answered a) 0 0) 0 }
{
    let bases = a.bases;
    let polynomials = a.polynomials;
    let directions = plan_directions(a);
    Sampler {
        family: a.family,
        axes: a.axes,
        bases,
        polynomials,
        directions,
        starts: [0; 6],
        count: 0,
        taken: 0,
        numerators: [0; 6],
    }
}

// A genuine state with another run, none of whose points is taken, and its first point. The starts have zeros after them.
pub fn with_run(s: Sampler, starts: [u64; 6], count: u64, next: [u64; 6]) -> Sampler
    requires { genuine s ≡ true }
    ensures { (run : Run) → starts ≡ padded 6 run.starts → count ≡ run.count → next ≡ next_point (plan_in s) run 0
        → result ≡ made (plan_in s) run 0 }
{
    let mut t = s;
    t.starts = starts;
    t.count = count;
    t.taken = 0;
    t.numerators = next;
    t
}

// A genuine state with so many of its run's points taken, and the point that is next then.
pub fn moved_on(s: Sampler, taken: u64, next: [u64; 6]) -> Sampler
    requires { (genuine s ≡ true) × (next ≡ next_point (plan_in s) (run_in s) taken) }
    ensures { result ≡ made (plan_in s) (run_in s) taken }
{
    let mut moved = s;
    moved.taken = taken;
    moved.numerators = next;
    moved
}
