// The test that a state is genuine, over its arrays in place: axis by axis, with no second state and no bytes.
#![tactic(auto)]

ghost use Rattle.std.specs.Prelude.{◌≡◌, true, ◌↔◌, ◌+◌, ◌<◌, ◌≤◌, length};
ghost use Rattle.fitting.specs.Fits.{ZeroFrom, CoprimeTo, FitBases, FitHalton, NewTo, FitAxes, FitSobol, FitPlan, FitRun, FitPoint, FitNext};
ghost use Rattle.points.specs.Arrays.{of_axis, Arrays, Within};
ghost use Rattle.points.specs.Run.{run_of};
ghost use Rattle.state.specs.State.{genuine};

use state::Sampler;

// Whether the words from place `from` on are 0.
pub fn is_zero(words: &[u64], from: usize) -> bool
    ensures { (result ≡ true) ↔ ZeroFrom from words.now }
{
    let mut x: u64 = 0;
    for i in from..words.len() {
        x = x | words[i];
    }
    x == 0
}

// ---- Halton plans

// Whether `b` is coprime to the first `n` bases.
fn is_coprime(b: u64, bases: &[u64], n: usize) -> bool
    requires { n ≤ length bases.now }
    ensures { (result ≡ true) ↔ CoprimeTo b bases.now n }
{
    for j in 0..n {
        if numbers::gcd(b, bases[j]) != 1 {
            return false;
        }
    }
    true
}

// Whether the first `n` bases are from 2 to 256 and coprime.
fn are_bases(bases: &[u64], n: usize) -> bool
    requires { n ≤ length bases.now }
    ensures { (result ≡ true) ↔ FitBases bases.now n }
{
    for i in 0..n {
        let b = bases[i];
        if b < 2 {
            return false;
        }
        if 256 < b {
            return false;
        }
        if !is_coprime(b, bases, i) {
            return false;
        }
    }
    true
}

// Whether the state's arrays are those of a Halton plan, of a family that is not Sobol's.
fn is_halton(s: &Sampler) -> bool
    requires { (s.now.axes ≤ 6) × (s.now.family ≡ 2 → ⊥) }
    ensures { (result ≡ true) ↔ FitHalton s.now.family s.now.axes s.now.bases s.now.polynomials s.now.directions }
{
    if 3 < s.family {
        return false;
    }
    if !are_bases(&s.bases, s.axes) {
        return false;
    }
    if !is_zero(&s.bases, s.axes) {
        return false;
    }
    if !is_zero(&s.polynomials, 0) {
        return false;
    }
    is_zero(&s.directions, 0)
}

// ---- Sobol plans

// Whether the polynomial at place `n` stands at none before it.
fn is_new(polynomials: &[u64], n: usize) -> bool
    requires { n < length polynomials.now }
    ensures { (result ≡ true) ↔ NewTo polynomials.now n n }
{
    let p = polynomials[n];
    for j in 0..n {
        if p == polynomials[j] {
            return false;
        }
    }
    true
}

// Whether the first `n` axes are of different polynomials, each with its direction numbers.
fn are_axes(polynomials: &[u64], directions: &[u64], n: usize) -> bool
    requires { (n ≤ 6) × (n ≤ length polynomials.now) × (length directions.now ≡ 192) }
    ensures { (result ≡ true) ↔ FitAxes polynomials.now directions.now n }
{
    for i in 0..n {
        if !is_new(polynomials, i) {
            return false;
        }
        let p = polynomials[i];
        let from = 32 * i;
        let to = from + 32;
        if !axis_test::is_axis(p, &directions[from..to]) {
            return false;
        }
    }
    true
}

// Whether the state's arrays are those of a Sobol plan.
fn is_sobol(s: &Sampler) -> bool
    requires { s.now.axes ≤ 6 }
    ensures { (result ≡ true) ↔ FitSobol s.now.axes s.now.bases s.now.polynomials s.now.directions }
{
    if !is_zero(&s.bases, 0) {
        return false;
    }
    if !is_zero(&s.polynomials, s.axes) {
        return false;
    }
    if !is_zero(&s.directions, 32 * s.axes) {
        return false;
    }
    are_axes(&s.polynomials, &s.directions, s.axes)
}

// ---- the whole

// Whether the state's arrays are those of a plan.
fn is_plan(s: &Sampler) -> bool
    requires { s.now.axes ≤ 6 }
    ensures { (result ≡ true) ↔ FitPlan s.now.family s.now.axes s.now.bases s.now.polynomials s.now.directions }
{
    if s.family == 2 {
        return is_sobol(s);
    }
    is_halton(s)
}

// Whether an opening takes the first `axes` starts, zeros follow, and no more points are taken than there are.
fn is_run(s: &Sampler) -> bool
    requires { s.now.axes ≤ 6 }
    ensures { (result ≡ true) ↔ FitRun s.now.family s.now.axes s.now.starts s.now.count s.now.taken }
{
    let axes = s.axes;
    if !points::all_in_range(&s.starts[..axes], s.count) {
        return false;
    }
    if !points::has_starts(s.family, axes, &s.starts[..axes]) {
        return false;
    }
    if !is_zero(&s.starts, axes) {
        return false;
    }
    s.taken <= s.count
}

// Whether the words of the next point are the point `taken` places after the first index of each axis.
fn is_point(s: &Sampler) -> bool
    requires { Arrays s.now.family s.now.axes s.now.bases s.now.directions × Within s.now.starts (s.now.taken + 1) }
    ensures { (result ≡ true) ↔ FitPoint s.now.family s.now.axes s.now.bases s.now.directions s.now.numerators (λ i. of_axis s.now.starts i + s.now.taken) }
{
    for axis in 0..s.axes {
        let n = s.starts[axis] + s.taken;
        if s.numerators[axis] != points::numerator(s.family, &s.bases, &s.directions, n, axis) {
            return false;
        }
    }
    is_zero(&s.numerators, s.axes)
}

// Whether the words of the next point are the run's next point, and 0 where none is left.
fn is_next(s: &Sampler) -> bool
    requires { Arrays s.now.family s.now.axes s.now.bases s.now.directions × Within s.now.starts s.now.count }
    ensures { (result ≡ true) ↔ FitNext s.now.family s.now.axes s.now.bases s.now.directions s.now.numerators
        (run_of s.now.starts s.now.count) s.now.taken }
{
    if s.taken < s.count {
        return is_point(s);
    }
    is_zero(&s.numerators, 0)
}

// Whether some accepted reading, with any accepted openings, steps and blocks after it, leaves the state. It is lent, since a state by value is a
// copy of 1.7 KiB.
pub fn is_genuine(s: &Sampler) -> bool
    ensures { result ≡ genuine s.now }
{
    if s.axes < 1 {
        return false;
    }
    if 6 < s.axes {
        return false;
    }
    if !is_run(s) {
        return false;
    }
    if !is_plan(s) {
        return false;
    }
    is_next(s)
}
