// Windows over a plan's run: which are taken, and the bound of demand 3.
#![tactic(auto)]

ghost use Rattle.std.specs.Prelude.{◌≡◌, ◌^◌, ◌≤◌, eqb};
ghost use Rattle.discrepancy.specs.Bound.{factor};
ghost use Rattle.window.specs.Counting.{is_cut, is_window};
ghost use Rattle.window.specs.Walking.{bound_by};

use points::PlanAxes;

// Whether u / q is a cut that the calls take: q from 1 to 2^24, u from 0 to q.
fn is_cut(u: u64, q: u64) -> bool
    ensures { result ≡ is_cut (record { u = u; q = q }) }
{
    if q < 1 {
        return false;
    }
    if 16777216 < q {
        return false;
    }
    u <= q
}

// Whether `w` has one u and one q for each axis, each in its range. A day set has one axis more than its plan.
pub fn is_window(w: &[u64], axes: usize) -> bool
    requires { axes ≤ 7 }
    ensures { result ≡ is_window w.now axes }
{
    if w.len() != 2 * axes {
        return false;
    }
    for i in 0..axes {
        if !is_cut(w[2 * i], w[2 * i + 1]) {
            return false;
        }
    }
    true
}

// One axis's factor of the bound: K (b - 1) + 1, K the number of digits of `n` in base `b`.
fn bound_factor(b: u64, n: u64) -> u64
    requires { (2 ≤ b) × (b ≤ 256) × (n ≤ 2 ^ 32) }
    ensures { result ≡ factor b n }
{
    numbers::digit_count(b, n) * (b - 1) + 1
}

// The bound of a run of `n` points: the product of the axes' factors, and 0 for Sobol, which claims none.
pub fn bound(p: PlanAxes, n: u64) -> u64
    requires { n ≤ 2 ^ 32 }
    ensures { result ≡ bound_by (eqb p.entry.family 2) p.entry.bases.now n p.entry.axes }
{
    if p.family == 2 {
        return 0;
    }
    let mut product = 1;
    for i in 0..p.axes {
        product = product * bound_factor(p.bases[i], n);
    }
    product
}
