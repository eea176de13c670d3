// How many points of a plan's run are inside a window, walked axis by axis with a flag a point.
#![tactic(auto)]

ghost use Rattle.std.specs.Prelude.{◌≡◌, Bool, ℕ, ◌+◌, ◌*◌, ◌^◌, ◌<◌, ◌≤◌, length};
ghost use Rattle.numbers.specs.Count.{count};
ghost use Rattle.points.specs.Arrays.{numerator_from, of_axis, Within};
ghost use Rattle.marks.specs.Marking.{Marked};
ghost use Rattle.window.specs.Walking.{axes_inside, Room};
ghost use Rattle.inside_count.specs.Flagging.{cut_limit, Flags};

use points::PlanAxes;

// The least numerator over `d` that is not below the cut u / q: one division a cut saves a product a point.
pub fn cut_limit(u: u64, q: u64, d: u64) -> u64
    requires { (u ≤ 2 ^ 24) × (1 ≤ q) × (q ≤ 2 ^ 24) × (d < 2 ^ 40) }
    ensures { result ≡ cut_limit u q d }
{
    (u * d + (q - 1)) / q
}

// Clears the flags of those of the first `m` points from index `n` on that are not below `limit` on axis `i`.
fn mark_axis(p: PlanAxes, i: usize, n: u64, m: usize, limit: u64, l: &mut [u8])
    requires { (i < p.axes) × (n + m ≤ 2 ^ 32) × (m ≤ length l.old) }
    ensures { Marked (numerator_from p.entry.family p.entry.bases.now p.entry.directions.now n i) limit 0 m l.old l.new }
{
    if p.family == 2 {
        let first = 32 * i;
        let last = first + 32;
        sobol_marks::sobol_marks(&p.directions[first..last], n, m, limit, l);
        return;
    }
    halton_marks::halton_marks(p.family, p.bases[i], n, m, limit, l);
}

// How many of the first `m` flags are set.
fn total(l: &[u8], m: usize) -> u64
    requires { (m ≤ length l.now) × (m ≤ 4096) }
    ensures { (p : ℕ → Bool) → Flags p m l.now → result ≡ count p m }
{
    let mut t = 0;
    for flag in &l[..m] {
        t += *flag as u64;
    }
    t
}

// How many of the `m` points from the indexes `ns` on, one for each axis, are inside: each axis clears the flags of those outside it.
fn count_part(p: PlanAxes, ns: &[u64], m: usize, w: &[u64]) -> u64
    requires { Within ns.now m × (m ≤ 4096) × Room w.now p.axes }
    ensures { result ≡ count (axes_inside p.entry w.now (of_axis ns.now)) m }
{
    let mut l = [1u8; 4096];
    for i in 0..p.axes {
        let d = points::denominator(p.family, p.bases, i);
        let limit = cut_limit(w[2 * i], w[2 * i + 1], d);
        mark_axis(p, i, ns[i], m, limit, &mut l);
    }
    total(&l, m)
}

// How many of the `k` points from the indexes `ns` on, one for each axis, are inside.
pub fn count_inside(p: PlanAxes, ns: &[u64], k: usize, w: &[u64]) -> u64
    requires { Within ns.now k × Room w.now p.axes }
    ensures { result ≡ count (axes_inside p.entry w.now (of_axis ns.now)) k }
{
    let mut t = 0;
    let mut i = 0;
    while i < k {
        let end = k.min(i + 4096);
        let at = points::indexes(ns, i as u64);
        t = t + count_part(p, &at, end - i, w);
        i = end;
    }
    t
}
