// Writing the axes of a plan into a buffer: the bases of a Halton plan, or the polynomials and m's of a Sobol plan.
#![tactic(auto)]

ghost use Rattle.std.specs.Prelude.{ℕ, ◌+◌, ◌*◌, ◌<◌, ◌≤◌, length, get_or, take, drop};
ghost use Rattle.binary.specs.Polynomial.{degree_of};
ghost use Rattle.plan.specs.Plan.{bases_bits, ms_bits, axis_bits, axes_bits};
ghost use Rattle.plan.specs.Answer.{axis_at, axes_of};
ghost use Rattle.axes_writer.specs.Parts.{BitsPut};

// The bases of `axes` Halton axes, from bit 5 on; gives the bit after them.
pub fn put_bases(out: &mut [u8], bases: &[u64], axes: usize) -> usize
    requires { (axes ≤ 6) × (axes ≤ length bases.now) × (53 ≤ 8 * length out.old) × ((k : ℕ) → k < axes → 1 ≤ get_or bases.now k 0) }
    ensures { BitsPut out.old out.new 5 (bases_bits (take axes bases.now)) result }
{
    for i in 0..axes {
        bits::put(out, 5 + 8 * i, 8, bases[i] - 1);
    }
    5 + 8 * axes
}

// `degree` m's of one axis, from place `from` of the list; gives the bit after them.
fn put_ms(out: &mut [u8], start: usize, ms: &[u64], from: usize, degree: usize) -> usize
    requires { (degree ≤ 12) × (from + degree ≤ length ms.now) × (start + 144 ≤ 8 * length out.old) × (start < 2000) }
    ensures { BitsPut out.old out.new start (ms_bits 1 (take degree (drop from ms.now))) result × (result ≤ start + 144) }
{
    let mut at = start;
    for i in 0..degree {
        bits::put(out, at, i + 1, ms[from + i]);
        at += i + 1;
    }
    at
}

// Axis `i` of the arrays, from bit `start` on; gives the bit after it.
fn put_axis(out: &mut [u8], start: usize, polynomials: &[u64], ms: &[u64], i: usize) -> usize
    requires { (i < 6) × (i < length polynomials.now) × (72 ≤ length ms.now) × (degree_of (get_or polynomials.now i 0) ≤ 12)
        × (start + 160 ≤ 8 * length out.old) × (start < 1900) }
    ensures { BitsPut out.old out.new start (axis_bits (axis_at polynomials.now ms.now i)) result × (result ≤ start + 160) }
{
    let p = polynomials[i];
    let d = sobol::degree(p);
    bits::put(out, start, 4, d as u64);
    let w = if d == 0 { 0 } else { d - 1 };
    bits::put(out, start + 4, w, p >> 1);
    put_ms(out, start + 4 + w, ms, 12 * i, d)
}

// `axes` Sobol axes, from bit 5 on; gives the bit after them.
pub fn put_axes(out: &mut [u8], polynomials: &[u64], ms: &[u64], axes: usize) -> usize
    requires { (axes ≤ 6) × (axes ≤ length polynomials.now) × (72 ≤ length ms.now) × (965 ≤ 8 * length out.old)
        × ((k : ℕ) → k < axes → degree_of (get_or polynomials.now k 0) ≤ 12) }
    ensures { BitsPut out.old out.new 5 (axes_bits (axes_of polynomials.now ms.now axes)) result × (result ≤ 965) }
{
    let mut at: usize = 5;
    for i in 0..axes {
        at = put_axis(out, at, polynomials, ms, i);
    }
    at
}
