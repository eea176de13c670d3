// Reading the axes of a Sobol plan: the fields in their order, and the first refusal that holds.
#![tactic(auto)]

ghost use Rattle.std.specs.Prelude.{◌≡◌, List, [], ℕ, ◌+◌, ◌-◌, ◌*◌, ◌<◌, ◌≤◌, length, drop, MatchResult};
ghost use Rattle.binary.specs.Polynomial.{Degree};
ghost use Rattle.bits.specs.Stream.{bits_of};
ghost use Rattle.plan.specs.Reading.{refuse, polynomial_of, not_primitive, is_repeated, read_ms, read_axis, read_axes};
ghost use Rattle.plan.specs.RefusalNumbers.{number_of};
ghost use Rattle.plan.specs.Answer.{axes_of};
ghost use Rattle.sobol_reader.specs.Axes.{MsAnswer, AxisAnswer, AxesAnswer};

use plan::refusal::Refusal;

// The m's of an axis, 0 in the places that it does not use, and the bit after them.
#[derive(Clone, Copy)]
struct MsRead {
    at: usize,
    ms: [u64; 12],
}

// m_1 to m_`degree`, from bit `start` on, m_i in i bits.
fn read_ms(bytes: &[u8], start: usize, degree: usize) -> Result<MsRead, Refusal>
    requires { (start ≤ 8 * length bytes.now) × (degree ≤ 12) × (start < 2048) }
    ensures { MatchResult result
        (λ m. MsAnswer bytes.now start degree m.at m.ms)
        (λ e. read_ms degree 1 [] (drop start (bits_of bytes.now)) ≡ refuse (number_of e)) }
{
    let mut ms = [0u64; 12];
    let mut at: usize = start;
    for i in 0..degree {
        if bits::is_short(bytes, at, i + 1) {
            return Err(Refusal::Truncated);
        }
        let m = bits::field(bytes, at, i + 1);
        if m & 1 == 0 {
            return Err(Refusal::EvenNumber);
        }
        ms[i] = m;
        at += i + 1;
    }
    Ok(MsRead { at, ms })
}

// Whether `p` is one of the first `n` polynomials.
fn is_repeated(p: u64, polynomials: &[u64], n: usize) -> bool
    requires { n ≤ length polynomials.now }
    ensures { (ms : List ℕ) → result ≡ is_repeated p (axes_of polynomials.now ms n) }
{
    for q in &polynomials[..n] {
        if p == *q {
            return true;
        }
    }
    false
}

// How many coefficients a polynomial of degree `d` has between its ends.
fn coefficient_count(d: u64) -> usize
    requires { d ≤ 12 }
    ensures { result ≡ d - 1 }
{
    if d == 0 { 0 } else { (d - 1) as usize }
}

// The polynomial of degree `d` with the coefficients `a` between its ends.
fn polynomial(d: u64, a: u64) -> u64
    requires { (d ≤ 12) × (a < 4096) }
    ensures { result ≡ polynomial_of d a }
{
    if d == 0 { 1 } else { (1 << d) + 2 * a + 1 }
}

// Whether `p` has degree 1 or more and is not primitive.
fn not_primitive(d: u64, p: u64) -> bool
    requires { (d ≤ 12) × Degree d p }
    ensures { result ≡ not_primitive d p }
{
    if d == 0 {
        return false;
    }
    !primitive::is_primitive(d, p)
}

// An axis, and the bit after it.
#[derive(Clone, Copy)]
struct AxisRead {
    at: usize,
    degree: usize,
    polynomial: u64,
    ms: [u64; 12],
}

// One Sobol axis, from bit `start` on, after `n` axes with these polynomials.
fn read_axis(bytes: &[u8], start: usize, polynomials: &[u64], n: usize) -> Result<AxisRead, Refusal>
    requires { (start ≤ 8 * length bytes.now) × (start < 2000) × (n ≤ length polynomials.now) }
    ensures { MatchResult result
        (λ x. AxisAnswer bytes.now start n polynomials.now x.at x.degree x.polynomial x.ms)
        (λ e. (before : List ℕ) → read_axis (axes_of polynomials.now before n) (drop start (bits_of bytes.now)) ≡ refuse (number_of e)) }
{
    if bits::is_short(bytes, start, 4) {
        return Err(Refusal::Truncated);
    }
    let d = bits::field(bytes, start, 4);
    if 12 < d {
        return Err(Refusal::BadDegree);
    }
    let at = start + 4;
    let w = coefficient_count(d);
    if bits::is_short(bytes, at, w) {
        return Err(Refusal::Truncated);
    }
    let p = polynomial(d, bits::field(bytes, at, w));
    if not_primitive(d, p) {
        return Err(Refusal::NotPrimitive);
    }
    if is_repeated(p, polynomials, n) {
        return Err(Refusal::RepeatedPolynomial);
    }
    let MsRead { at, ms } = read_ms(bytes, at + w, d as usize)?;
    Ok(AxisRead {
        at,
        degree: d as usize,
        polynomial: p,
        ms,
    })
}

// The axes of a plan as its arrays hold them, and the bit after them.
#[derive(Clone, Copy)]
pub struct AxesRead {
    pub at: usize,
    pub polynomials: [u64; 6],
    pub ms: [u64; 72],
}

// `axes` Sobol axes, from bit 5 on.
pub fn read_axes(bytes: &[u8], axes: usize) -> Result<AxesRead, Refusal>
    requires { (5 ≤ 8 * length bytes.now) × (axes ≤ 6) }
    ensures { MatchResult result
        (λ x. AxesAnswer bytes.now axes x.at x.polynomials x.ms)
        (λ e. read_axes axes [] (drop 5 (bits_of bytes.now)) ≡ refuse (number_of e)) }
{
    let mut polynomials = [0u64; 6];
    let mut ms = [0u64; 72];
    let mut at: usize = 5;
    for i in 0..axes {
        let x = read_axis(bytes, at, &polynomials, i)?;
        polynomials[i] = x.polynomial;
        bits::store(&mut ms, 12 * i, &x.ms);
        at = x.at;
    }
    Ok(AxesRead {
        at,
        polynomials,
        ms,
    })
}
