// What is wrong with a plan that arrays hold: nothing, or the first field at fault, by its axis and place.
#![tactic(auto)]

ghost use Rattle.std.specs.Prelude.{◌≡◌, ◌≢◌, ◌<◌, ◌≤◌, length, MatchResult};
ghost use Rattle.fitting.specs.Fits.{FitPolynomial};
ghost use Rattle.plan_check.specs.Found.{fault_at, FirstWrong, CoprimeAt, BasesFound, NewAt, GivenAt, PolynomialFound, AxisFound, AxesFound, FieldsFound, Checked};

use plan::{PlanFields, refusal};

// A given m_i that is not below 2^i. No bytes spell one, so this is the number of no refusal; nor are those from 102 on, of words that spell nothing.
pub const LARGE_NUMBER: u64 = 101;

// The number of a refusal, or 0 where a struct that has a fault tells of none; the axis and the place at fault, from 1; the value that is wrong,
// and the one that it meets. What a refusal does not have is 0.
#[derive(Clone, Copy)]
pub struct Fault {
    pub code: u64,
    pub axis: usize,
    pub place: usize,
    pub got: u64,
    pub other: u64,
}

// A fault of these fields.
pub fn report(code: u64, axis: usize, place: usize, got: u64, other: u64) -> Fault
    ensures { result ≡ fault_at code axis place got other }
{
    Fault {
        code,
        axis,
        place,
        got,
        other,
    }
}

// ---- Halton plans

// The first of `n` bases that shares a factor with `b`, by its place.
fn first_shared(b: u64, bases: &[u64], n: usize) -> Option<usize>
    requires { n ≤ length bases.now }
    ensures { FirstWrong (CoprimeAt b bases.now) n result }
{
    for j in 0..n {
        if numbers::gcd(b, bases[j]) != 1 {
            return Some(j);
        }
    }
    None
}

// What is wrong with the first `n` bases.
fn check_bases(bases: &[u64], n: usize) -> Result<(), Fault>
    requires { n ≤ length bases.now }
    ensures { Checked (BasesFound bases.now n) result }
{
    for i in 0..n {
        let b = bases[i];
        if b < 2 {
            return Err(report(refusal::BAD_BASE, i + 1, 0, b, 0));
        }
        if 256 < b {
            return Err(report(refusal::BAD_BASE, i + 1, 0, b, 0));
        }
        if let Some(j) = first_shared(b, bases, i) {
            return Err(report(refusal::COMMON_FACTOR, i + 1, j + 1, b, bases[j]));
        }
    }
    Ok(())
}

// ---- Sobol plans

// Whether a polynomial is right, or the number of its refusal.
fn check_polynomial(p: u64) -> Result<(), u64>
    ensures { MatchResult result (λ _. FitPolynomial p) (λ n. PolynomialFound p n × (n ≢ 0)) }
{
    if 8191 < p {
        return Err(refusal::BAD_DEGREE);
    }
    if p % 2 != 1 {
        return Err(refusal::NOT_PRIMITIVE);
    }
    let d = sobol::degree(p);
    if d == 0 {
        return Ok(());
    }
    if primitive::is_primitive(d as u64, p) {
        return Ok(());
    }
    Err(refusal::NOT_PRIMITIVE)
}

// The first place before `n` of the polynomial that stands at place `n`.
fn first_twin(polynomials: &[u64], n: usize) -> Option<usize>
    requires { n < length polynomials.now }
    ensures { FirstWrong (NewAt polynomials.now n) n result }
{
    let p = polynomials[n];
    for j in 0..n {
        if p == polynomials[j] {
            return Some(j);
        }
    }
    None
}

// The first of `d` given m's of axis `i` that is even or too large, by its place.
fn first_wrong(ms: &[u64; 72], i: usize, d: usize) -> Option<usize>
    requires { (i < 6) × (d ≤ 12) }
    ensures { FirstWrong (GivenAt ms.now i) d result }
{
    for k in 0..d {
        let m = ms[12 * i + k];
        if m % 2 != 1 {
            return Some(k);
        }
        if m >> (k + 1) != 0 {
            return Some(k);
        }
    }
    None
}

// What is wrong with axis `i`.
fn check_axis(polynomials: &[u64; 6], ms: &[u64; 72], i: usize) -> Result<(), Fault>
    requires { i < 6 }
    ensures { Checked (AxisFound polynomials.now ms.now i) result }
{
    let p = polynomials[i];
    if let Err(code) = check_polynomial(p) {
        return Err(report(code, i + 1, 0, p, 0));
    }
    if let Some(j) = first_twin(polynomials, i) {
        return Err(report(refusal::REPEATED_POLYNOMIAL, i + 1, j + 1, p, 0));
    }
    let d = sobol::degree(p);
    if let Some(k) = first_wrong(ms, i, d) {
        let m = ms[12 * i + k];
        if m % 2 == 0 {
            return Err(report(refusal::EVEN_NUMBER, i + 1, k + 1, m, 0));
        }
        return Err(report(LARGE_NUMBER, i + 1, k + 1, m, 0));
    }
    Ok(())
}

// What is wrong with the first `n` axes.
fn check_axes(polynomials: &[u64; 6], ms: &[u64; 72], n: usize) -> Result<(), Fault>
    requires { n ≤ 6 }
    ensures { Checked (AxesFound polynomials.now ms.now n) result }
{
    for i in 0..n {
        check_axis(polynomials, ms, i)?;
    }
    Ok(())
}

// ---- the whole

// What is wrong with the plan that the fields hold.
pub fn check(p: PlanFields) -> Result<(), Fault>
    ensures { Checked (FieldsFound p.entry) result }
{
    let family = p.family;
    let axes = p.axes;
    if 3 < family {
        return Err(report(refusal::BAD_FAMILY, 0, 0, family, 0));
    }
    if axes < 1 {
        return Err(report(refusal::BAD_AXIS_COUNT, 0, 0, axes as u64, 0));
    }
    if 6 < axes {
        return Err(report(refusal::BAD_AXIS_COUNT, 0, 0, axes as u64, 0));
    }
    if family == 2 {
        return check_axes(p.polynomials, p.ms, axes);
    }
    let bases = p.bases;
    check_bases(bases, axes)
}
