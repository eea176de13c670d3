// The plan that the words of a line say: the family, and a word for each axis.
#![tactic(auto)]

ghost use Rattle.std.specs.Prelude.{◌≤◌, length};
ghost use Rattle.plan_words.specs.Parsed.{FamilyRead, BasesRead, AxesRead, Parsed};

use plan::refusal;
use plan_check::Fault;

// A base that is no decimal number.
pub const NOT_A_BASE: u64 = 102;

// The family that a word names.
pub fn family_of(word: &[u8]) -> Option<u64>
    ensures { FamilyRead word.now result }
{
    if word == b"halton".as_slice() {
        return Some(0);
    }
    if word == b"permuted".as_slice() {
        return Some(1);
    }
    if word == b"sobol".as_slice() {
        return Some(2);
    }
    if word == b"kocis".as_slice() {
        return Some(3);
    }
    None
}

// ---- the axes

// The bases that `n` words spell, from `from` on.
fn parse_bases(line: &[u8], from: usize, n: usize) -> Result<[u64; 6], Fault>
    requires { (from ≤ length line.now) × (n ≤ 6) }
    ensures { BasesRead line.now from n result }
{
    let mut bases = [0u64; 6];
    let mut at = from;
    for i in 0..n {
        let w = words::find(line, at);
        let start = w.start;
        let end = w.end;
        let Some(base) = axis_words::number(&line[start..end]) else {
            return Err(plan_check::report(NOT_A_BASE, i + 1, 0, 0, 0));
        };
        bases[i] = base;
        at = end;
    }
    Ok(bases)
}

// The axes of a Sobol plan, in arrays.
#[derive(Clone, Copy)]
struct AxesSaid {
    polynomials: [u64; 6],
    ms: [u64; 72],
}

// The Sobol axes that `n` words spell, from `from` on.
fn parse_axes(line: &[u8], from: usize, n: usize) -> Result<AxesSaid, Fault>
    requires { (from ≤ length line.now) × (n ≤ 6) }
    ensures { AxesRead line.now from n result }
{
    let mut polynomials = [0u64; 6];
    let mut ms = [0u64; 72];
    let mut at = from;
    for i in 0..n {
        let w = words::find(line, at);
        let start = w.start;
        let end = w.end;
        match axis_words::parse_axis(&line[start..end], &mut ms, i) {
            Ok(p) => polynomials[i] = p,
            Err(x) => return Err(plan_check::report(x.code, i + 1, x.place, x.got, 0)),
        }
        at = end;
    }
    Ok(AxesSaid { polynomials, ms })
}

// ---- the whole

// The plan in arrays, with 0 in the entries that it does not use.
#[derive(Clone, Copy)]
pub struct PlanSaid {
    pub family: u64,
    pub axes: usize,
    pub bases: [u64; 6],
    pub polynomials: [u64; 6],
    pub ms: [u64; 72],
}

// The plan that the words from `from` on say, or what is wrong with the words.
pub fn parse(line: &[u8], from: usize) -> Result<PlanSaid, Fault>
    requires { from ≤ length line.now }
    ensures { Parsed line.now from result }
{
    let w = words::find(line, from);
    let start = w.start;
    let end = w.end;
    let Some(family) = family_of(&line[start..end]) else {
        return Err(plan_check::report(refusal::BAD_FAMILY, 0, 0, 0, 0));
    };
    let axes = words::count(line, end);
    if axes < 1 {
        return Err(plan_check::report(refusal::BAD_AXIS_COUNT, 0, 0, axes as u64, 0));
    }
    if 6 < axes {
        return Err(plan_check::report(refusal::BAD_AXIS_COUNT, 0, 0, axes as u64, 0));
    }
    if family == 2 {
        let AxesSaid { polynomials, ms } = parse_axes(line, end, axes)?;
        return Ok(PlanSaid {
            family,
            axes,
            bases: [0; 6],
            polynomials,
            ms,
        });
    }
    let bases = parse_bases(line, end, axes)?;
    Ok(PlanSaid {
        family,
        axes,
        bases,
        polynomials: [0; 6],
        ms: [0; 72],
    })
}
