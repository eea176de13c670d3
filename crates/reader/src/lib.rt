// Reading a plan out of bytes: the header, the axes, the bits after them, and the first refusal that holds.
#![tactic(auto)]

ghost use Rattle.std.specs.Prelude.{◌≡◌, true, false, ◌*◌, ◌<◌, ◌≤◌, length, drop};
ghost use Rattle.bits.specs.Stream.{bits_of};
ghost use Rattle.plan.specs.Reading.{read_body, bad_tail, finish, refused, read_plan};
ghost use Rattle.plan.specs.Answer.{answer_of};
ghost use Rattle.plan.specs.RefusalNumbers.{number_of};

use plan::PlanRead;
use plan::refusal::Refusal;

// Whether a filling bit is 1 or a byte follows, the last field ending at bit `at`.
fn bad_tail(bytes: &[u8], at: usize) -> bool
    requires { (at ≤ 8 * length bytes.now) × (at < 4000) }
    ensures { result ≡ bad_tail (drop at (bits_of bytes.now)) }
{
    if bits::is_short(bytes, at, 8) {
        let w = 8 * bytes.len() - at;
        bits::field(bytes, at, w) != 0
    } else {
        true
    }
}

// A refusal's number, and zeros.
fn no_plan(refusal: Refusal) -> PlanRead
    ensures { result ≡ answer_of (refused (number_of refusal)) }
{
    PlanRead {
        code: refusal.number(),
        family: 0,
        axes: 0,
        bases: [0; 6],
        polynomials: [0; 6],
        ms: [0; 72],
    }
}

// A Halton plan of this family and number of axes. The plan's 700 bytes are written once: a `Result` of them would be copied at each return.
fn read_halton(bytes: &[u8], family: u64, axes: usize) -> PlanRead
    requires { (5 ≤ 8 * length bytes.now) × (axes ≤ 6) }
    ensures { result ≡ answer_of (finish (read_body false family axes (drop 5 (bits_of bytes.now)))) }
{
    let b = match halton_reader::read_bases(bytes, axes) {
        Ok(b) => b,
        Err(refusal) => return no_plan(refusal),
    };
    if bad_tail(bytes, b.at) {
        return no_plan(Refusal::TrailingData);
    }
    let bases = b.bases;
    PlanRead {
        code: 0,
        family,
        axes,
        bases,
        polynomials: [0; 6],
        ms: [0; 72],
    }
}

// A Sobol plan of this number of axes.
fn read_sobol(bytes: &[u8], axes: usize) -> PlanRead
    requires { (5 ≤ 8 * length bytes.now) × (axes ≤ 6) }
    ensures { result ≡ answer_of (finish (read_body true 2 axes (drop 5 (bits_of bytes.now)))) }
{
    let x = match sobol_reader::read_axes(bytes, axes) {
        Ok(x) => x,
        Err(refusal) => return no_plan(refusal),
    };
    if bad_tail(bytes, x.at) {
        return no_plan(Refusal::TrailingData);
    }
    let polynomials = x.polynomials;
    let ms = x.ms;
    PlanRead {
        code: 0,
        family: 2,
        axes,
        bases: [0; 6],
        polynomials,
        ms,
    }
}

// The plan that bytes spell, or the number of the first refusal that holds, as one struct.
pub fn read_plan(bytes: &[u8]) -> PlanRead
    ensures { result ≡ answer_of (read_plan bytes.now) }
{
    if bits::is_short(bytes, 0, 2) {
        return no_plan(Refusal::Truncated);
    }
    let family = bits::field(bytes, 0, 2);
    if bits::is_short(bytes, 2, 3) {
        return no_plan(Refusal::Truncated);
    }
    let axes = bits::field(bytes, 2, 3);
    if axes == 0 {
        return no_plan(Refusal::BadAxisCount);
    }
    if axes == 7 {
        return no_plan(Refusal::BadAxisCount);
    }
    if family == 2 {
        return read_sobol(bytes, axes as usize);
    }
    read_halton(bytes, family, axes as usize)
}
