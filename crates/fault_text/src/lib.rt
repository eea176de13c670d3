// What is wrong with the words of a plan, as a message of at most 256 bytes. A text that would not fit is cut off.
#![tactic(auto)]

ghost use Rattle.std.specs.Prelude.{◌≡◌, ◌≤◌, length, take};

mod polynomial;

use plan::refusal;
use plan_check::Fault;
use polynomial::Polynomial;
use std::fmt;
use std::fmt::Write;

// A fault, as what is wrong; nothing where nothing is.
#[derive(Clone, Copy)]
struct Said(Fault);

impl fmt::Display for Said {
    fn fmt<W: fmt::Write>(&self, f: &mut fmt::Formatter<W>) -> fmt::Result {
        let axis = self.0.axis;
        let got = self.0.got;
        match self.0.code {
            0 => Ok(()),
            refusal::BAD_FAMILY => {
                write!(f, "expected the family halton, permuted, sobol or kocis")
            }
            refusal::BAD_AXIS_COUNT => write!(f, "expected one to six axes, got {got}"),
            refusal::BUFFER_TOO_SMALL => write!(f, "the plan has no room in the buffer"),
            _ => {
                write!(f, "axis {axis}: ")?;
                say_axis(&self.0, f)
            }
        }
    }
}

// What is wrong with an axis.
fn say_axis<W: fmt::Write>(fault: &Fault, f: &mut fmt::Formatter<W>) -> fmt::Result {
    let got = fault.got;
    let other = fault.other;
    let place = fault.place;
    match fault.code {
        refusal::BAD_BASE => write!(f, "the base must be 2 to 256, got {got}"),
        refusal::COMMON_FACTOR => write!(
            f,
            "base {got} shares a factor with base {other} of axis {place}"
        ),
        refusal::BAD_DEGREE => write!(
            f,
            "the polynomial must be 2 to 8191, of degree 1 to 12, got {got}"
        ),
        refusal::NOT_PRIMITIVE => write!(f, "{} is not primitive", Polynomial(got)),
        refusal::REPEATED_POLYNOMIAL => say_twin(fault, f),
        plan_words::NOT_A_BASE => write!(f, "expected a base in decimal, 2 to 256"),
        axis_words::NOT_AN_AXIS => write!(f, "expected 0 or P:M,M,.. in decimal"),
        axis_words::WRONG_COUNT => say_count(fault, f),
        axis_words::NOT_A_NUMBER => write!(f, "expected m_{place} in decimal"),
        _ => say_m(fault, f),
    }
}

// A polynomial that another axis has; that of degree 0 is written 0.
fn say_twin<W: fmt::Write>(fault: &Fault, f: &mut fmt::Formatter<W>) -> fmt::Result {
    let place = fault.place;
    if fault.got == 1 {
        return write!(f, "0 stands at axis {place} already");
    }
    write!(
        f,
        "{} is the polynomial of axis {place} already",
        Polynomial(fault.got)
    )
}

// An m that is even, or not below its limit.
fn say_m<W: fmt::Write>(fault: &Fault, f: &mut fmt::Formatter<W>) -> fmt::Result {
    let place = fault.place;
    let got = fault.got;
    let limit = 1u64 << (place % 64);
    write!(f, "m_{place} must be odd and below {limit}, got {got}")
}

// Another number of m's than the degree.
fn say_count<W: fmt::Write>(fault: &Fault, f: &mut fmt::Formatter<W>) -> fmt::Result {
    let degree = fault.place;
    let got = fault.got;
    if degree == 1 {
        return write!(f, "expected 1 number m for degree 1, got {got}");
    }
    write!(
        f,
        "expected {degree} numbers m for degree {degree}, got {got}"
    )
}

// The front of a message, of which `len` bytes are written.
#[derive(Drop)]
struct Buffer {
    text: [u8; 256],
    len: usize,
    ghost fits: { len ≤ 256 },
}

impl fmt::Write for Buffer {
    fn write_str(&mut self, s: &str) -> fmt::Result {
        for b in s.as_bytes() {
            if self.len == 256 {
                return Err(fmt::Error);
            }
            self.text[self.len] = *b;
            self.len += 1;
        }
        Ok(())
    }
}

// Puts what is wrong to the front of `out`, and gives its length; nothing where nothing is. With the second clause a caller's `&out[..r]`
// needs no proof.
pub fn message(f: Fault, out: &mut [u8]) -> usize
    requires { 256 ≤ length out.old }
    ensures upper_bound { result ≤ 256 }
    ensures upper_bound_2 { (result ≤ length out.new) × (result ≡ length (take result out.new)) }
{
    let mut m = Buffer {
        text: [0; 256],
        len: 0,
    };
    // a message that would not fit is cut off
    let _ = write!(m, "{}", Said(f));
    let n = m.len;
    out[..n].copy_from_slice(&m.text[..n]);
    n
}
