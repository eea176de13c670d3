// Writing a plan into a lent buffer: the fields in their order, zero bits filling the last byte.
#![tactic(auto)]

ghost use Rattle.std.specs.Prelude.{◌≡◌, ◌≤◌, length};
ghost use Rattle.bits.specs.Stream.{AllBelow, overwrite};
ghost use Rattle.plan.specs.Plan.{plan_bits};
ghost use Rattle.plan.specs.Answer.{plan_of};
ghost use Rattle.axes_writer.specs.Parts.{BitsPut};
ghost use Rattle.writer.specs.Parts.{Writable, Written};

use plan::refusal;

// The bits of the plan, into a buffer of 128 bytes; gives how many there are.
fn put_plan(
    out: &mut [u8],
    family: u64,
    axes: usize,
    bases: &[u64],
    polynomials: &[u64],
    ms: &[u64],
) -> usize
    requires { (length out.old ≡ 128) × Writable family axes bases.now polynomials.now ms.now }
    ensures { BitsPut out.old out.new 0 (plan_bits (plan_of family axes bases.now polynomials.now ms.now)) result × (result ≤ 965) }
{
    bits::put(out, 0, 2, family);
    bits::put(out, 2, 3, axes as u64);
    if family == 2 {
        return axes_writer::put_axes(out, polynomials, ms, axes);
    }
    axes_writer::put_bases(out, bases, axes)
}

// The front of `out` becomes the bytes.
fn copy(out: &mut [u8], bytes: &[u8])
    requires { length bytes.now ≤ length out.old }
    ensures { (out.new ≡ overwrite out.old 0 bytes.now) × AllBelow 256 bytes.now }
{
    out[..bytes.len()].copy_from_slice(bytes);
}

// What the writer answers: a refusal's number or 0, and the plan's length in bytes, 0 where it is refused.
// It has a code and is no `Result`, since `write_spec` of the calls and the theorems above it are equations about the code.
#[derive(Clone, Copy)]
pub struct PlanWritten {
    pub code: u64,
    pub len: usize,
}

// Writes the plan that the arrays hold to the front of `out`. They are slices, and no `PlanFields`: its arrays are of a state's lengths, and here
// the bases and the polynomials may be just those of the axes.
pub fn write_plan<'a>(
    out: &mut [u8],
    family: u64,
    axes: usize,
    bases: &'a [u64],
    polynomials: &'a [u64],
    ms: &[u64],
) -> PlanWritten
    requires { Writable family axes bases.now polynomials.now ms.now }
    ensures { Written (plan_of family axes bases.now polynomials.now ms.now) out.old out.new result.code result.len }
{
    let mut buffer = [0u8; 128];
    let n = put_plan(&mut buffer, family, axes, bases, polynomials, ms);
    let len = (n + 7) / 8;
    bits::put(&mut buffer, n, 8 * len - n, 0);
    if out.len() < len {
        return PlanWritten {
            code: refusal::BUFFER_TOO_SMALL,
            len: 0,
        };
    }
    copy(out, &buffer[..len]);
    PlanWritten { code: 0, len }
}
