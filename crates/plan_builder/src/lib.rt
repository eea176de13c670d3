// A plan built from words: parsed, checked, and written into a lent buffer.
#![tactic(auto)]

ghost use Rattle.std.specs.Prelude.{◌≡◌, ◌≤◌, IfOk, length, take};
ghost use Rattle.plan_builder.specs.Outcome.{Outcome};

use plan::PlanFields;
use plan_check::Fault;

// Writes the plan that the words of a line from `from` on say to the front of `out`, and answers its length in bytes, or what is wrong. The
// second clause follows from the first: with it a caller's `&out[..len]` needs no proof.
pub fn build(line: &[u8], from: usize, out: &mut [u8]) -> Result<usize, Fault>
    requires { from ≤ length line.now }
    ensures outcome { Outcome line.now from out.old result out.new }
    ensures len_in_bounds { IfOk result (λ len. (len ≤ length out.new) × (len ≡ length (take len out.new))) }
{
    let p = plan_words::parse(line, from)?;
    let fields = PlanFields {
        family: p.family,
        axes: p.axes,
        bases: &p.bases,
        polynomials: &p.polynomials,
        ms: &p.ms,
    };
    plan_check::check(fields)?;
    let w = writer::write_plan(out, p.family, p.axes, &p.bases, &p.polynomials, &p.ms);
    if w.code != 0 {
        return Err(plan_check::report(w.code, 0, 0, 0, 0));
    }
    Ok(w.len)
}
