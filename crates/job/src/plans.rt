// A line `plan HEX`, or `plan FAMILY AXIS ..`.
ghost use Rattle.std.specs.Prelude.{◌≤◌, length};

use crate::report::refusal;
use crate::{Job, end_number, error, fail, say, say_between};
use plan::PlanFields;
use plan_check::Fault;

// The remark that begins with a text, and has the words of a plan.
fn remark_words(j: Job, out: &mut [u8], begin: &[u8], words: &[u8], end: &[u8]) -> Job {
    let begun = say_between(j, out, begin, j.line, b": plan ");
    let said = say(begun, out, words);
    say(said, out, end)
}

// Says in a remark what plan the bytes are, in words; in a picture it is a comment of the file.
fn remark(j: Job, out: &mut [u8], bytes: &[u8]) -> Job {
    let a = reader::read_plan(bytes);
    let p = PlanFields {
        family: a.family,
        axes: a.axes,
        bases: &a.bases,
        polynomials: &a.polynomials,
        ms: &a.ms,
    };
    let mut text = [0u8; 512];
    let n = plan_text::put_words(&mut text, p);
    if j.is_picture {
        return remark_words(j, out, b"<!-- line ", &text[..n], b" -->\n");
    }
    remark_words(j, out, b"# line ", &text[..n], b"\n")
}

// The plan that bytes spell, in force with no run yet; or none.
fn take_plan(j: Job, out: &mut [u8], bytes: &[u8]) -> Job {
    let r = sampler::read(bytes);
    if r.code != 0 {
        return refusal(j, out, r.code);
    }
    let s = r.state;
    let mut next = j;
    next.has_plan = true;
    next.state = s;
    remark(next, out, bytes)
}

// ---- in words

// What is wrong with the words of a plan.
fn wrong_words(j: Job, out: &mut [u8], fault: Fault) -> Job {
    if fault.code == 2 {
        return error(
            j,
            out,
            b"expected plan HEX, the plan's bytes in one word, or the family halton, permuted, sobol or kocis",
        );
    }
    let mut said = [0u8; 256];
    let n = fault_text::message(fault, &mut said);
    error(j, out, &said[..n])
}

// The plan that the words from `from` on say.
fn build_plan(j: Job, out: &mut [u8], line: &[u8], from: usize) -> Job
    requires { from ≤ length line.now }
{
    let mut bytes = [0u8; 71];
    match plan_builder::build(line, from, &mut bytes) {
        Ok(len) => take_plan(j, out, &bytes[..len]),
        Err(fault) => wrong_words(j, out, fault),
    }
}

// ---- in bytes

// A word that is not hexadecimal in column `at`.
fn not_hex(j: Job, out: &mut [u8], at: usize) -> Job {
    let begun = fail(j, out);
    end_number(
        begun,
        out,
        b"expected hexadecimal digits, got another character in column ",
        at as u64,
    )
}

// The plan that a word spells.
fn read_plan(j: Job, out: &mut [u8], line: &[u8], start: usize, end: usize) -> Job
    requires { (start ≤ end) × (end ≤ length line.now) × (length line.now ≤ 1024) }
{
    let word = &line[start..end];
    let other = words::not_hex(word);
    if other < word.len() {
        return not_hex(j, out, start + other + 1);
    }
    if word.len() % 2 == 1 {
        return error(
            j,
            out,
            b"expected two hexadecimal digits a byte, got an odd number of digits",
        );
    }
    let mut bytes = [0u8; 512];
    let n = words::hex(word, &mut bytes);
    take_plan(j, out, &bytes[..n])
}

// A line of a plan, from after its first word on. It forgets the run; in error, it leaves no plan in force. One word that names no family is the
// plan's bytes.
pub fn plan_line(j: Job, out: &mut [u8], text: &[u8], from: usize) -> Job
    requires { (from ≤ length text.now) × (length text.now ≤ 1024) }
{
    let mut none = j;
    none.has_plan = false;
    none.run = None;
    let w = words::find(text, from);
    let start = w.start;
    let end = w.end;
    if words::count(text, from) != 1 {
        return build_plan(none, out, text, from);
    }
    if plan_words::family_of(&text[start..end]).is_some() {
        return build_plan(none, out, text, from);
    }
    read_plan(none, out, text, start, end)
}
