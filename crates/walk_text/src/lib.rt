// The text of the program `walk`: a plan's number of axes and its first four points, or its refusal.
#![tactic(auto)]

ghost use Rattle.std.specs.Prelude.{◌≡◌, ◌++◌, ◌+◌, ◌^◌, ◌<◌, ◌≤◌, length, take, drop};
ghost use Rattle.text.specs.Decimal.{decimal};
ghost use Rattle.text.specs.Put.{TextPut};
ghost use Rattle.plan.specs.Reading.{accepted};
ghost use Rattle.plan.specs.Answer.{plan_answered, Accepted};
ghost use Rattle.walk_text.specs.Text.{newline, text_of, walk_text};
ghost use Rattle.walk_text.specs.Parts.{fraction, fractions_at, line_at, lines_at};

use plan::PlanRead;
use points::PlanAxes;

// A line of a word and a number, at the front; gives the place after it, as every `put_` does.
fn put_head(out: &mut [u8], word: &[u8], n: u64) -> usize
    requires { (n < 2 ^ 40) × (length word.now + 14 ≤ length out.old) }
    ensures { TextPut out.old out.new 0 (word.now ++ decimal n ++ newline) result × (result ≤ length word.now + 14) }
{
    let after_word = text::put(out, 0, word);
    let after_number = text::put_decimal(out, after_word, n);
    text::put(out, after_number, &[b'\n'])
}

// A space, and numerator/denominator.
fn put_fraction(out: &mut [u8], at: usize, x: u64, d: u64) -> usize
    requires { (x < 2 ^ 40) × (d < 2 ^ 40) × (at + 28 ≤ length out.old) }
    ensures { TextPut out.old out.new at (fraction x d) result × (result ≤ at + 28) }
{
    let after_space = text::put(out, at, &[b' ']);
    let after_numerator = text::put_decimal(out, after_space, x);
    let after_slash = text::put(out, after_numerator, &[b'/']);
    text::put_decimal(out, after_slash, d)
}

// The fractions of index `n`, axis by axis.
fn put_fractions(out: &mut [u8], start: usize, p: PlanAxes, n: u64) -> usize
    requires { (n < 2 ^ 32) × (start + 168 ≤ length out.old) }
    ensures { TextPut out.old out.new start (fractions_at p.entry.family p.entry.bases.now p.entry.directions.now n p.entry.axes) result
        × (result ≤ start + 168) }
{
    let mut at = start;
    for i in 0..p.axes {
        let x = points::numerator(p.family, p.bases, p.directions, n, i);
        let d = points::denominator(p.family, p.bases, i);
        at = put_fraction(out, at, x, d);
    }
    at
}

// The line of index `n`.
fn put_line(out: &mut [u8], at: usize, p: PlanAxes, n: u64) -> usize
    requires { (n < 2 ^ 32) × (at + 200 ≤ length out.old) }
    ensures { TextPut out.old out.new at (line_at p.entry.family p.entry.axes p.entry.bases.now p.entry.directions.now n) result
        × (result ≤ at + 200) }
{
    let after_index = text::put_decimal(out, at, n);
    let after_point = put_fractions(out, after_index, p, n);
    text::put(out, after_point, &[b'\n'])
}

// The lines of the indexes 0 to 3.
fn put_lines(out: &mut [u8], start: usize, p: PlanAxes) -> usize
    requires { start + 800 ≤ length out.old }
    ensures { TextPut out.old out.new start (lines_at p.entry.family p.entry.axes p.entry.bases.now p.entry.directions.now 4) result
        × (result ≤ start + 800) }
{
    let mut at = start;
    for n in 0..4 {
        at = put_line(out, at, p, n);
    }
    at
}

// The lines of a plan that the reader accepted.
fn put_accepted(out: &mut [u8], a: PlanRead) -> usize
    requires { Accepted a × (819 ≤ length out.old) }
    ensures { TextPut out.old out.new 0 (text_of (accepted (plan_answered a))) result }
{
    let s = state::make(a);
    let axes = PlanAxes {
        family: s.family,
        axes: s.axes,
        bases: &s.bases,
        directions: &s.directions,
    };
    let after_head = put_head(out, &[b'a', b'x', b'e', b's', b' '], s.axes as u64);
    put_lines(out, after_head, axes)
}

// How many bytes decide: 72, or all where there are fewer.
fn deciding(input: &[u8]) -> usize
    ensures { (result ≤ length input.now) × (take result input.now ≡ take 72 input.now) }
{
    if input.len() < 72 { input.len() } else { 72 }
}

// The text for these bytes, at the front of `out`; gives its length. The second clause follows from the first: with it a caller's
// `&out[..r]` needs no proof.
pub fn walk(input: &[u8], out: &mut [u8; 1024]) -> usize
    ensures value { (result ≡ length (walk_text input.now)) × (out.new ≡ walk_text input.now ++ drop result out.old) }
    ensures upper_bound { (result ≤ length out.new) × (result ≡ length (take result out.new)) }
{
    let n = deciding(input);
    let a = reader::read_plan(&input[..n]);
    if a.code != 0 {
        return put_head(
            out,
            &[b'r', b'e', b'f', b'u', b's', b'e', b'd', b' '],
            a.code,
        );
    }
    put_accepted(out, a)
}
