// The words of a plan that arrays hold, put into a lent buffer. Each `put` gives the place after what it put.
#![tactic(auto)]

ghost use Rattle.std.specs.Prelude.{◌≡◌, ℕ, ◌+◌, ◌*◌, ◌<◌, ◌≤◌, length, get_or, take, drop};
ghost use Rattle.plan.specs.Plan.{Valid};
ghost use Rattle.plan.specs.Answer.{axis_at, axes_of};
ghost use Rattle.plan.specs.Fields.{fields_plan};
ghost use Rattle.plan_words.specs.Says.{family_word};
ghost use Rattle.text.specs.Put.{TextPut};
ghost use Rattle.plan_text.specs.Words.{part, bases_text, mark_at, ms_text, axis_text, axes_text, plan_text, GoodAxis, WordsPut};

use plan::PlanFields;

// A mark, and a number in decimal.
fn put_part(out: &mut [u8], at: usize, mark: u8, n: u64) -> usize
    requires { (n < 10000) × (at + 14 ≤ length out.old) }
    ensures { TextPut out.old out.new at (part mark n) result × (result ≤ at + 5) }
{
    let next = text::put(out, at, &[mark]);
    text::put_decimal(out, next, n)
}

// ---- Halton plans

// The bases of `axes` axes.
fn put_bases(out: &mut [u8], start: usize, bases: &[u64], axes: usize) -> usize
    requires { (axes ≤ 6) × (axes ≤ length bases.now) × (start + 44 ≤ length out.old) × ((k : ℕ) → k < axes → get_or bases.now k 0 ≤ 256) }
    ensures { TextPut out.old out.new start (bases_text (take axes bases.now)) result × (result ≤ start + 30) }
{
    let mut at = start;
    for base in &bases[..axes] {
        at = put_part(out, at, b' ', *base);
    }
    at
}

// ---- Sobol plans

// The mark before m_(k+1).
fn mark_at(k: usize) -> u8
    ensures { result ≡ mark_at k }
{
    if k == 0 { b':' } else { b',' }
}

// The first `d` m's of axis `i`.
fn put_ms(out: &mut [u8], start: usize, ms: &[u64; 72], i: usize, d: usize) -> usize
    requires { (i < 6) × (d ≤ 12) × (start + 74 ≤ length out.old) × ((k : ℕ) → k < d → get_or ms.now (12 * i + k) 0 < 10000) }
    ensures { TextPut out.old out.new start (ms_text 0 (take d (drop (12 * i) ms.now))) result × (result ≤ start + 60) }
{
    let mut at = start;
    for k in 0..d {
        let mark = mark_at(k);
        at = put_part(out, at, mark, ms[12 * i + k]);
    }
    at
}

// Axis `i`.
fn put_axis(out: &mut [u8], at: usize, polynomials: &[u64; 6], ms: &[u64; 72], i: usize) -> usize
    requires { (i < 6) × (at + 79 ≤ length out.old) × GoodAxis polynomials.now ms.now i }
    ensures { TextPut out.old out.new at (axis_text (axis_at polynomials.now ms.now i)) result × (result ≤ at + 65) }
{
    let p = polynomials[i];
    let d = sobol::degree(p);
    if d == 0 {
        return put_part(out, at, b' ', 0);
    }
    let next = put_part(out, at, b' ', p);
    put_ms(out, next, ms, i, d)
}

// `axes` axes.
fn put_axes(
    out: &mut [u8],
    start: usize,
    polynomials: &[u64; 6],
    ms: &[u64; 72],
    axes: usize,
) -> usize
    requires { (axes ≤ 6) × (start + 404 ≤ length out.old) × ((k : ℕ) → k < axes → GoodAxis polynomials.now ms.now k) }
    ensures { TextPut out.old out.new start (axes_text (axes_of polynomials.now ms.now axes)) result × (result ≤ start + 390) }
{
    let mut at = start;
    for i in 0..axes {
        at = put_axis(out, at, polynomials, ms, i);
    }
    at
}

// ---- the whole

// The family's word, at the front.
fn put_family(out: &mut [u8], family: u64) -> usize
    requires { (family < 4) × (8 ≤ length out.old) }
    ensures { TextPut out.old out.new 0 (family_word family) result × (result ≤ 8) }
{
    match family {
        0 => text::put(out, 0, b"halton"),
        1 => text::put(out, 0, b"permuted"),
        2 => text::put(out, 0, b"sobol"),
        _ => text::put(out, 0, b"kocis"),
    }
}

// The words of a valid plan, at the front.
fn put_plan(out: &mut [u8], p: PlanFields) -> usize
    requires { (412 ≤ length out.old) × (p.axes ≤ 6) × Valid (fields_plan p) }
    ensures { TextPut out.old out.new 0 (plan_text (fields_plan p.entry)) result × (result ≤ 398) }
{
    let at = put_family(out, p.family);
    if p.family == 2 {
        return put_axes(out, at, p.polynomials, p.ms, p.axes);
    }
    let bases = p.bases;
    put_bases(out, at, bases, p.axes)
}

// Puts the words of the plan that the fields hold to the front of `out`, and gives their length; 0 where they hold no valid plan. The
// second clause follows from the first: with it a caller's `&out[..r]` needs no proof.
pub fn put_words(out: &mut [u8], p: PlanFields) -> usize
    requires { 412 ≤ length out.old }
    ensures words_put { WordsPut p.entry.axes (fields_plan p.entry) out.old out.new result }
    ensures upper_bound { (result ≤ length out.new) × (result ≡ length (take result out.new)) }
{
    match plan_check::check(p) {
        Ok(()) => put_plan(out, p),
        Err(_) => 0,
    }
}
