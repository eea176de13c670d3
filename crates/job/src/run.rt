// A line `run START .. COUNT`, and the two numbers of a line.
ghost use Rattle.std.specs.Prelude.{◌≡◌, ◌≢◌, ℕ, Ok, ◌≤◌, IfOk, MatchResult, length};
ghost use Rattle.words.specs.Decimal.{number_of};

use crate::{Job, end, error, fail, say, say_between};
use words::NumberError;

// Ends an error with what was expected of a number.
fn end_expected(j: Job, out: &mut [u8], e: NumberError) -> Job {
    match e {
        NumberError::TooLarge => end(j, out, b" to be at most 18446744073709551615"),
        NumberError::NotDecimal => end(j, out, b" to be a decimal number"),
    }
}

// Begins the error that a number was expected, by its name.
fn expected(j: Job, out: &mut [u8], name: &[u8]) -> Job {
    let begun = fail(j, out);
    let said = say(begun, out, b"expected ");
    say(said, out, name)
}

// The number that a word spells, or the job with the error that it spells none, by the number's name.
pub fn named_number(j: Job, out: &mut [u8], word: &[u8], name: &[u8]) -> Result<u64, Job>
    ensures { MatchResult result (λ n. number_of word.now ≡ Ok n) (λ _. (n : ℕ) → number_of word.now ≢ Ok n) }
{
    match words::decimal(word) {
        Ok(n) => Ok(n),
        Err(e) => {
            let begun = expected(j, out, name);
            Err(end_expected(begun, out, e))
        }
    }
}

// Two numbers that a line has, and the place after them.
#[derive(Clone, Copy)]
pub struct Two {
    pub first: u64,
    pub second: u64,
    pub end: usize,
}

// The first two words from `from` on, as numbers, of which `first` and `second` are the names; or the job with the error that one is none.
pub fn two_numbers(
    j: Job,
    out: &mut [u8],
    text: &[u8],
    from: usize,
    first: &[u8],
    second: &[u8],
) -> Result<Two, Job>
    requires { from ≤ length text.now }
    ensures { IfOk result (λ t. t.end ≤ length text.now) }
{
    let w = words::find(text, from);
    let a = w.start;
    let e = w.end;
    let m = named_number(j, out, &text[a..e], first)?;
    let v = words::find(text, e);
    let b = v.start;
    let f = v.end;
    let n = named_number(j, out, &text[b..f], second)?;
    Ok(Two {
        first: m,
        second: n,
        end: f,
    })
}

// ---- the run

// What is in force of a plan: whether it is a day set and no run, and the number of the line that says so.
#[derive(Clone, Copy)]
pub struct Run {
    pub is_day: bool,
    pub line: u64,
}

// Why an opening was refused: 17 is of a Sobol plan, since there is one start for each axis.
fn refused(j: Job, out: &mut [u8], code: u64) -> Job {
    match code {
        17 => error(
            j,
            out,
            b"the run is refused: 17, the axes of a Sobol plan share one start",
        ),
        _ => error(
            j,
            out,
            b"the run is refused: 11, START + COUNT is above 4294967296",
        ),
    }
}

// Opens the run with a start for each axis.
fn open(j: Job, out: &mut [u8], starts: &[u64], count: u64) -> Job {
    let s = j.state;
    let r = sampler::open(s, starts, count);
    if r.code != 0 {
        return refused(j, out, r.code);
    }
    let t = r.state;
    let mut next = j;
    next.run = Some(Run {
        is_day: false,
        line: j.line,
    });
    next.state = t;
    next
}

// The run of the numbers START COUNT from `from` on: all axes have the one start.
fn one_start(j: Job, out: &mut [u8], text: &[u8], from: usize, axes: usize) -> Job
    requires { (from ≤ length text.now) × (axes ≤ 6) }
{
    let t = match two_numbers(j, out, text, from, b"START", b"COUNT") {
        Ok(t) => t,
        Err(failed) => return failed,
    };
    let starts = [t.first; 6];
    open(j, out, &starts[0..axes], t.second)
}

// The starts that a line has, and the place after them.
#[derive(Clone, Copy)]
struct Starts {
    starts: [u64; 6],
    end: usize,
}

// Not the start of an axis, from 1, that was expected.
fn no_start(j: Job, out: &mut [u8], e: NumberError, axis: u64) -> Job {
    let begun = fail(j, out);
    let placed = say_between(begun, out, b"axis ", axis, b": expected START");
    end_expected(placed, out, e)
}

// The first words from `from` on, as the starts of so many axes; or the job with the error that one is no number.
fn read_starts(j: Job, out: &mut [u8], text: &[u8], from: usize, axes: usize) -> Result<Starts, Job>
    requires { (from ≤ length text.now) × (axes ≤ 6) }
    ensures { IfOk result (λ r. (r.end ≤ length text.now) × (length r.starts ≡ 6)) }
{
    let mut starts = [0u64; 6];
    let mut at = from;
    for i in 0..axes {
        let w = words::find(text, at);
        let a = w.start;
        let e = w.end;
        starts[i] = match words::decimal(&text[a..e]) {
            Ok(n) => n,
            Err(why) => return Err(no_start(j, out, why, i as u64 + 1)),
        };
        at = e;
    }
    Ok(Starts { starts, end: at })
}

// The run of the numbers START .. COUNT from `from` on: each axis has a start of its own.
fn own_starts(j: Job, out: &mut [u8], text: &[u8], from: usize, axes: usize) -> Job
    requires { (from ≤ length text.now) × (axes ≤ 6) }
{
    let r = match read_starts(j, out, text, from, axes) {
        Ok(r) => r,
        Err(failed) => return failed,
    };
    let w = words::find(text, r.end);
    let a = w.start;
    let e = w.end;
    let count = match named_number(j, out, &text[a..e], b"COUNT") {
        Ok(n) => n,
        Err(failed) => return failed,
    };
    let starts = r.starts;
    open(j, out, &starts[0..axes], count)
}

// How many axes the plan has.
fn plan_axes(j: Job) -> usize
    ensures { result ≤ 6 }
{
    let s = j.state;
    if s.axes < 6 { s.axes } else { 6 }
}

// Neither one start nor one for each axis.
fn not_each(j: Job, out: &mut [u8], axes: u64) -> Job {
    let begun = fail(j, out);
    let said = say_between(
        begun,
        out,
        b"expected run START .. COUNT, one start or one for each of the ",
        axes,
        b" axes",
    );
    end(said, out, b"")
}

// A line `run START .. COUNT`, from after its first word on. In error, it leaves no run.
pub fn run_line(j: Job, out: &mut [u8], text: &[u8], from: usize) -> Job
    requires { from ≤ length text.now }
{
    let mut none = j;
    none.run = None;
    if !j.has_plan {
        return error(none, out, b"expected a plan before the run");
    }
    let axes = plan_axes(j);
    let words = words::count(text, from);
    if words == 2 {
        return one_start(none, out, text, from, axes);
    }
    if words != axes + 1 {
        return not_each(none, out, axes as u64);
    }
    own_starts(none, out, text, from, axes)
}
