// A job text, line by line: what the programs share. A line `plan ..` puts a plan in force, a line `run START .. COUNT` opens a run of it, a line
// `day N` makes a day set of it in the place of a run, and a line `axes X Y` names two axes to draw; the state that they leave, and the errors,
// which are lines of the output.
#![tactic(auto)]

mod axes;
mod day;
mod plans;
mod report;
mod run;

ghost use Rattle.std.specs.Prelude.{◌≡◌, false, ◌≤◌, MatchOption, length};

pub use axes::{Axes, axes_line};
pub use day::day_line;
use lines::Lines;
pub use plans::plan_line;
pub use report::{end, end_number, error, fail, more_errors, say, say_between};
pub use run::{Run, run_line};
use sampler::Sampler;
use std::rt::Stdin;

// What the lines so far leave: the input and the output; whether errors are texts of a picture; the number of the line at hand, how many lines
// were in error, and whether the error at hand is not shown; whether a plan is in force, which run or day set of it is, and the sampler that has them;
// and which axes to draw.
// The sampler is no Option: it has 1.7 KiB, and what comes after the test that a plan is in force reads it in its place.
#[derive(Clone, Copy)]
pub struct Job {
    pub lines: Lines,
    pub is_picture: bool,
    pub line: u64,
    pub errors: u64,
    pub is_quiet: bool,
    pub has_plan: bool,
    pub state: Sampler,
    pub run: Option<Run>,
    pub axes: Option<Axes>,
}

// Before the first line.
pub fn new(is_picture: bool) -> Job {
    Job {
        lines: lines::start(),
        is_picture,
        line: 0,
        errors: 0,
        is_quiet: false,
        has_plan: false,
        state: sampler::blank_state(),
        run: None,
        axes: None,
    }
}

// Whether a day set is in force.
pub fn is_day(j: Job) -> bool
    ensures { MatchOption j.run (result ≡ false) (λ r. result ≡ r.is_day) }
{
    match j.run {
        Some(run) => run.is_day,
        None => false,
    }
}

// Reads the next line. That the input cannot be read to its end is an error.
pub fn read(stdin: Stdin, j: Job, chunk: &mut [u8], line: &mut [u8], out: &mut [u8]) -> Job
    requires { (1 ≤ length chunk.old) × (1024 ≤ length line.old) }
{
    let mut next = j;
    next.lines = lines::next(stdin, j.lines, chunk, line, out);
    next.line = std::num::wrapping_add_u64(j.line, 1);
    if next.lines.is_broken {
        return error(next, out, b"the input cannot be read to its end");
    }
    next
}

// A line of which only the first 1,024 bytes were kept. If it was to give a plan, a run, a day set or axes, that is not in force.
pub fn too_long(j: Job, out: &mut [u8], text: &[u8]) -> Job {
    let w = words::find(text, 0);
    let start = w.start;
    let end = w.end;
    let key = &text[start..end];
    let mut next = j;
    if key == b"plan".as_slice() {
        next.has_plan = false;
        next.run = None;
    }
    if key == b"run".as_slice() {
        next.run = None;
    }
    if key == b"day".as_slice() {
        next.run = None;
    }
    if key == b"axes".as_slice() {
        next.axes = None;
    }
    error(
        next,
        out,
        b"expected at most 1024 bytes in a line, before a comment",
    )
}
