// A job text of a plan, a run or a day set, two axes and windows, and the picture of its points on these axes, with the windows as frames.
#![tactic(auto)]

ghost use Rattle.std.specs.Prelude.{◌≡◌, ◌≤◌, length};

use job::{Axes, Job, Run};
use lines::Lines;
use std::rt::Stdin;
use svg::Drawing;

// What the lines so far ask for, how many windows of the run are kept, and the number of the line of the first that is not, or 0.
#[derive(Clone, Copy)]
struct Wanted {
    job: Job,
    windows: usize,
    more_at: u64,
}

// No window is kept of a new plan, run or day set.
fn afresh(j: Job) -> Wanted
    ensures { result.windows ≡ 0 }
{
    Wanted {
        job: j,
        windows: 0,
        more_at: 0,
    }
}

// The earlier line, where 0 is none.
fn first(at: u64, line: u64) -> u64 {
    if at == 0 { line } else { at }
}

// Keeps a window in its place: its cuts, and its name with zeros after it.
fn keep(i: usize, cuts: [u64; 14], name: &[u8], kept: &mut [u64], names: &mut [u8])
    requires { (i ≤ 31) × (448 ≤ length kept.old) × (1024 ≤ length names.old) × (length name.now ≤ 32) }
{
    bits::store(kept, 14 * i, &cuts);
    let zeros = [0u8; 32];
    text::put(names, 32 * i, &zeros);
    text::put(names, 32 * i, name);
}

// A line of a window, from after its first word on: the first 32 of a run are kept.
fn window_line(
    p: Wanted,
    out: &mut [u8],
    text: &[u8],
    from: usize,
    kept: &mut [u64],
    names: &mut [u8],
) -> Wanted
    requires { (p.windows ≤ 32) × (from ≤ length text.now) × (448 ≤ length kept.old) × (1024 ≤ length names.old) }
    ensures { result.windows ≤ 32 }
{
    let windows = p.windows;
    let more_at = p.more_at;
    let job = p.job;
    let r = match window_lines::window_line(job, out, text, from) {
        Ok(r) => r,
        Err(failed) => {
            return Wanted {
                job: failed,
                windows,
                more_at,
            };
        }
    };
    if windows == 32 {
        return Wanted {
            job,
            windows,
            more_at: first(more_at, job.line),
        };
    }
    let start = r.start;
    let end = r.end;
    let cuts = r.cuts;
    keep(windows, cuts, &text[start..end], kept, names);
    Wanted {
        job,
        windows: windows + 1,
        more_at,
    }
}

// Does what a line's text asks for.
fn text_line(p: Wanted, out: &mut [u8], text: &[u8], kept: &mut [u64], names: &mut [u8]) -> Wanted
    requires { (p.windows ≤ 32) × (length text.now ≤ 1024) × (448 ≤ length kept.old) × (1024 ≤ length names.old) }
    ensures { result.windows ≤ 32 }
{
    let w = words::find(text, 0);
    let start = w.start;
    let end = w.end;
    let key = &text[start..end];
    if key.len() == 0 {
        return p;
    }
    if key == b"plan".as_slice() {
        return afresh(job::plan_line(p.job, out, text, end));
    }
    if key == b"run".as_slice() {
        return afresh(job::run_line(p.job, out, text, end));
    }
    if key == b"day".as_slice() {
        return afresh(job::day_line(p.job, out, text, end));
    }
    if key == b"window".as_slice() {
        return window_line(p, out, text, end, kept, names);
    }
    let windows = p.windows;
    let more_at = p.more_at;
    if key == b"axes".as_slice() {
        return Wanted {
            job: job::axes_line(p.job, out, text, end),
            windows,
            more_at,
        };
    }
    Wanted {
        job: job::error(p.job, out, b"expected plan, run, day, window, axes or #"),
        windows,
        more_at,
    }
}

// Reads the next line, and does what it asks for.
fn line(
    stdin: Stdin,
    p: Wanted,
    chunk: &mut [u8],
    held: &mut [u8],
    out: &mut [u8],
    kept: &mut [u64],
    names: &mut [u8],
) -> Wanted
    requires { (p.windows ≤ 32) × (1 ≤ length chunk.old) × (1024 ≤ length held.old) × (448 ≤ length kept.old) × (1024 ≤ length names.old) }
    ensures { result.windows ≤ 32 }
{
    let j = job::read(stdin, p.job, chunk, held, out);
    let l = j.lines;
    let windows = p.windows;
    let more_at = p.more_at;
    if l.is_over {
        return Wanted {
            job: j,
            windows,
            more_at,
        };
    }
    if 1024 < l.size {
        return Wanted {
            job: job::too_long(j, out, lines::text(l, held)),
            windows,
            more_at,
        };
    }
    let now = Wanted {
        job: j,
        windows,
        more_at,
    };
    text_line(now, out, lines::text(l, held), kept, names)
}

// Too many points to draw.
fn too_many(j: Job, out: &mut [u8], is_day: bool) -> Job {
    if is_day {
        return job::error(
            j,
            out,
            b"expected a day set of at most 100000 points to draw",
        );
    }
    job::error(j, out, b"expected a run of at most 100000 points to draw")
}

// The job, and an error of the run's or the day set's line if there are too many points.
fn sized(j: Job, out: &mut [u8], run: Run) -> Job {
    let s = j.state;
    if s.count <= 100000 {
        return j;
    }
    let mut at = j;
    at.line = run.line;
    let mut next = too_many(at, out, run.is_day);
    next.line = j.line;
    next
}

// Axes that the plan does not have.
fn no_axes(j: Job, out: &mut [u8], line: u64, axes: u64) -> Job {
    let mut at = j;
    at.line = line;
    let begun = job::fail(at, out);
    job::end_number(
        begun,
        out,
        b"expected X and Y to be at most the number of the plan's axes, ",
        axes,
    )
}

// Axis 0, but no day set.
fn no_leading(j: Job, out: &mut [u8], line: u64) -> Job {
    let mut at = j;
    at.line = line;
    job::error(
        at,
        out,
        b"expected X and Y to be 1 or more: the plan's axes count from 1, and 0 is the leading axis of a day set",
    )
}

// Whether axis 0 is to be drawn.
fn has_leading(axes: Axes) -> bool {
    axes.x == 0 || axes.y == 0
}

// The job, and an error if the plan or the day set has no such axes.
fn with_axes(j: Job, out: &mut [u8], run: Run, axes: Axes) -> Job {
    if !run.is_day && has_leading(axes) {
        return no_leading(j, out, axes.line);
    }
    let s = j.state;
    let all = s.axes as u64;
    if all < axes.x || all < axes.y {
        return no_axes(j, out, axes.line, all);
    }
    j
}

// What is drawn: a run or a day set, and two axes.
#[derive(Clone, Copy)]
struct Drawn {
    run: Run,
    axes: Axes,
}

// What is drawn at the input's end; or the job with its errors, if a line was in error, or the run or the axes cannot be drawn.
fn checked(j: Job, out: &mut [u8]) -> Result<Drawn, Job> {
    if j.errors != 0 {
        return Err(j);
    }
    let Some(run) = j.run else {
        return Err(job::error(j, out, b"expected a plan and a run or a day set to draw"));
    };
    let few = sized(j, out, run);
    let Some(axes) = j.axes else {
        return Err(job::error(few, out, b"expected axes X Y to draw"));
    };
    let there = with_axes(few, out, run, axes);
    if there.errors != 0 {
        return Err(there);
    }
    Ok(Drawn { run, axes })
}

// Says in a remark that some windows are not drawn, if so.
fn remark(l: Lines, out: &mut [u8], more_at: u64) -> Lines {
    if more_at == 0 {
        return l;
    }
    lines::put_between(
        l,
        out,
        b"<!-- line ",
        more_at,
        b": only the first 32 windows are drawn -->\n",
    )
}

// Draws what the lines ask for; if one was in error, nothing beside the errors.
fn draw(p: Wanted, out: &mut [u8], kept: &[u64], names: &[u8]) -> Lines
    requires { (p.windows ≤ 32) × (448 ≤ length kept.now) × (1024 ≤ length names.now) }
{
    let j = p.job;
    let drawn = match checked(j, out) {
        Ok(drawn) => drawn,
        Err(failed) => {
            let all = job::more_errors(failed, out);
            return all.lines;
        }
    };
    let s = j.state;
    let run = drawn.run;
    let axes = drawn.axes;
    let d = Drawing {
        state: s,
        is_day: run.is_day,
        x: axes.x,
        y: axes.y,
        is_time: axes.is_time,
        windows: p.windows,
    };
    let said = remark(j.lines, out, p.more_at);
    svg::draw(said, out, d, kept, names)
}

// At the input's end: draws, and ends the picture.
fn end(p: Wanted, out: &mut [u8], kept: &[u64], names: &[u8])
    requires { (p.windows ≤ 32) × (448 ≤ length kept.now) × (1024 ≤ length names.now) }
{
    let drawn = draw(p, out, kept, names);
    lines::finish(svg::tail(drawn, out), out);
}

// The program `plot`: reads a plan, a run or a day set, two axes and windows from standard input, and draws. A proved loop has to end, and nothing
// says that the input does: so the loop over the lines has a number of turns that no run uses up.
pub fn plot(stdin: Stdin) {
    let mut chunk = io::buffer();
    let mut held = [0u8; 1024];
    let mut out = [0u8; 16448];
    let mut kept = [0u64; 448];
    let mut names = [0u8; 1024];
    let mut j = job::new(true);
    j.lines = svg::head(j.lines, &mut out);
    let mut p = afresh(j);
    for _ in 0..u64::MAX {
        p = line(
            stdin, p, &mut chunk, &mut held, &mut out, &mut kept, &mut names,
        );
        if p.job.lines.is_over {
            break;
        }
    }
    end(p, &mut out, &kept, &names);
}
