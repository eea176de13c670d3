// Reads plans, runs, day sets and windows as text from standard input, and prints each window's weight: the share of the points that are inside,
// the window's volume, and how far the one may lie from the other.
#![tactic(auto)]

mod row;

ghost use Rattle.std.specs.Prelude.{◌≡◌, ◌≤◌, length};
ghost use Rattle.weights.specs.Answered.{Answered};

use job::Job;
use lines::{Lines, put};
use row::Row;
use sampler::{Counted, DaySet, Sampler};
use std::rt::Stdin;

// What the columns are.
fn head(l: Lines, out: &mut [u8]) -> Lines {
    let first = put(
        l,
        out,
        b"# A row for each window, with the number of its line: inside of count points are in the window.\n# share = inside / count, to the nearest in the ninth decimal, halves up. volume = the product of the window's cuts, to the nearest.\n",
    );
    let second = put(
        first,
        out,
        b"# difference = share - volume, as printed. limit = bound / count, up in the ninth decimal: the share lies less than this from the volume.\n",
    );
    put(
        second,
        out,
        b"#  line      inside       count                 bound        share       volume    difference                           limit  name\n",
    )
}

// How many points of the run, or of the day set, are inside a window, and the bound.
fn counted(s: Sampler, is_day: bool, w: &[u64]) -> Counted
    ensures { result.code ≡ 0 → Answered s w.now result }
{
    if is_day {
        return sampler::day_count(DaySet { run: s }, w);
    }
    sampler::count_by_strips(s, w)
}

// Counts a window, and prints its row.
fn count(j: Job, out: &mut [u8], w: &[u64], name: &[u8]) -> Job {
    let s = j.state;
    let r = counted(s, job::is_day(j), w);
    if r.code != 0 {
        let begun = job::fail(j, out);
        return job::end_number(begun, out, b"the window is refused: ", r.code);
    }
    let row = Row {
        line: j.line,
        inside: r.inside,
        count: s.count,
        bound: r.bound,
        claims: s.family != 2,
        volume: volumes::volume(w, w.len() / 2),
    };
    let mut next = j;
    next.lines = row::put_row(j.lines, out, row, name);
    next
}

// A line of a window, from after its first word on.
fn window_line(j: Job, out: &mut [u8], text: &[u8], from: usize) -> Job
    requires { from ≤ length text.now }
{
    let r = match window_lines::window_line(j, out, text, from) {
        Ok(r) => r,
        Err(failed) => return failed,
    };
    let start = r.start;
    let name_end = r.end;
    let cuts = r.cuts;
    let end = 2 * r.axes;
    count(j, out, &cuts[0..end], &text[start..name_end])
}

// Does what a line's text asks for.
fn text_line(j: Job, out: &mut [u8], text: &[u8]) -> Job
    requires { length text.now ≤ 1024 }
{
    let w = words::find(text, 0);
    let start = w.start;
    let end = w.end;
    let key = &text[start..end];
    if key.len() == 0 {
        return j;
    }
    if key == b"plan".as_slice() {
        return job::plan_line(j, out, text, end);
    }
    if key == b"run".as_slice() {
        return job::run_line(j, out, text, end);
    }
    if key == b"day".as_slice() {
        return job::day_line(j, out, text, end);
    }
    if key == b"axes".as_slice() {
        return job::axes_line(j, out, text, end);
    }
    if key == b"window".as_slice() {
        return window_line(j, out, text, end);
    }
    job::error(j, out, b"expected plan, run, day, window, axes or #")
}

// Reads the next line, and does what it asks for.
fn line(stdin: Stdin, before: Job, chunk: &mut [u8], kept: &mut [u8], out: &mut [u8]) -> Job
    requires { (1 ≤ length chunk.old) × (1024 ≤ length kept.old) }
{
    let j = job::read(stdin, before, chunk, kept, out);
    let l = j.lines;
    if l.is_over {
        return j;
    }
    if 1024 < l.size {
        return job::too_long(j, out, lines::text(l, kept));
    }
    text_line(j, out, lines::text(l, kept))
}

// How many lines were in error: there is no other sign of it, as a program has no exit status.
fn tail(j: Job, out: &mut [u8]) {
    let l = lines::put_between(j.lines, out, b"# errors: ", j.errors, b"\n");
    lines::finish(l, out);
}

// A proved loop has to end, and nothing says that the input does: so the loop over the lines has a number of turns that no run uses up.
fn main(rt: HostRuntime) {
    let stdin = rt.stdin();
    let mut chunk = io::buffer();
    let mut kept = [0u8; 1024];
    let mut out = [0u8; 16384];
    let mut j = job::new(false);
    j.lines = head(j.lines, &mut out);
    for _ in 0..u64::MAX {
        j = line(stdin, j, &mut chunk, &mut kept, &mut out);
        if j.lines.is_over {
            break;
        }
    }
    tail(j, &mut out);
}
