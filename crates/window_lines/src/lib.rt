// A line `window U/Q U/Q ..`, with one cut for each axis, for a day set also one for its leading axis, before them, or
// `window NAME = U/Q U/Q ..`: the window's cuts and its name, or what is wrong with them.
#![tactic(auto)]

mod cuts;

ghost use Rattle.std.specs.Prelude.{◌+◌, ◌≤◌, IfOk, length};
ghost use Rattle.window_lines.specs.Within.{Within};

use cuts::read_cuts;
use job::Job;

// A window: the places of its name in the text, which are the same where it has none; how many axes it cuts, and u and q of each in turn.
#[derive(Clone, Copy)]
pub struct WindowRead {
    pub start: usize,
    pub end: usize,
    pub axes: usize,
    pub cuts: [u64; 14],
}

// The places of a name in a text, which are the same where there is none, and where the cuts begin.
#[derive(Clone, Copy)]
struct Name {
    start: usize,
    end: usize,
    after: usize,
}

// The name from `from` on: the word before a word `=`, and not itself `=`.
fn find_name(text: &[u8], from: usize) -> Name
    requires { from ≤ length text.now }
    ensures { (result.start ≤ result.end) × (result.end ≤ length text.now) × (result.after ≤ length text.now) }
{
    let w = words::find(text, from);
    let start = w.start;
    let end = w.end;
    let v = words::find(text, end);
    let a = v.start;
    let e = v.end;
    if &text[a..e] == b"=".as_slice() {
        if &text[start..end] != b"=".as_slice() {
            return Name {
                start,
                end,
                after: e,
            };
        }
    }
    Name {
        start: from,
        end: from,
        after: from,
    }
}

// Whether one of the words from `from` on is `=`.
fn has_sign(text: &[u8], from: usize) -> bool
    requires { from ≤ length text.now }
{
    let mut at = from;
    while at < text.len() {
        let w = words::find(text, at);
        let start = w.start;
        let end = w.end;
        if start == end {
            return false;
        }
        if &text[start..end] == b"=".as_slice() {
            return true;
        }
        at = end;
    }
    false
}

// Whether all bytes of a word are printable ASCII.
fn is_printable(word: &[u8]) -> bool {
    word.iter().all(|b| b.is_ascii_graphic())
}

// Not a name.
fn bad_name(j: Job, out: &mut [u8]) -> Job {
    job::error(
        j,
        out,
        b"expected a name of at most 32 printable ASCII characters",
    )
}

// Says which cuts a window is to have, of a plan of so many axes.
fn say_cuts(j: Job, out: &mut [u8], axes: u64) -> Job {
    if job::is_day(j) {
        return job::say_between(
            j,
            out,
            b"expected a cut U/Q for the leading axis and for each of the ",
            axes,
            b" axes",
        );
    }
    job::say_between(
        j,
        out,
        b"expected a cut U/Q for each of the ",
        axes,
        b" axes",
    )
}

// Not one cut for each axis.
fn not_each(j: Job, out: &mut [u8], axes: usize, got: usize) -> Job {
    let begun = job::fail(j, out);
    let said = say_cuts(begun, out, axes as u64);
    job::end_number(said, out, b", got ", got as u64)
}

// How many cuts a window has, of a plan of so many axes: one for each, and one for a day set's leading axis.
fn cut_count(j: Job, axes: usize) -> usize {
    if job::is_day(j) {
        return std::num::wrapping_add_usize(axes, 1);
    }
    axes
}

// The window of a named or nameless line, with as many cuts as there are axes; or the job with the error that it has none.
fn read_window(j: Job, out: &mut [u8], text: &[u8], n: Name) -> Result<WindowRead, Job>
    requires { (n.start ≤ n.end) × (n.end ≤ n.start + 32) × (n.end ≤ length text.now) × (n.after ≤ length text.now) }
    ensures { IfOk result (λ r. Within r (length text.now)) }
{
    let s = j.state;
    let axes = s.axes;
    let got = words::count(text, n.after);
    if got != cut_count(j, axes) {
        return Err(not_each(j, out, axes, got));
    }
    let c = match read_cuts(text, n.after) {
        Ok(c) => c,
        Err(bad) => return Err(cuts::bad_cut(j, out, bad)),
    };
    let all = c.cuts;
    Ok(WindowRead {
        start: n.start,
        end: n.end,
        axes: c.axes,
        cuts: all,
    })
}

// A line of a window, from after its first word on; or the job with the error that it is none.
pub fn window_line(j: Job, out: &mut [u8], text: &[u8], from: usize) -> Result<WindowRead, Job>
    requires { from ≤ length text.now }
    ensures { IfOk result (λ r. Within r (length text.now)) }
{
    if !j.has_plan {
        return Err(job::error(j, out, b"expected a plan before the window"));
    }
    if j.run.is_none() {
        return Err(job::error(j, out, b"expected a run or a day set before the window"));
    }
    let n = find_name(text, from);
    if has_sign(text, n.after) {
        return Err(job::error(j, out, b"expected one word before ="));
    }
    let start = n.start;
    let end = n.end;
    if 32 < end - start {
        return Err(bad_name(j, out));
    }
    if !is_printable(&text[start..end]) {
        return Err(bad_name(j, out));
    }
    read_window(j, out, text, n)
}
