// A line `axes X Y`, or `axes X Y time`.
ghost use Rattle.std.specs.Prelude.{◌≤◌, length};

use crate::run::two_numbers;
use crate::{Job, error};

// Two axes to draw, from 1 or 0 for a day set's leading axis; whether the time of day goes along axis 1, and the number of the line that says so.
#[derive(Clone, Copy)]
pub struct Axes {
    pub x: u64,
    pub y: u64,
    pub is_time: bool,
    pub line: u64,
}

// The axes X and Y in force, with the time of day along axis 1 if `is_time`.
fn put_axes(j: Job, out: &mut [u8], x: u64, y: u64, is_time: bool) -> Job {
    if 6 < x {
        return error(j, out, b"expected X and Y to be at most 6");
    }
    if 6 < y {
        return error(j, out, b"expected X and Y to be at most 6");
    }
    if is_time && x != 1 && y != 1 {
        return error(j, out, b"expected X or Y to be 1, the axis of the time");
    }
    let mut next = j;
    next.axes = Some(Axes {
        x,
        y,
        is_time,
        line: j.line,
    });
    next
}

// Whether the word at a place of a text is `time`.
fn is_time(text: &[u8], from: usize) -> bool
    requires { from ≤ length text.now }
{
    let w = words::find(text, from);
    let start = w.start;
    let end = w.end;
    &text[start..end] == b"time".as_slice()
}

// A line `axes X Y` or `axes X Y time`, from after its first word on. In error, it leaves no axes in force.
pub fn axes_line(j: Job, out: &mut [u8], text: &[u8], from: usize) -> Job
    requires { from ≤ length text.now }
{
    let mut none = j;
    none.axes = None;
    let words = words::count(text, from);
    if words != 2 && words != 3 {
        return error(none, out, b"expected axes X Y or axes X Y time");
    }
    let t = match two_numbers(none, out, text, from, b"X", b"Y") {
        Ok(t) => t,
        Err(failed) => return failed,
    };
    if words == 2 {
        return put_axes(none, out, t.first, t.second, false);
    }
    if !is_time(text, t.end) {
        return error(
            none,
            out,
            b"expected the word time, or nothing, after X and Y",
        );
    }
    put_axes(none, out, t.first, t.second, true)
}
