// A line `day N`.
ghost use Rattle.std.specs.Prelude.{◌≤◌, length};

use crate::run::{Run, named_number};
use crate::{Job, error};

// Makes the day set of `size` points.
fn make(j: Job, out: &mut [u8], size: u64) -> Job {
    let s = j.state;
    let r = sampler::make_day_set(s, size);
    if r.code != 0 {
        return error(j, out, b"the day set is refused: 11, N is above 4294967296");
    }
    let set = r.set;
    let t = set.run;
    let mut next = j;
    next.run = Some(Run {
        is_day: true,
        line: j.line,
    });
    next.state = t;
    next
}

// A line `day N`, from after its first word on. In error, it leaves no run.
pub fn day_line(j: Job, out: &mut [u8], text: &[u8], from: usize) -> Job
    requires { from ≤ length text.now }
{
    let mut none = j;
    none.run = None;
    if !j.has_plan {
        return error(none, out, b"expected a plan before the day set");
    }
    if words::count(text, from) != 1 {
        return error(none, out, b"expected day N, a decimal number");
    }
    let w = words::find(text, from);
    let start = w.start;
    let end = w.end;
    let size = match named_number(none, out, &text[start..end], b"N") {
        Ok(n) => n,
        Err(failed) => return failed,
    };
    make(none, out, size)
}
