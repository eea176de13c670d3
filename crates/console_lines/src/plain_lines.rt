// Lines whose call is lent nothing.
use crate::Held;
use console_text::Console;

// `second INDEX`.
pub fn second(c: Console, out: &mut [u8], rest: &[u8]) -> Console {
    let mut n = [0u64; 1];
    if let Err(e) = console_text::read_numbers(rest, &mut n) {
        return console_text::misread(c, out, b"second INDEX", e);
    }
    console_calls::second(c, out, n[0])
}

// `slot INDEX AXIS SLOTS`.
pub fn slot(c: Console, out: &mut [u8], rest: &[u8]) -> Console {
    let mut n = [0u64; 3];
    if let Err(e) = console_text::read_numbers(rest, &mut n) {
        return console_text::misread(c, out, b"slot INDEX AXIS SLOTS", e);
    }
    console_calls::slot(c, out, n[0], n[1], n[2])
}

// `day N`.
pub fn day(c: Console, out: &mut [u8], rest: &[u8]) -> Console {
    let mut n = [0u64; 1];
    if let Err(e) = console_text::read_numbers(rest, &mut n) {
        return console_text::misread(c, out, b"day N", e);
    }
    console_day::make(c, out, n[0])
}

// A count: of the console's run, walked or by strips, or of its day set.
#[derive(Clone, Copy)]
pub enum Counting {
    Walked,
    ByStrips,
    DaySet,
}

// Counts the window of a line's words.
fn window(
    c: Console,
    out: &mut [u8],
    which: Counting,
    form: &[u8],
    rest: &[u8],
    n: &mut [u64],
) -> Console {
    if let Err(e) = console_text::read_numbers(rest, n) {
        return console_text::misread(c, out, form, e);
    }
    if let Counting::DaySet = which {
        return console_day::count(c, out, n);
    }
    if let Counting::ByStrips = which {
        return console_calls::strips(c, out, n);
    }
    console_calls::count(c, out, n)
}

// `count U Q U Q ..`, `strips U Q U Q ..`, `daycount U Q U Q ..`: a window of any words. A line has less than 512.
pub fn count(c: Console, out: &mut [u8], which: Counting, form: &[u8], rest: &[u8]) -> Console {
    let k = words::count(rest, 0);
    if 512 < k {
        return console_text::error(c, out, b"at most 512 numbers");
    }
    let mut n = [0u64; 512];
    window(c, out, which, form, rest, &mut n[..k])
}

// `state`, `daystate`.
pub fn state(c: Console, out: &mut [u8], of: Held, form: &[u8], rest: &[u8]) -> Console {
    if let Err(e) = console_text::read_numbers(rest, &mut []) {
        return console_text::misread(c, out, form, e);
    }
    if let Held::DaySet = of {
        let d = c.day;
        return console_calls::show(c, out, b"daystate", d.run);
    }
    console_calls::show(c, out, b"state", c.state)
}

// `poke PLACE VALUE`, `daypoke PLACE VALUE`.
pub fn poke(c: Console, out: &mut [u8], of: Held, form: &[u8], rest: &[u8]) -> Console {
    let mut n = [0u64; 2];
    if let Err(e) = console_text::read_numbers(rest, &mut n) {
        return console_text::misread(c, out, form, e);
    }
    if 219 < n[0] {
        return console_text::error(c, out, b"PLACE to be at most 219");
    }
    if let Held::DaySet = of {
        return console_day::poke(c, out, n[0] as usize, n[1]);
    }
    console_calls::poke(c, out, n[0] as usize, n[1])
}

// `blank`, `dayblank`.
pub fn blank(c: Console, out: &mut [u8], of: Held, form: &[u8], rest: &[u8]) -> Console {
    if let Err(e) = console_text::read_numbers(rest, &mut []) {
        return console_text::misread(c, out, form, e);
    }
    if let Held::DaySet = of {
        return console_day::clear(c, out);
    }
    console_calls::clear(c, out)
}
