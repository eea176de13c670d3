// The names around the picture: the plan and the run, the axes, and the numbers along them.
use crate::Drawing;
use lines::{Lines, put, put_between};
use sampler::Sampler;

// ---- the plan and the run

// The number of an axis, from 0: its base, or its polynomial; that of degree 0, which is 1, is written 0.
fn number(s: Sampler, i: u64) -> u64 {
    if s.family != 2 {
        let all = s.bases;
        return sixth(all, i);
    }
    let polynomials = s.polynomials;
    let p = sixth(polynomials, i);
    if p == 1 { 0 } else { p }
}

// The start of an axis, from 0, or its number.
fn of_axis(s: Sampler, starts: bool, i: u64) -> u64 {
    if !starts {
        return number(s, i);
    }
    let all = s.starts;
    sixth(all, i)
}

// The starts of a run's axes, or the numbers of its plan's.
fn axes(l: Lines, out: &mut [u8], s: Sampler, starts: bool) -> Lines {
    let mut next = l;
    for i in 0..s.axes as u64 {
        next = put_between(next, out, b" ", of_axis(s, starts, i), b"");
    }
    next
}

// The family, and the bases or the polynomials.
fn plan(l: Lines, out: &mut [u8], s: Sampler) -> Lines {
    let family = s.family;
    match family {
        0 => axes(put(l, out, b"Halton, bases"), out, s, false),
        1 => axes(put(l, out, b"Permuted Halton, bases"), out, s, false),
        2 => axes(put(l, out, b"Sobol"), out, s, false),
        _ => axes(put(l, out, b"Kocis-Whiten Halton, bases"), out, s, false),
    }
}

// The size of a day set.
fn day_set(l: Lines, out: &mut [u8], size: u64) -> Lines {
    if size == 1 {
        return put(l, out, b"day set of 1 point");
    }
    put_between(l, out, b"day set of ", size, b" points")
}

// Whether all axes have one start.
fn has_one_start(s: Sampler) -> bool {
    let starts = s.starts;
    (1..s.axes as u64).all(|i| sixth(starts, i) == starts[0])
}

// The one start of all axes, or the start of each.
fn starts(l: Lines, out: &mut [u8], s: Sampler) -> Lines {
    if !has_one_start(s) {
        return axes(put(l, out, b"starts"), out, s, true);
    }
    let all = s.starts;
    put_between(l, out, b"start ", all[0], b"")
}

// The run, or the day set.
fn run(l: Lines, out: &mut [u8], d: Drawing) -> Lines {
    let s = d.state;
    if d.is_day {
        return day_set(l, out, s.count);
    }
    let begun = starts(l, out, s);
    put_between(begun, out, b", count ", s.count, b"")
}

// The plan and the run, as the picture's title.
pub fn title(l: Lines, out: &mut [u8], d: Drawing) -> Lines {
    let begun = plan(put(l, out, b"<title>"), out, d.state);
    let parted = put(begun, out, b", ");
    end_title(parted, out, d)
}

// The run, and the title's end.
fn end_title(l: Lines, out: &mut [u8], d: Drawing) -> Lines {
    let named = run(l, out, d);
    put(named, out, b"</title>\n")
}

// The plan above the picture.
fn plan_text(l: Lines, out: &mut [u8], s: Sampler) -> Lines {
    let begun = put(
        l,
        out,
        b"<text x=\"500\" y=\"-48\" font-size=\"34\" text-anchor=\"middle\" fill=\"#222\">",
    );
    let named = plan(begun, out, s);
    put(named, out, b"</text>\n")
}

// The beginning of the run above the picture; smaller where each axis has a start of its own, so that six have room.
fn begin_run(l: Lines, out: &mut [u8], s: Sampler) -> Lines {
    let begun = put(
        l,
        out,
        b"<text x=\"500\" y=\"-14\" text-anchor=\"middle\" fill=\"#222\"",
    );
    if has_one_start(s) {
        return put(begun, out, b">");
    }
    put(begun, out, b" font-size=\"22\">")
}

// The run above the picture.
fn run_text(l: Lines, out: &mut [u8], d: Drawing) -> Lines {
    let begun = begin_run(l, out, d.state);
    let named = run(begun, out, d);
    put(named, out, b"</text>\n")
}

// ---- the axes

// A power of x.
fn power(l: Lines, out: &mut [u8], k: u64) -> Lines {
    match k {
        0 => put(l, out, b"1"),
        1 => put(l, out, b"x"),
        _ => put_between(l, out, b"x^", k, b""),
    }
}

// The term x^k of a polynomial that is `high` from there on, if it has it; a sign before it if it is not the first.
fn term(l: Lines, out: &mut [u8], high: u64, k: u64) -> Lines {
    if high % 2 == 0 {
        return l;
    }
    if high == 1 {
        return power(l, out, k);
    }
    power(put(l, out, b" + "), out, k)
}

// A polynomial of degree 12 at most, the highest power first.
fn polynomial(l: Lines, out: &mut [u8], p: u64) -> Lines {
    let mut next = l;
    for k in (0..13).rev() {
        next = term(next, out, p >> k, k);
    }
    next
}

// An axis's polynomial; the binary axis, whose polynomial is 1, has none.
fn sobol(l: Lines, out: &mut [u8], p: u64) -> Lines {
    let begun = put(l, out, b"Sobol, ");
    if p == 1 {
        return put(begun, out, b"binary");
    }
    polynomial(begun, out, p)
}

// The word at a place of six, 0 beyond them.
pub fn sixth(words: [u64; 6], i: u64) -> u64 {
    if i < 6 { words[i as usize] } else { 0 }
}

// The name of an axis of the plan, from 1: its base, or its polynomial.
fn plan_axis(l: Lines, out: &mut [u8], s: Sampler, x: u64) -> Lines {
    let i = std::num::wrapping_sub_u64(x, 1);
    let begun = put_between(l, out, b"axis ", x, b" (");
    if s.family == 2 {
        let polynomials = s.polynomials;
        let named = sobol(begun, out, sixth(polynomials, i));
        return put(named, out, b")</text>\n");
    }
    let all = s.bases;
    put_between(begun, out, b"base ", sixth(all, i), b")</text>\n")
}

// The name of an axis; axis 0 leads a day set, and has the fractions n / N.
fn axis(l: Lines, out: &mut [u8], s: Sampler, x: u64) -> Lines {
    if x == 0 {
        return put_between(l, out, b"axis 0 (leading, n/", s.count, b")</text>\n");
    }
    plan_axis(l, out, s, x)
}

// The name of the first axis drawn.
fn axis_below(l: Lines, out: &mut [u8], d: Drawing) -> Lines {
    let s = d.state;
    let begun = put(
        l,
        out,
        b"<g font-size=\"32\" text-anchor=\"middle\" fill=\"#222\">\n<text x=\"500\" y=\"1084\">",
    );
    axis(begun, out, s, d.x)
}

// The name of the second axis drawn.
fn axis_beside(l: Lines, out: &mut [u8], d: Drawing) -> Lines {
    let s = d.state;
    let begun = put(
        l,
        out,
        b"<text transform=\"translate(-88 500) rotate(-90)\">",
    );
    let named = axis(begun, out, s, d.y);
    put(named, out, b"</g>\n")
}

// ---- the numbers along the axes

// Along the first axis drawn: quarters, or times of day.
fn along(l: Lines, out: &mut [u8], is_time: bool) -> Lines {
    let begun = put(l, out, b"<g fill=\"#444\" text-anchor=\"middle\">");
    if is_time {
        return put(
            begun,
            out,
            b"<text x=\"0\" y=\"1034\">0:00</text><text x=\"250\" y=\"1034\">6:00</text><text x=\"500\" y=\"1034\">12:00</text><text x=\"750\" y=\"1034\">18:00</text><text x=\"1000\" y=\"1034\">24:00</text></g>\n",
        );
    }
    put(
        begun,
        out,
        b"<text x=\"0\" y=\"1034\">0</text><text x=\"250\" y=\"1034\">1/4</text><text x=\"500\" y=\"1034\">1/2</text><text x=\"750\" y=\"1034\">3/4</text><text x=\"1000\" y=\"1034\">1</text></g>\n",
    )
}

// Beside the second axis drawn: the same.
fn beside(l: Lines, out: &mut [u8], is_time: bool) -> Lines {
    let begun = put(l, out, b"<g fill=\"#444\" text-anchor=\"end\">");
    if is_time {
        return put(
            begun,
            out,
            b"<text x=\"-8\" y=\"1009\">0:00</text><text x=\"-8\" y=\"759\">6:00</text><text x=\"-8\" y=\"509\">12:00</text><text x=\"-8\" y=\"259\">18:00</text><text x=\"-8\" y=\"9\">24:00</text></g>\n",
        );
    }
    put(
        begun,
        out,
        b"<text x=\"-12\" y=\"1009\">0</text><text x=\"-12\" y=\"759\">1/4</text><text x=\"-12\" y=\"509\">1/2</text><text x=\"-12\" y=\"259\">3/4</text><text x=\"-12\" y=\"9\">1</text></g>\n",
    )
}

// Whether the time of day goes along an axis.
fn has_time(d: Drawing, axis: u64) -> bool {
    if axis == 1 { d.is_time } else { false }
}

// The numbers along both axes.
fn numbers(l: Lines, out: &mut [u8], d: Drawing) -> Lines {
    let first = along(l, out, has_time(d, d.x));
    beside(first, out, has_time(d, d.y))
}

// The names above, below and beside the picture.
fn texts(l: Lines, out: &mut [u8], d: Drawing) -> Lines {
    let planned = plan_text(l, out, d.state);
    let headed = run_text(planned, out, d);
    let below = axis_below(headed, out, d);
    axis_beside(below, out, d)
}

// All that stands around the picture.
pub fn around(l: Lines, out: &mut [u8], d: Drawing) -> Lines {
    let numbered = numbers(l, out, d);
    texts(numbered, out, d)
}
