// The windows as frames: rectangles from 0 to the cuts on the two axes drawn.
ghost use Rattle.std.specs.Prelude.{◌<◌, ◌≤◌, length};

use crate::drawn::{place, word};
use crate::{Drawing, place_of};
use lines::{Lines, put};

// The place of a cut on an axis, in hundredths of a unit.
fn cut(u: u64, q: u64) -> u64
    ensures { result ≤ 100000 }
{
    if 16777216 < q {
        return 100000;
    }
    place(u, q)
}

// Where the cut at a place lies of a window's u and q of each axis in turn.
fn cut_at(w: &[u64], i: u64) -> u64
    ensures { result ≤ 100000 }
{
    if 6 < i {
        return 100000;
    }
    let k = 2 * i as usize;
    cut(word(w, k), word(w, k + 1))
}

// A frame, whose corner is at hundredths of a unit from the left and from the top.
fn frame(l: Lines, out: &mut [u8], left: u64, top: u64) -> Lines {
    let mut text =
        *b"<path d=\"M0 1000V0000.00H0000.00V1000Z\" fill=\"none\" stroke=\"#b3400a\" stroke-width=\"3\"/>\n";
    text::put_digits(&mut text, 17, 4, top / 100);
    text::put_digits(&mut text, 22, 2, top % 100);
    text::put_digits(&mut text, 25, 4, left / 100);
    text::put_digits(&mut text, 30, 2, left % 100);
    put(l, out, &text)
}

// A byte of a name; what SVG takes for its own is spelled.
fn letter(l: Lines, out: &mut [u8], b: u8) -> Lines {
    match b {
        38 => put(l, out, b"&amp;"),
        60 => put(l, out, b"&lt;"),
        62 => put(l, out, b"&gt;"),
        _ => put(l, out, &[b; 1]),
    }
}

// A name, letter by letter, up to a byte 0.
fn letters(l: Lines, out: &mut [u8], name: &[u8]) -> Lines {
    let mut next = l;
    for b in name {
        if *b == 0 {
            return next;
        }
        next = letter(next, out, *b);
    }
    next
}

// The place of a name: beside the corner of its frame, inside it if the corner is in the right half.
fn begin_name(l: Lines, out: &mut [u8], left: u64, top: u64) -> Lines {
    let mut text = *b"<text x=\"0000.00\" y=\"0000.00\" dy=\"1em\" fill=\"#b3400a\"";
    text::put_digits(&mut text, 9, 4, left / 100);
    text::put_digits(&mut text, 14, 2, left % 100);
    text::put_digits(&mut text, 21, 4, top / 100);
    text::put_digits(&mut text, 26, 2, top % 100);
    let placed = put(l, out, &text);
    if left <= 50000 {
        return put(placed, out, b" dx=\"6\">");
    }
    put(placed, out, b" dx=\"-6\" text-anchor=\"end\">")
}

// A frame with its name, if it has one.
fn named(l: Lines, out: &mut [u8], left: u64, top: u64, name: &[u8]) -> Lines
    requires { 1 ≤ length name.now }
{
    let framed = frame(l, out, left, top);
    if name[0] == 0 {
        return framed;
    }
    let begun = begin_name(framed, out, left, top);
    put(letters(begun, out, name), out, b"</text>\n")
}

// The frame of window `i`.
fn window(l: Lines, out: &mut [u8], d: Drawing, i: usize, cuts: &[u64], names: &[u8]) -> Lines
    requires { (i < 32) × (448 ≤ length cuts.now) × (1024 ≤ length names.now) }
{
    let from = 14 * i;
    let to = from + 14;
    let left = cut_at(&cuts[from..to], place_of(d, d.x));
    let up = cut_at(&cuts[from..to], place_of(d, d.y));
    let begin = 32 * i;
    let end = begin + 32;
    named(l, out, left, 100000 - up, &names[begin..end])
}

// The frames of all windows.
pub fn all(l: Lines, out: &mut [u8], d: Drawing, cuts: &[u64], names: &[u8]) -> Lines
    requires { (d.windows ≤ 32) × (448 ≤ length cuts.now) × (1024 ≤ length names.now) }
{
    let mut next = l;
    for i in 0..d.windows {
        next = window(next, out, d, i, cuts, names);
    }
    next
}
