// The points of a run, or of a day set.
ghost use Rattle.std.specs.Prelude.{◌^◌, ◌<◌, ◌≤◌};

use crate::names::sixth;
use crate::{Drawing, place_of};
use lines::{Lines, put};
use sampler::{Blocked, DaySet, Sampler};

// The denominator of an axis: that of its base, or 2^32 where it has none.
fn denominator(base: u64) -> u64
    ensures { result < 2 ^ 40 }
{
    if base < 2 {
        return 4294967296;
    }
    if 256 < base {
        return 4294967296;
    }
    numbers::denominator(base)
}

// The denominator of an axis of a drawing: that of a day set's leading axis, 0, is its size, which is at most 2^32.
fn denominator_of(d: Drawing, axis: u64) -> u64
    ensures { result < 2 ^ 40 }
{
    let s = d.state;
    if axis != 0 {
        let bases = s.bases;
        return denominator(sixth(bases, std::num::wrapping_sub_u64(axis, 1)));
    }
    if s.count < 4294967296 {
        s.count
    } else {
        4294967296
    }
}

// Where a numerator lies on an axis, in hundredths of a unit: at most at its end.
pub fn place(x: u64, d: u64) -> u64
    requires { d < 2 ^ 40 }
    ensures { result ≤ 100000 }
{
    if x < d { x * 100000 / d } else { 100000 }
}

// Two axes of a block: the places of their words, their denominators, and how many words a point has; and the points' radius.
#[derive(Clone, Copy)]
struct Pair {
    x: usize,
    y: usize,
    dx: u64,
    dy: u64,
    width: usize,
    radius: u64,
}

// A point, at hundredths of a unit from the left and from the top.
fn point(l: Lines, out: &mut [u8], left: u64, top: u64, radius: u64) -> Lines {
    let mut text = *b"<circle cx=\"0000.00\" cy=\"0000.00\" r=\"0\"/>\n";
    text::put_digits(&mut text, 12, 4, left / 100);
    text::put_digits(&mut text, 17, 2, left % 100);
    text::put_digits(&mut text, 25, 4, top / 100);
    text::put_digits(&mut text, 30, 2, top % 100);
    text::put_digits(&mut text, 37, 1, radius);
    put(l, out, &text)
}

// The word at a place of a buffer, 0 beyond it.
pub fn word(buf: &[u64], i: usize) -> u64 {
    if i < buf.len() { buf[i] } else { 0 }
}

// The first `n` points of a block, one after another.
fn points(l: Lines, out: &mut [u8], buf: &[u64], n: u64, p: Pair) -> Lines
    requires { (p.dx < 2 ^ 40) × (p.dy < 2 ^ 40) }
{
    let mut next = l;
    let mut i = p.x;
    let mut j = p.y;
    for _ in 0..n {
        let left = place(word(buf, i), p.dx);
        let up = place(word(buf, j), p.dy);
        next = point(next, out, left, 100000 - up, p.radius);
        i = std::num::wrapping_add_usize(i, p.width);
        j = std::num::wrapping_add_usize(j, p.width);
    }
    next
}

// The smaller, the more points there are.
fn radius(count: u64) -> u64 {
    if count <= 2000 {
        return 4;
    }
    if count <= 20000 { 2 } else { 1 }
}

// As many of the next points as fit, and the sampler moved on: those of a day set have one word more, for the leading axis.
fn block(s: Sampler, is_day: bool, buf: &mut [u64]) -> Blocked {
    if !is_day {
        return sampler::block(s, buf);
    }
    let r = sampler::day_block(DaySet { run: s }, buf);
    let set = r.set;
    let t = set.run;
    Blocked {
        code: r.code,
        points: r.points,
        state: t,
    }
}

// All points, block by block: there are at most as many blocks as points.
fn blocks(l: Lines, out: &mut [u8], d: Drawing, p: Pair) -> Lines
    requires { (p.dx < 2 ^ 40) × (p.dy < 2 ^ 40) }
{
    let mut next = l;
    let mut s = d.state;
    let mut buf = [0u64; 1536];
    for _ in 0..s.count {
        let r = block(s, d.is_day, &mut buf);
        if r.code != 0 {
            return next;
        }
        next = points(next, out, &buf, r.points, p);
        s = r.state;
    }
    next
}

// How many words a point has.
fn width(d: Drawing) -> usize {
    let s = d.state;
    if d.is_day {
        return std::num::wrapping_add_usize(s.axes, 1);
    }
    s.axes
}

// All points of the run or the day set.
pub fn all(l: Lines, out: &mut [u8], d: Drawing) -> Lines {
    let s = d.state;
    let p = Pair {
        x: place_of(d, d.x) as usize,
        y: place_of(d, d.y) as usize,
        dx: denominator_of(d, d.x),
        dy: denominator_of(d, d.y),
        width: width(d),
        radius: radius(s.count),
    };
    let begun = put(l, out, b"<g fill=\"#1f5fa8\">\n");
    let done = blocks(begun, out, d, p);
    put(done, out, b"</g>\n")
}
