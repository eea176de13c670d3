// How many steps of a run of Halton points are inside a window, by classes of steps: one more digit of an axis splits a class, and the image
// of the digit against the digits of the window's ends says inside, outside or deeper. The axes are held in a table of images, 256 entries an
// axis, and in rows of five numbers: the base, the start, and l, u and q of the ends l / q and u / q. The last axis is taken up first.
#![tactic(auto)]

ghost use Rattle.std.specs.Prelude.{◌≡◌, true, false, ◌+◌, ◌*◌, ◌/◌, ◌%◌, ◌^◌, ◌<◌, ◌≤◌, ltb};
ghost use Rattle.numbers.specs.Count.{bit, count};
ghost use Rattle.strips.specs.Ends.{inside_ends};
ghost use Rattle.strips.specs.Classes.{below_rest, within_rest, behind, base_in, q_in, image_from, table_axes, passes, inside_along, in_class, Held, Step, Steps, Reads};

// ---- one step

// Whether the index `x` on axis `s` lies below u / q: its digits against the cut's, lowest first, until one decides or none is left.
fn below_rest(l: &[u8], rows: &[u64], s: usize, u: u64, x: u64) -> bool
    requires { Held l.now rows.now (s + 1) × (u ≤ 2 ^ 24) × (x < 2 ^ 32) }
    ensures { result ≡ below_rest (image_from l.now (256 * s)) (base_in rows.now s) (q_in rows.now s) u x }
{
    let b = rows[5 * s];
    let q = rows[5 * s + 4];
    let mut v = u;
    let mut n = x;
    while n != 0 {
        let y = v * b;
        let c = y / q;
        let d = l[256 * s + ((n % b) as usize)] as u64;
        if d < c {
            return true;
        }
        if c < d {
            return false;
        }
        v = y % q;
        n = n / b;
    }
    0 < v
}

// Whether it lies within v / q and u / q.
fn within_rest(l: &[u8], rows: &[u64], s: usize, v: u64, u: u64, x: u64) -> bool
    requires { Held l.now rows.now (s + 1) × (v ≤ 2 ^ 24) × (u ≤ 2 ^ 24) × (x < 2 ^ 32) }
    ensures { result ≡ within_rest (image_from l.now (256 * s)) (base_in rows.now s) (q_in rows.now s) v u x }
{
    if !below_rest(l, rows, s, u, x) {
        return false;
    }
    if v == 0 {
        return true;
    }
    !below_rest(l, rows, s, v, x)
}

// Whether the step `o` is inside on the first `s` axes.
fn is_inside(l: &[u8], rows: &[u64], s: usize, o: u64) -> bool
    requires { Held l.now rows.now s × Step rows.now s o }
    ensures { result ≡ inside_ends (table_axes l.now rows.now) s o }
{
    for a in (0..s).rev() {
        if !within_rest(
            l,
            rows,
            a,
            rows[5 * a + 2],
            rows[5 * a + 3],
            rows[5 * a + 1] + o,
        ) {
            return false;
        }
    }
    true
}

// 1 where the step `o` is inside on the first `s` axes, else 0.
fn inside_step(l: &[u8], rows: &[u64], s: usize, o: u64) -> u64
    requires { Held l.now rows.now s × Step rows.now s o }
    ensures { result ≡ bit (inside_ends (table_axes l.now rows.now) s o) }
{
    if is_inside(l, rows, s, o) { 1 } else { 0 }
}

// 1 where it is, and on axis `s` the index `x` lies within v / q and u / q, else 0.
fn one_step(l: &[u8], rows: &[u64], s: usize, v: u64, u: u64, x: u64, o: u64) -> u64
    requires { Held l.now rows.now (s + 1) × (v ≤ 2 ^ 24) × (u ≤ 2 ^ 24) × (x < 2 ^ 32) × Step rows.now s o }
    ensures { result ≡ bit (passes (table_axes l.now rows.now) s v u x o) }
{
    if !within_rest(l, rows, s, v, u, x) {
        return 0;
    }
    inside_step(l, rows, s, o)
}

// ---- a class that splits

// How many of the `b` classes of a class of `k` steps have a step.
fn class_number(b: u64, k: u64) -> u64
    ensures { (result ≤ b) × (result ≤ k) × (result < k → result ≡ b) }
{
    k.min(b)
}

// How many steps class `i` has, where each of the first `more` has one more than `low`.
fn class_size(low: u64, more: u64, i: u64) -> u64
    requires { low < 2 ^ 33 }
    ensures { result ≡ low + bit (ltb i more) }
{
    if i < more { low + 1 } else { low }
}

// The digit `turn` places after the digit `e`, the digits of base `b` being a circle.
fn next_digit(e: u64, turn: u64, b: u64) -> u64
    requires { (e < b) × (turn < b) × (b ≤ 256) }
    ensures { result ≡ (e + turn) % b }
{
    let z = e + turn;
    if z < b { z } else { z - b }
}

// What is left of an end over `q`, whose own digit is `c` with the given rest, behind the digit `d`.
fn rest_behind(q: u64, d: u64, c: u64, rest: u64) -> u64
    ensures { (result ≡ behind q d c rest) × (rest ≤ q → result ≤ q) }
{
    if d < c {
        return q;
    }
    if c < d {
        return 0;
    }
    rest
}

// The digit of the lower end v / q in base `b`. Most windows have the end 0, which needs no division.
fn lower_digit(v: u64, b: u64, q: u64) -> u64
    requires { (v * b ≤ 2 ^ 32) × (1 ≤ q) }
    ensures { result ≡ v * b / q }
{
    if v == 0 {
        return 0;
    }
    v * b / q
}

// What is left of it behind that digit.
fn lower_rest(v: u64, b: u64, q: u64) -> u64
    requires { (v * b ≤ 2 ^ 32) × (1 ≤ q) }
    ensures { result ≡ v * b % q }
{
    if v == 0 {
        return 0;
    }
    v * b % q
}

// The first digit whose strip lies wholly above the lower end, which has the digit `from` and the rest `left`.
fn first_whole(from: u64, left: u64) -> u64
    requires { from ≤ 2 ^ 32 }
    ensures { result ≡ from + bit (ltb 0 left) }
{
    if 0 < left { from + 1 } else { from }
}

// Whether the strip of the digit `d` lies wholly within the ends: from `first` on and below the upper end's digit `cut`.
fn is_whole(first: u64, cut: u64, d: u64) -> bool
    ensures { (result ≡ true → (first ≤ d) × (d < cut)) × (result ≡ false → first ≤ d → cut ≤ d) }
{
    if d < first {
        return false;
    }
    d < cut
}

// Whether an end may lie within the strip of the digit `d`: it is the upper end's, or the lower end's where that has a rest.
fn is_cut(from: u64, left: u64, cut: u64, d: u64) -> bool
    ensures { result ≡ false → ((d ≡ cut → ⊥) × (0 < left → d ≡ from → ⊥)) }
{
    if d == cut {
        return true;
    }
    if left == 0 {
        return false;
    }
    d == from
}

// Whether neither end binds.
fn is_uncut(v: u64, u: u64, q: u64) -> bool
    ensures { result ≡ true → (v ≡ 0) × (u ≡ q) }
{
    if v == 0 {
        return u == q;
    }
    false
}

// How many of the class's `k` steps are inside, where axis `s` reads x + r × i against the rests v / q and u / q of its ends: a class for each digit
// that a step has. The digit moves on by `turn`.
#[cycle(count_class_cut_class_next_axis_split_class)]
fn split_class(
    l: &[u8],
    rows: &[u64],
    s: usize,
    v: u64,
    u: u64,
    x: u64,
    r: u64,
    turn: u64,
    t: u64,
    m: u64,
    k: u64,
) -> u64
    requires { Held l.now rows.now (s + 1) × (v ≤ 2 ^ 24) × (u ≤ 2 ^ 24) × Reads x r k × (turn ≡ r % base_in rows.now s) × Steps rows.now s t m k × (1 < k) }
    ensures { result ≡ count (in_class (table_axes l.now rows.now) s v u x r t m) k }
{
    let b = rows[5 * s];
    let q = rows[5 * s + 4];
    let from = lower_digit(v, b, q);
    let left = lower_rest(v, b, q);
    let cut = u * b / q;
    let rest = u * b % q;
    let first = first_whole(from, left);
    let low = k / b;
    let more = k % b;
    let end = class_number(b, k);
    let mut e = x % b;
    let mut n = 0;
    for i in 0..end {
        let d = l[256 * s + (e as usize)] as u64;
        let size = class_size(low, more, i);
        let o = t + m * i;
        if is_whole(first, cut, d) {
            if s == 0 {
                n = n + size;
            } else {
                n = n + next_axis(l, rows, s - 1, o, m * b, size);
            }
        } else if is_cut(from, left, cut, d) {
            let lo = rest_behind(q, d, from, left);
            let hi = rest_behind(q, d, cut, rest);
            let y = (x + r * i) / b;
            n = n + cut_class(l, rows, s, lo, hi, y, r, turn, o, m * b, size);
        }
        e = next_digit(e, turn, b);
    }
    n
}

// The same for any number of steps and any rests.
#[cycle(count_class_cut_class_next_axis_split_class)]
fn cut_class(
    l: &[u8],
    rows: &[u64],
    s: usize,
    v: u64,
    u: u64,
    x: u64,
    r: u64,
    turn: u64,
    t: u64,
    m: u64,
    k: u64,
) -> u64
    requires { Held l.now rows.now (s + 1) × (v ≤ 2 ^ 24) × (u ≤ 2 ^ 24) × Reads x r k × (turn ≡ r % base_in rows.now s) × Steps rows.now s t m k }
    ensures { result ≡ count (in_class (table_axes l.now rows.now) s v u x r t m) k }
{
    if u <= v {
        return 0;
    }
    if k == 0 {
        return 0;
    }
    if k == 1 {
        return one_step(l, rows, s, v, u, x, t);
    }
    split_class(l, rows, s, v, u, x, r, turn, t, m, k)
}

// How many of the steps t + m × i, i below `k`, are inside on axis `s` and those before it. A whole axis is passed over.
#[cycle(count_class_cut_class_next_axis_split_class)]
fn next_axis(l: &[u8], rows: &[u64], s: usize, t: u64, m: u64, k: u64) -> u64
    requires { Held l.now rows.now (s + 1) × Steps rows.now (s + 1) t m k }
    ensures { result ≡ count (inside_along (table_axes l.now rows.now) (s + 1) t m) k }
{
    if k == 0 {
        return 0;
    }
    if k == 1 {
        return inside_step(l, rows, s + 1, t);
    }
    let v = rows[5 * s + 2];
    let u = rows[5 * s + 3];
    if is_uncut(v, u, rows[5 * s + 4]) {
        return count_class(l, rows, s, t, m, k);
    }
    cut_class(
        l,
        rows,
        s,
        v,
        u,
        rows[5 * s + 1] + t,
        m,
        m % rows[5 * s],
        t,
        m,
        k,
    )
}

// How many of the steps t + m × i, i below `k`, are inside on the first `s` axes.
#[cycle(count_class_cut_class_next_axis_split_class)]
pub fn count_class(l: &[u8], rows: &[u64], s: usize, t: u64, m: u64, k: u64) -> u64
    requires { Held l.now rows.now s × Steps rows.now s t m k }
    ensures { result ≡ count (inside_along (table_axes l.now rows.now) s t m) k }
{
    if s == 0 {
        return k;
    }
    next_axis(l, rows, s - 1, t, m, k)
}
