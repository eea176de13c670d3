// Whether what is printed agrees with what the library computes: by jump, and by a step from the index before.
ghost use Rattle.std.specs.Prelude.{◌≡◌, true, ◌*◌, ◌≤◌, length};

use crate::printed::GIVEN;

// What a table prints: points of a Halton family; or the m's, the direction numbers or the points of a Sobol axis.
#[derive(Clone, Copy)]
pub enum Printed {
    Halton { family: u64 },
    SobolM,
    SobolDirection,
    SobolPoint,
}

// Whether `x / d` is `top / bottom`, exactly. Parts that are too large to multiply, or a bottom of 0, do not agree.
pub fn same_fraction(x: u64, d: u64, top: u64, bottom: u64) -> bool
    ensures { result ≡ true → x * bottom ≡ top * d }
{
    if 1099511627776 < x {
        return false;
    }
    if 1099511627776 < d {
        return false;
    }
    if 1048576 < top {
        return false;
    }
    if 1048576 < bottom {
        return false;
    }
    if bottom == 0 {
        return false;
    }
    x * bottom == top * d
}

// Whether the point of index `n` in base `b` is `top / bottom`, by jump and, from index 1 on, by a step too.
fn halton_agrees(family: u64, b: u64, n: u64, top: u64, bottom: u64) -> bool {
    if b < 2 {
        return false;
    }
    if 256 < b {
        return false;
    }
    if 4294967295 < n {
        return false;
    }
    let d = numbers::denominator(b);
    let jumped = halton::jump(family, b, &[], n);
    if !same_fraction(jumped.numerator, d, top, bottom) {
        return false;
    }
    if n == 0 {
        return true;
    }
    let before = halton::jump(family, b, &[], n - 1);
    same_fraction(
        halton::step(family, b, n - 1, before.numerator),
        d,
        top,
        bottom,
    )
}

// m_1 to m_32 of the polynomial `p` of degree 3, with the first m's that document 003 gives.
fn m_numbers(p: u64) -> [u64; 32] {
    sobol::m_list(3, p, &GIVEN)
}

// The direction numbers of that polynomial.
fn direction_numbers(p: u64) -> [u64; 32] {
    sobol::direction_numbers(3, p, &GIVEN)
}

// Whether the `i`-th number of a list, counted from 1, is `top / bottom` when it is taken over `d`.
fn place_agrees(list: [u64; 32], i: u64, d: u64, top: u64, bottom: u64) -> bool {
    if i < 1 {
        return false;
    }
    if 32 < i {
        return false;
    }
    same_fraction(list[i as usize - 1], d, top, bottom)
}

// Whether the point of index `n` of the direction numbers `v` is `top / bottom`, by jump and, from index 1 on, by a step too.
fn point_agrees(v: [u64; 32], n: u64, top: u64, bottom: u64) -> bool {
    if 4294967295 < n {
        return false;
    }
    if !same_fraction(sobol::jump(&v, n), 4294967296, top, bottom) {
        return false;
    }
    if n == 0 {
        return true;
    }
    let before = sobol::jump(&v, n - 1);
    same_fraction(sobol::step(&v, n - 1, before), 4294967296, top, bottom)
}

// Whether a number of one axis agrees: `axis` is a base, or a polynomial of degree 3. Where it is 0 there is no axis, and 0, 0 is right.
fn entry_agrees(printed: Printed, axis: u64, n: u64, top: u64, bottom: u64) -> bool {
    if axis == 0 {
        return if top == 0 { bottom == 0 } else { false };
    }
    match printed {
        Printed::Halton { family } => halton_agrees(family, axis, n, top, bottom),
        Printed::SobolM => place_agrees(m_numbers(axis), n, 1, top, bottom),
        Printed::SobolDirection => {
            place_agrees(direction_numbers(axis), n, 4294967296, top, bottom)
        }
        Printed::SobolPoint => point_agrees(direction_numbers(axis), n, top, bottom),
    }
}

// Whether a row agrees on each of the three axes.
fn row_agrees(printed: Printed, axes: [u64; 3], row: [u64; 7]) -> bool {
    if !entry_agrees(printed, axes[0], row[0], row[1], row[2]) {
        return false;
    }
    if !entry_agrees(printed, axes[1], row[0], row[3], row[4]) {
        return false;
    }
    entry_agrees(printed, axes[2], row[0], row[5], row[6])
}

// How many entries of a list of images agree: entry d is the image of digit d in base `b`, so the point of index d is that entry over `b`.
pub fn count_images(family: u64, b: u64, list: &[u64]) -> usize
    ensures { result ≤ length list.now }
{
    let mut agreed = 0;
    for (d, image) in list.iter().enumerate() {
        if halton_agrees(family, b, d as u64, *image, b) {
            agreed += 1;
        }
    }
    agreed
}

// How many rows of a table agree.
pub fn count_agreeing(printed: Printed, axes: [u64; 3], table: &[[u64; 7]]) -> usize
    ensures { result ≤ length table.now }
{
    let mut agreed = 0;
    for row in table {
        if row_agrees(printed, axes, *row) {
            agreed += 1;
        }
    }
    agreed
}
