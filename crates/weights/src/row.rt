// The row of a window: columns that a person and a program can read, wide enough for every number.
ghost use Rattle.std.specs.Prelude.{◌^◌, ◌≤◌};

use lines::{Lines, put};
use shares::NineDecimals;

// What a row says of a window: its line, how many of the run's points are inside, how many there are, the bound, whether it claims one, and the
// volume in billionths.
#[derive(Clone, Copy)]
pub struct Row {
    pub line: u64,
    pub inside: u64,
    pub count: u64,
    pub bound: u64,
    pub claims: bool,
    pub volume: u64,
}

// How many blanks go before a text of a column.
fn blanks(width: usize, size: usize) -> usize
    requires { width ≤ 32 }
    ensures { result ≤ 32 }
{
    if size < width { width - size } else { 0 }
}

// A column with a word.
fn word(l: Lines, out: &mut [u8], width: usize, text: &[u8]) -> Lines
    requires { width ≤ 32 }
{
    let space = [b' '; 32];
    let n = blanks(width, text.len());
    let padded = put(l, out, &space[0..n]);
    put(padded, out, text)
}

// A column with a number.
fn number(l: Lines, out: &mut [u8], width: usize, n: u64) -> Lines
    requires { width ≤ 32 }
{
    let mut digits = [0u8; 20];
    let k = io::decimal(n, &mut digits);
    word(l, out, width, &digits[..k])
}

// A column with nine decimals; `width` is that of the whole part.
fn decimals(l: Lines, out: &mut [u8], width: usize, x: NineDecimals) -> Lines
    requires { width ≤ 32 }
{
    let mut digits = [0u8; 10];
    digits[0] = b'.';
    text::put_digits(&mut digits, 1, 9, x.part);
    let whole = number(l, out, width, x.whole);
    put(whole, out, &digits)
}

// The line, the points inside, the points and the bound.
fn counts(l: Lines, out: &mut [u8], r: Row) -> Lines {
    let line = number(l, out, 7, r.line);
    let inside = number(line, out, 12, r.inside);
    let count = number(inside, out, 12, r.count);
    if r.claims {
        return number(count, out, 22, r.bound);
    }
    word(count, out, 22, b"none")
}

// The share less the volume, with its sign.
fn difference(l: Lines, out: &mut [u8], share: u64, volume: u64) -> Lines {
    let d = shares::subtract(share, volume);
    let size = shares::nine_decimals(d.size);
    if d.is_below {
        return decimals(put(l, out, b"  -"), out, 0, size);
    }
    decimals(put(l, out, b"  +"), out, 0, size)
}

// The share, the volume and their difference.
fn weight(l: Lines, out: &mut [u8], r: Row) -> Lines
    requires { (r.inside ≤ r.count) × (r.count ≤ 2 ^ 32) }
{
    let volume = shares::nine_decimals(r.volume);
    if r.count == 0 {
        let none = word(l, out, 13, b"-");
        return word(decimals(none, out, 3, volume), out, 14, b"-");
    }
    let share = shares::share(r.inside, r.count);
    let first = decimals(l, out, 3, shares::nine_decimals(share));
    let second = decimals(first, out, 3, volume);
    difference(second, out, share, r.volume)
}

// The name, if there is one, and the row's end.
fn named(l: Lines, out: &mut [u8], name: &[u8]) -> Lines {
    if name.len() == 0 {
        return put(l, out, b"\n");
    }
    let parted = put(l, out, b"  ");
    let text = put(parted, out, name);
    put(text, out, b"\n")
}

// The limit of the share's error and the row's end; a remark where it is 1 or more, as any share is less than that from any volume.
fn limited(l: Lines, out: &mut [u8], r: Row, name: &[u8]) -> Lines
    requires { r.count ≤ 2 ^ 32 }
{
    if r.count == 0 {
        return named(word(l, out, 32, b"-"), out, name);
    }
    if !r.claims {
        return named(word(l, out, 32, b"none"), out, name);
    }
    let limit = shares::limit(r.bound, r.count);
    let row = named(decimals(l, out, 22, limit), out, name);
    if limit.whole == 0 {
        return row;
    }
    lines::put_between(
        row,
        out,
        b"# line ",
        r.line,
        b": the limit is 1 or more, which says nothing of the share\n",
    )
}

// A whole row. Where no bound is claimed, there is no limit.
pub fn put_row(l: Lines, out: &mut [u8], r: Row, name: &[u8]) -> Lines
    requires { (r.inside ≤ r.count) × (r.count ≤ 2 ^ 32) }
{
    let counted = counts(l, out, r);
    let weighed = weight(counted, out, r);
    limited(weighed, out, r, name)
}
