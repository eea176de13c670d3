// The numbers of a line.
ghost use Rattle.console_text.specs.Held.{Holds};
ghost use Rattle.console_text.specs.Reading.{NumbersRead};

use crate::report::expected;
use crate::{Console, with_lines};
use lines::Lines;
use words::NumberError;

// Why the numbers of a line are not read: it has another number of words, or the word at a place from 0 spells no number.
#[derive(Clone, Copy, PartialEq, Eq, Debug)]
pub enum NumbersError {
    Words(usize),
    NotNumber(usize, NumberError),
}

// Reads the words of the rest of a line as numbers, as many as `out` has room for.
pub fn read_numbers(rest: &[u8], out: &mut [u64]) -> Result<(), NumbersError>
    ensures { NumbersRead rest.now out.old result out.new }
{
    let k = words::count(rest, 0);
    if k != out.len() {
        return Err(NumbersError::Words(k));
    }
    let mut at = 0;
    for (i, x) in out.iter_mut().enumerate() {
        let w = words::find(rest, at);
        let start = w.start;
        let end = w.end;
        match words::decimal(&rest[start..end]) {
            Ok(v) => *x = v,
            Err(e) => return Err(NumbersError::NotNumber(i, e)),
        }
        at = end;
    }
    Ok(())
}

// Puts the number of a word after the first, whose place is counted from 0, and what it is.
fn put_word(l: Lines, out: &mut [u8], place: usize, what: &[u8]) -> Lines {
    lines::put_between(
        l,
        out,
        b", but word ",
        std::num::wrapping_add_u64(place as u64, 2),
        what,
    )
}

// Puts how many words a line has after the first.
fn put_count(l: Lines, out: &mut [u8], words: usize) -> Lines {
    lines::put_between(
        l,
        out,
        b", but the number of words after the first is ",
        words as u64,
        b"\n",
    )
}

// Puts why a line's numbers are not read.
fn put_wrong(l: Lines, out: &mut [u8], e: NumbersError) -> Lines {
    match e {
        NumbersError::Words(k) => put_count(l, out, k),
        NumbersError::NotNumber(i, NumberError::NotDecimal) => {
            put_word(l, out, i, b" is no decimal number\n")
        }
        NumbersError::NotNumber(i, NumberError::TooLarge) => {
            put_word(l, out, i, b" is above 18446744073709551615\n")
        }
    }
}

// A line whose numbers were not read: its form, and what is wrong.
pub fn misread(c: Console, out: &mut [u8], form: &[u8], e: NumbersError) -> Console
    ensures { Holds result c.state c.day }
{
    let l = expected(c, out, form);
    let end = put_wrong(l, out, e);
    with_lines(c, end)
}
