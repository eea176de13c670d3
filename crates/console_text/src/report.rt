// The line of an answer, and of an error.
ghost use Rattle.console_text.specs.Held.{Holds};

use crate::{Console, with_lines};
use lines::Lines;

// Puts words in decimal, a blank before each.
fn put_words(l: Lines, out: &mut [u8], words: &[u64]) -> Lines {
    let mut next = l;
    for word in words {
        next = lines::put(next, out, b" ");
        next = lines::put_number(next, out, *word);
    }
    next
}

// Puts bytes in hexadecimal, a blank before them if there are any.
fn put_bytes(l: Lines, out: &mut [u8], bytes: &[u8]) -> Lines {
    if bytes.len() == 0 {
        return l;
    }
    let a = lines::put(l, out, b" ");
    lines::put_hex(a, out, bytes)
}

// The line of an answer: its line's first word, numbers, and then words.
pub fn answer(l: Lines, out: &mut [u8], name: &[u8], numbers: &[u64], words: &[u64]) -> Lines {
    let a = lines::put(l, out, name);
    let b = put_words(a, out, numbers);
    let c = put_words(b, out, words);
    lines::put(c, out, b"\n")
}

// The line of an answer that ends in bytes, in hexadecimal.
pub fn answer_bytes(l: Lines, out: &mut [u8], name: &[u8], numbers: &[u64], bytes: &[u8]) -> Lines {
    let a = lines::put(l, out, name);
    let b = put_words(a, out, numbers);
    let c = put_bytes(b, out, bytes);
    lines::put(c, out, b"\n")
}

// Begins the line of an error, which says what was expected.
pub fn expected(c: Console, out: &mut [u8], what: &[u8]) -> Lines {
    let a = lines::put_between(c.lines, out, b"line ", c.line, b": expected ");
    lines::put(a, out, what)
}

// A line in error: what was expected.
pub fn error(c: Console, out: &mut [u8], what: &[u8]) -> Console
    ensures { Holds result c.state c.day }
{
    let a = expected(c, out, what);
    let b = lines::put(a, out, b"\n");
    with_lines(c, b)
}

// A line that asks for too many lent bytes or words.
pub fn no_room(c: Console, out: &mut [u8]) -> Console
    ensures { Holds result c.state c.day }
{
    error(c, out, b"ROOM to be at most 4224")
}

// A word that has another character where hexadecimal digits were expected, at a place from 0.
pub fn not_hex(c: Console, out: &mut [u8], place: usize) -> Console
    ensures { Holds result c.state c.day }
{
    let a = expected(c, out, b"hexadecimal digits");
    let n = std::num::wrapping_add_u64(place as u64, 1);
    let d = lines::put_between(a, out, b", but character ", n, b" of HEX is another\n");
    with_lines(c, d)
}
