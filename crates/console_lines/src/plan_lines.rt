// Lines with calls on a plan.
ghost use Rattle.std.specs.Prelude.{◌≤◌, length};

use console_text::{Console, NumbersError};

// The bytes of a word's hexadecimal digits, two a byte.
fn read_word(c: Console, out: &mut [u8], word: &[u8]) -> Console
    requires { length word.now ≤ 1024 }
{
    let other = words::not_hex(word);
    if other < word.len() {
        return console_text::not_hex(c, out, other);
    }
    if word.len() % 2 == 1 {
        return console_text::error(
            c,
            out,
            b"two hexadecimal digits a byte, got an odd number of digits",
        );
    }
    let mut bytes = [0u8; 512];
    let n = words::hex(word, &mut bytes);
    console_calls::read(c, out, &bytes[..n])
}

// `read HEX`, or `read` alone for no bytes.
pub fn read(c: Console, out: &mut [u8], rest: &[u8]) -> Console
    requires { length rest.now ≤ 1024 }
{
    if 1 < words::count(rest, 0) {
        return console_text::error(c, out, b"read HEX, the plan's bytes in one word");
    }
    let w = words::find(rest, 0);
    let start = w.start;
    let end = w.end;
    read_word(c, out, &rest[start..end])
}

// `write ROOM`.
pub fn write(c: Console, out: &mut [u8], rest: &[u8]) -> Console {
    let mut n = [0u64; 1];
    if let Err(e) = console_text::read_numbers(rest, &mut n) {
        return console_text::misread(c, out, b"write ROOM", e);
    }
    if console_text::MOST_ROOM < n[0] {
        return console_text::no_room(c, out);
    }
    let room = n[0] as usize;
    let mut bytes = console_text::lent_bytes();
    console_calls::write(c, out, &mut bytes[..room])
}

// Opens the run of a line's words: its count, then its starts.
fn run(c: Console, out: &mut [u8], form: &[u8], rest: &[u8], n: &mut [u64]) -> Console
    requires { 1 ≤ length n.old }
{
    if let Err(e) = console_text::read_numbers(rest, n) {
        return console_text::misread(c, out, form, e);
    }
    console_calls::open(c, out, n[0], &n[1..])
}

// `open COUNT START ..`: any number of starts, none included. A line has less than 512 words.
pub fn open(c: Console, out: &mut [u8], form: &[u8], rest: &[u8]) -> Console {
    let k = words::count(rest, 0);
    if k < 1 {
        return console_text::misread(c, out, form, NumbersError::Words(k));
    }
    if 512 < k {
        return console_text::error(c, out, b"at most 512 numbers");
    }
    let mut n = [0u64; 512];
    run(c, out, form, rest, &mut n[..k])
}
