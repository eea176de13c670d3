// The input: bytes cut into lines, without comments.
ghost use Rattle.std.specs.Prelude.{◌≡◌, ◌+◌, ◌≤◌, min, length};
ghost use Rattle.lines.specs.Kept.{Kept};

use crate::{Lines, flush};
use std::io::Read;
use std::rt::Stdin;

// Keeps a byte of a line that has `size`, if it is one of the first 1,024; gives how many the line has then, 1,025 standing for 1,024 and a
// carriage return, and 1,026 for any other number above 1,024.
fn keep(line: &mut [u8], size: usize, b: u8) -> usize
    requires { 1024 ≤ length line.old }
    ensures { Kept line.old size b result line.new }
{
    if size < 1024 {
        line[size] = b;
        return size + 1;
    }
    if size == 1024 {
        if b == b'\r' {
            return 1025;
        }
    }
    1026
}

// Whether a line begins with a byte order mark.
fn has_mark(line: &[u8]) -> bool
    requires { 1024 ≤ length line.now }
{
    &line[0..3] == b"\xef\xbb\xbf".as_slice()
}

// Takes the next byte of a line, which is no newline. A byte order mark that begins the input is dropped once its third byte is there.
fn take_byte(l: Lines, line: &mut [u8], b: u8) -> Lines
    requires { 1024 ≤ length line.old }
{
    let mut next = l;
    if l.is_comment {
        return next;
    }
    if b == b'#' {
        next.is_comment = true;
        return next;
    }
    next.size = keep(line, l.size, b);
    if next.size != 3 {
        return next;
    }
    if !l.is_first {
        return next;
    }
    if has_mark(line) {
        next.size = 0;
        next.is_first = false;
    }
    next
}

// Takes what is left of the chunk, up to and with the next newline.
fn take(l: Lines, chunk: &[u8], line: &mut [u8]) -> Lines
    requires { 1024 ≤ length line.old }
{
    let end = l.filled.min(chunk.len());
    let mut next = l;
    for i in l.at..end {
        let b = chunk[i];
        if b == b'\n' {
            next.at = i + 1;
            next.has_ended = true;
            return next;
        }
        next = take_byte(next, line, b);
    }
    next.at = end;
    next
}

// How many bytes the text of a line has that was taken whole: without a carriage return at the line's end, 1,025 standing for any number
// above 1,024.
fn text_size(l: Lines, line: &[u8]) -> usize
    requires { 1024 ≤ length line.now }
    ensures { result ≤ 1025 }
{
    let n = l.size;
    if n == 0 {
        return 0;
    }
    if 1025 < n {
        return 1025;
    }
    if l.is_comment {
        return n;
    }
    if n == 1025 {
        return 1024;
    }
    if line[n - 1] == b'\r' { n - 1 } else { n }
}

// The line has been taken whole.
fn whole(l: Lines, line: &[u8]) -> Lines
    requires { 1024 ≤ length line.now }
    ensures { result.size ≤ 1025 }
{
    let mut next = l;
    next.size = text_size(l, line);
    next.is_first = false;
    next
}

// No line is left.
fn over(l: Lines, is_broken: bool) -> Lines
    ensures { result.size ≡ 0 }
{
    let mut next = l;
    next.size = 0;
    next.is_over = true;
    next.is_broken = is_broken;
    next
}

// More input, at the front of the chunk: none at the input's end, and none where a read fails. What waits to be written goes out before.
fn fill(stdin: Stdin, l: Lines, chunk: &mut [u8], out: &[u8]) -> Lines {
    let mut next = flush(l, out);
    let mut input = stdin;
    next.at = 0;
    match input.read(chunk) {
        Ok(n) => {
            next.filled = n;
            next.is_broken = false;
        }
        Err(_) => {
            next.filled = 0;
            next.is_broken = true;
        }
    }
    next
}

// After the input's end, or a failed read: what is left of the input is a line if there is any and all of it was read.
fn last_line(l: Lines, line: &[u8]) -> Lines
    requires { 1024 ≤ length line.now }
    ensures { result.size ≤ 1025 }
{
    if l.is_broken {
        return over(l, true);
    }
    if l.size == 0 {
        return over(l, false);
    }
    whole(l, line)
}

// Before the first byte of a line.
fn begin(l: Lines) -> Lines {
    let mut next = l;
    next.size = 0;
    next.is_comment = false;
    next.has_ended = false;
    next
}

// Reads the next line, without its newline, its comment and a carriage return at its end; the last line may have no newline. An empty chunk
// would make any input look ended. A proved loop has to end, and nothing says that the input does: so the loop has a number of turns that no
// run uses up.
pub fn next(stdin: Stdin, l: Lines, chunk: &mut [u8], line: &mut [u8], out: &[u8]) -> Lines
    requires { (1 ≤ length chunk.old) × (1024 ≤ length line.old) }
    ensures { result.size ≤ 1025 }
{
    let mut now = begin(l);
    for _ in 0..u64::MAX {
        now = take(now, chunk, line);
        if now.has_ended {
            return whole(now, line);
        }
        now = fill(stdin, now, chunk, out);
        if now.filled == 0 {
            return last_line(now, line);
        }
    }
    over(now, true)
}

// The text of the line that was read last: all of it, or its first 1,024 bytes.
pub fn text(l: Lines, line: &[u8]) -> &[u8]
    requires { 1024 ≤ length line.now }
    ensures { length result.now ≡ min l.size 1024 }
{
    let end = l.size.min(1024);
    &line[0..end]
}
