// The output: texts and numbers put into the lent buffer, which is written when it is full.
ghost use Rattle.std.specs.Prelude.{◌≡◌};
ghost use Rattle.lines.specs.Put.{Put};

use crate::Lines;

const STDOUT_FILENO: i32 = 1;

const STDERR_FILENO: i32 = 2;

// Writes a text past the buffer. After a failed write nothing is written any more, so that the output is a beginning of the whole.
fn write(l: Lines, text: &[u8]) -> Lines
    ensures { result.used ≡ l.used }
{
    if l.is_lost {
        return l;
    }
    let mut next = l;
    next.is_lost = !io::write_all(STDOUT_FILENO, text);
    next
}

// Writes out what waits in the buffer.
pub fn flush(l: Lines, out: &[u8]) -> Lines
    ensures { result.used ≡ 0 }
{
    let n = l.used.min(out.len());
    let mut next = write(l, &out[0..n]);
    next.used = 0;
    next
}

// Puts a text. Where the buffer has no room left for it, that is written out first; a text that is larger than the buffer goes straight out.
pub fn put(l: Lines, out: &mut [u8], text: &[u8]) -> Lines
    ensures { Put l out.old text.now result out.new }
{
    let used = l.used.min(out.len());
    if text.len() <= out.len() - used {
        let mut more = l;
        more.used = text::put(out, used, text);
        return more;
    }
    let empty = flush(l, out);
    if out.len() < text.len() {
        return write(empty, text);
    }
    let mut next = empty;
    next.used = text::put(out, 0, text);
    next
}

// Puts a number in decimal.
pub fn put_number(l: Lines, out: &mut [u8], n: u64) -> Lines {
    let mut digits = [0u8; 20];
    let k = io::decimal(n, &mut digits);
    put(l, out, &digits[..k])
}

// Puts a number between two texts.
pub fn put_between(l: Lines, out: &mut [u8], before: &[u8], n: u64, after: &[u8]) -> Lines {
    let begun = put(l, out, before);
    let numbered = put_number(begun, out, n);
    put(numbered, out, after)
}

// Puts a byte as two hexadecimal digits.
fn put_hex_byte(l: Lines, out: &mut [u8], b: u8) -> Lines {
    let mut digits = [0u8; 16];
    let k = io::hex(b as u64, 2, &mut digits);
    put(l, out, &digits[..k])
}

// Puts bytes in hexadecimal, two digits each.
pub fn put_hex(l: Lines, out: &mut [u8], bytes: &[u8]) -> Lines {
    let mut next = l;
    for b in bytes {
        next = put_hex_byte(next, out, *b);
    }
    next
}

// Writes out what waits, at the program's end; where something is lost, says so on standard error.
pub fn finish(l: Lines, out: &[u8]) {
    let last = flush(l, out);
    if last.is_lost {
        io::write_all(STDERR_FILENO, b"the output is not whole: a write failed\n");
    }
}
