// The words of a line of text, and the numbers that they spell.
#![tactic(auto)]

ghost use Rattle.std.specs.Prelude.{◌≡◌, true, ◌*◌, ◌≤◌, length, drop};
ghost use Rattle.words.specs.Word.{is_blank, span_end, FirstWord, words_in, leading};
ghost use Rattle.words.specs.Decimal.{all_digits, number_of};
ghost use Rattle.words.specs.Hexadecimal.{hex_value, is_hex, Hexed};

// A word's place in its line; where there is no word left, start and end are the same.
#[derive(Clone, Copy)]
pub struct Word {
    pub start: usize,
    pub end: usize,
}

// Why a word spells no number of 64 bits: it is not one decimal digit or more, or its value is above 2^64 - 1.
#[derive(Clone, Copy, PartialEq, Eq, Debug)]
pub enum NumberError {
    NotDecimal,
    TooLarge,
}

// ---- words

// Whether a byte is a space or a tab.
fn is_blank(b: u8) -> bool
    ensures { result ≡ is_blank b }
{
    if b == b' ' {
        return true;
    }
    b == b'\t'
}

// The end of the blanks at `from`, or of the word there.
fn span(line: &[u8], from: usize, blank: bool) -> usize
    requires { from ≤ length line.now }
    ensures { (result ≡ span_end line.now from blank) × (result ≤ length line.now) }
{
    for i in from..line.len() {
        if is_blank(line[i]) != blank {
            return i;
        }
    }
    line.len()
}

// The first word at or after `from`.
pub fn find(line: &[u8], from: usize) -> Word
    requires { from ≤ length line.now }
    ensures { FirstWord line.now from result }
{
    let start = span(line, from, true);
    let end = span(line, start, false);
    Word { start, end }
}

// How many words there are from `from` on.
pub fn count(line: &[u8], from: usize) -> usize
    requires { from ≤ length line.now }
    ensures { result ≡ words_in true (drop from line.now) }
{
    let mut n: usize = 0;
    let mut outside = true;
    for b in &line[from..] {
        let blank = is_blank(*b);
        if outside && !blank {
            n += 1;
        }
        outside = blank;
    }
    n
}

// ---- decimal

// Whether all bytes are digits.
fn all_digits(word: &[u8]) -> bool
    ensures { result ≡ all_digits word.now }
{
    for b in word {
        if *b < 48 {
            return false;
        }
        if 57 < *b {
            return false;
        }
    }
    true
}

// The number that a word spells.
pub fn decimal(word: &[u8]) -> Result<u64, NumberError>
    ensures { result ≡ number_of word.now }
{
    if word.len() == 0 {
        return Err(NumberError::NotDecimal);
    }
    if !all_digits(word) {
        return Err(NumberError::NotDecimal);
    }
    let mut value: u64 = 0;
    for b in word {
        let digit = (*b - 48) as u64;
        if (18446744073709551615 - digit) / 10 < value {
            return Err(NumberError::TooLarge);
        }
        value = value * 10 + digit;
    }
    Ok(value)
}

// ---- hexadecimal

// The value of a digit, in either case; 16 for any other byte.
fn hex_digit(b: u8) -> u8
    ensures { result ≡ hex_value b }
{
    match b {
        48..=57 => b - 48,
        65..=70 => b - 55,
        97..=102 => b - 87,
        _ => 16,
    }
}

// The place of the first byte that is no hexadecimal digit; the word's length where there is none.
pub fn not_hex(word: &[u8]) -> usize
    ensures { result ≡ leading is_hex word.now }
{
    for (i, b) in word.iter().enumerate() {
        if 15 < hex_digit(*b) {
            return i;
        }
    }
    word.len()
}

// Puts the bytes that pairs of digits spell to the front of `out`, and gives their number. A byte that is no digit counts as 0.
pub fn hex(word: &[u8], out: &mut [u8]) -> usize
    requires { length word.now ≤ 2 * length out.old }
    ensures { Hexed word.now out.old result out.new }
{
    let n = word.len() / 2;
    for i in 0..n {
        let high = hex_digit(word[2 * i]) % 16;
        let low = hex_digit(word[2 * i + 1]) % 16;
        out[i] = high * 16 + low;
    }
    n
}
