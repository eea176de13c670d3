// The axis that a word spells: `0`, or a polynomial and its m's as P:M,M,.. in decimal.
#![tactic(auto)]

ghost use Rattle.std.specs.Prelude.{◌≡◌, ◌+◌, ◌*◌, ◌<◌, ◌≤◌, length, drop};
ghost use Rattle.words.specs.Word.{leading};
ghost use Rattle.axis_words.specs.Spelled.{is_not, commas_in};
ghost use Rattle.axis_words.specs.Parsed.{NumberRead, Kept, MsRead, GivenRead, AxisRead};

use plan::refusal;

// The faults of words, after the numbers of the refusals and plan_check's own.
// neither `0` nor P:M,M,..
pub const NOT_AN_AXIS: u64 = 103;
// not as many m's as the degree
pub const WRONG_COUNT: u64 = 104;
// an m that is no decimal number
pub const NOT_A_NUMBER: u64 = 105;

// The number that a word spells, if it fits 64 bits.
pub fn number(word: &[u8]) -> Option<u64>
    ensures { NumberRead word.now result }
{
    words::decimal(word).ok()
}

// ---- parts

// The first place at or after `from` that has the byte `stop`; the text's length where there is none.
fn part_end(text: &[u8], from: usize, stop: u8) -> usize
    requires { from ≤ length text.now }
    ensures { (result ≡ from + leading (is_not stop) (drop from text.now)) × (result ≤ length text.now) }
{
    for i in from..text.len() {
        if text[i] == stop {
            return i;
        }
    }
    text.len()
}

// The place after the byte at `end`, or the text's end.
fn next_place(text: &[u8], end: usize) -> usize
    requires { end ≤ length text.now }
    ensures { (result ≤ length text.now) × (drop result text.now ≡ drop (end + 1) text.now) }
{
    if end < text.len() { end + 1 } else { end }
}

// How many commas a text has.
fn comma_count(text: &[u8]) -> usize
    ensures { result ≡ commas_in text.now }
{
    let mut n: usize = 0;
    for b in text {
        if *b == b',' {
            n += 1;
        }
    }
    n
}

// Puts the first `d` parts into the places of axis `i`, or gives the place, from 1, of the first part that is no number.
fn parse_ms(text: &[u8], d: usize, ms: &mut [u64], i: usize) -> Result<(), usize>
    requires { (d ≤ 12) × (i < 6) × (length ms.old ≡ 72) }
    ensures { Kept i ms.old ms.new × MsRead text.now d i ms.new result }
{
    let mut at = 0;
    for k in 0..d {
        let end = part_end(text, at, b',');
        let Some(m) = number(&text[at..end]) else {
            return Err(k + 1);
        };
        ms[12 * i + k] = m;
        at = next_place(text, end);
    }
    Ok(())
}

// ---- a word

// What is wrong with the word of an axis: the fault's number, the place of an m or the degree, and the number at fault.
#[derive(Clone, Copy)]
pub struct AxisFault {
    pub code: u64,
    pub place: usize,
    pub got: u64,
}

// A fault of these fields.
fn wrong(code: u64, place: usize, got: u64) -> AxisFault
    ensures { result.code ≡ code }
{
    AxisFault { code, place, got }
}

// The polynomial of an axis P:M,M,.. whose colon is at `end`, and its m's into the places of axis `i`.
fn parse_given(word: &[u8], end: usize, ms: &mut [u64], i: usize) -> Result<u64, AxisFault>
    requires { (end ≤ length word.now) × (end ≡ leading (is_not 58) word.now) × (i < 6) × (length ms.old ≡ 72) }
    ensures { Kept i ms.old ms.new × GivenRead word.now i ms.new result }
{
    let Some(p) = number(&word[..end]) else {
        return Err(wrong(NOT_AN_AXIS, 0, 0));
    };
    if p < 2 {
        return Err(wrong(refusal::BAD_DEGREE, 0, p));
    }
    if 8191 < p {
        return Err(wrong(refusal::BAD_DEGREE, 0, p));
    }
    let d = sobol::degree(p);
    let from = next_place(word, end);
    let text = &word[from..];
    let commas = comma_count(text);
    if commas != d - 1 {
        let parts = std::num::wrapping_add_u64(commas as u64, 1);
        return Err(wrong(WRONG_COUNT, d, parts));
    }
    if let Err(place) = parse_ms(text, d, ms, i) {
        return Err(wrong(NOT_A_NUMBER, place, 0));
    }
    Ok(p)
}

// The polynomial of the axis that a word spells, and its m's into the places of axis `i`.
pub fn parse_axis(word: &[u8], ms: &mut [u64], i: usize) -> Result<u64, AxisFault>
    requires { (i < 6) × (length ms.old ≡ 72) }
    ensures { Kept i ms.old ms.new × AxisRead word.now i ms.new result }
{
    if word == b"0".as_slice() {
        return Ok(1);
    }
    let end = part_end(word, 0, b':');
    if end == word.len() {
        return Err(wrong(NOT_AN_AXIS, 0, 0));
    }
    parse_given(word, end, ms, i)
}
