// The cuts of a line.
ghost use Rattle.std.specs.Prelude.{◌≡◌, ◌≤◌, MatchResult, length};

use job::Job;
use words::NumberError;

// What is wrong with a cut.
#[derive(Clone, Copy, PartialEq, Eq, Debug)]
pub enum CutError {
    NotACut,
    TooLarge,
    BadQ,
    AboveQ,
}

// A cut: u of q.
#[derive(Clone, Copy)]
struct Cut {
    u: u64,
    q: u64,
}

// The cuts of a line: how many there are, and u and q of each in turn.
#[derive(Clone, Copy)]
pub struct Cuts {
    pub axes: usize,
    pub cuts: [u64; 14],
}

// A cut that is none: how many there are with it, and what is wrong with it.
#[derive(Clone, Copy)]
pub struct BadCut {
    pub cuts: usize,
    pub wrong: CutError,
}

impl From<NumberError> for CutError {
    fn from(e: NumberError) -> CutError {
        match e {
            NumberError::NotDecimal => CutError::NotACut,
            NumberError::TooLarge => CutError::TooLarge,
        }
    }
}

// A cut in the range that a window takes.
fn in_range(u: u64, q: u64) -> Result<Cut, CutError> {
    if q == 0 {
        return Err(CutError::BadQ);
    }
    if 16777216 < q {
        return Err(CutError::BadQ);
    }
    if q < u {
        return Err(CutError::AboveQ);
    }
    Ok(Cut { u, q })
}

// The cut that a word spells.
fn read_cut(word: &[u8]) -> Result<Cut, CutError> {
    let Some(slash) = memchr::memchr(b'/', word) else {
        return Err(CutError::NotACut);
    };
    let after = slash + 1;
    let u = words::decimal(&word[0..slash])?;
    let q = words::decimal(&word[after..])?;
    in_range(u, q)
}

// The first seven cuts from `from` on, or as many as there are; or the first that is none.
pub fn read_cuts(line: &[u8], from: usize) -> Result<Cuts, BadCut>
    requires { from ≤ length line.now }
    ensures { MatchResult result (λ c. (c.axes ≤ 7) × (length c.cuts ≡ 14)) (λ bad. bad.cuts ≤ 7) }
{
    let mut read = Cuts {
        axes: 0,
        cuts: [0; 14],
    };
    let mut at = from;
    for i in 0..7 {
        let w = words::find(line, at);
        let start = w.start;
        let end = w.end;
        if start == end {
            return Ok(read);
        }
        let cut = match read_cut(&line[start..end]) {
            Ok(c) => c,
            Err(wrong) => return Err(BadCut { cuts: i + 1, wrong }),
        };
        read.axes = i + 1;
        read.cuts[2 * i] = cut.u;
        read.cuts[2 * i + 1] = cut.q;
        at = end;
    }
    Ok(read)
}

// The axis of the last of so many cuts: the first is of axis 1, or of a day set's leading axis, 0.
fn axis_of(j: Job, cuts: usize) -> u64 {
    if job::is_day(j) {
        return std::num::wrapping_sub_u64(cuts as u64, 1);
    }
    cuts as u64
}

// Says what is wrong with a cut.
pub fn bad_cut(j: Job, out: &mut [u8], bad: BadCut) -> Job {
    let begun = job::fail(j, out);
    let said = job::say_between(begun, out, b"axis ", axis_of(j, bad.cuts), b": ");
    match bad.wrong {
        CutError::NotACut => job::end(said, out, b"expected a cut U/Q of two decimal numbers"),
        CutError::TooLarge => job::end(
            said,
            out,
            b"expected U and Q to be at most 18446744073709551615",
        ),
        CutError::BadQ => job::end(said, out, b"Q must be 1 to 16777216"),
        CutError::AboveQ => job::end(said, out, b"U must be at most Q"),
    }
}
