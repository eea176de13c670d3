// Standard input of any length cut into lines, and standard output in large pieces, over buffers that the program lends: a chunk of input, the
// line at hand, and an output buffer. The output is written out whenever its buffer is full and before the program waits for input.
#![tactic(auto)]

mod input;
mod output;

ghost use Rattle.std.specs.Prelude.{◌≡◌};

pub use input::{next, text};
pub use output::{finish, flush, put, put_between, put_hex, put_number};

// Of the input: what is left of a chunk, from `at` up to `filled`; whether no line was read yet; of the line that was read last, how many bytes
// its text has, 1,025 standing for any number above 1,024, whether a comment follows, and whether a newline ends it; whether there was no
// line left; and whether that is because a read failed.
// Of the output: how much of its buffer waits to be written, and whether a write failed, so that something is lost.
#[derive(Clone, Copy)]
pub struct Lines {
    pub at: usize,
    pub filled: usize,
    pub is_first: bool,
    pub size: usize,
    pub is_comment: bool,
    pub has_ended: bool,
    pub is_over: bool,
    pub is_broken: bool,
    pub used: usize,
    pub is_lost: bool,
}

// Before the first line, with nothing put.
pub fn start() -> Lines
    ensures { (result.used ≡ 0) × (result.filled ≡ 0) }
{
    Lines {
        at: 0,
        filled: 0,
        is_first: true,
        size: 0,
        is_comment: false,
        has_ended: false,
        is_over: false,
        is_broken: false,
        used: 0,
        is_lost: false,
    }
}
