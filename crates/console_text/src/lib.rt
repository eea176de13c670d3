// What the console's calls share: the console itself, the numbers of a line, what is lent, and the line of an answer or of an error.
#![tactic(auto)]

mod reading;
mod report;

ghost use Rattle.std.specs.Prelude.{◌≡◌};
ghost use Rattle.console_text.specs.Held.{Holds};
ghost use Rattle.console_text.specs.Lent.{lent_bytes, lent_words};

use lines::Lines;
pub use reading::{NumbersError, misread, read_numbers};
pub use report::{answer, answer_bytes, error, no_room, not_hex};
use sampler::{DaySet, Sampler};

// The most bytes or words that a line may ask for.
pub const MOST_ROOM: u64 = 4224;

// The input and the output, the number of the line at hand, and the state and the day set that the lines so far leave.
#[derive(Clone, Copy)]
pub struct Console {
    pub lines: Lines,
    pub line: u64,
    pub state: Sampler,
    pub day: DaySet,
}

// Before the first line.
pub fn start() -> Console {
    Console {
        lines: lines::start(),
        line: 0,
        state: sampler::blank_state(),
        day: sampler::blank_day_set(),
    }
}

// The same line, after input or output.
pub fn with_lines(c: Console, l: Lines) -> Console
    ensures { Holds result c.state c.day }
{
    let mut next = c;
    next.lines = l;
    next
}

// The same, with this state.
pub fn with_state(c: Console, l: Lines, s: Sampler) -> Console
    ensures { Holds result s c.day }
{
    let mut next = c;
    next.lines = l;
    next.state = s;
    next
}

// The same, with this day set.
pub fn with_day(c: Console, l: Lines, d: DaySet) -> Console
    ensures { Holds result c.state d }
{
    let mut next = c;
    next.lines = l;
    next.day = d;
    next
}

// The bytes that a call is lent.
pub fn lent_bytes() -> [u8; 4224]
    ensures { result ≡ lent_bytes }
{
    [165; 4224]
}

// The words that a call is lent.
pub fn lent_words() -> [u64; 4224]
    ensures { result ≡ lent_words }
{
    [11936128518282651045; 4224]
}
