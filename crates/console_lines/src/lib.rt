// The console's lines, one function each: it reads the line's numbers and makes the call.
#![tactic(auto)]

mod plain_lines;
mod plan_lines;
mod room_lines;

pub use plain_lines::{Counting, blank, count, day, poke, second, slot, state};
pub use plan_lines::{open, read, write};
pub use room_lines::{Lent, jump, room};

// What a line is about: the console's state, or its day set.
#[derive(Clone, Copy)]
pub enum Held {
    State,
    DaySet,
}
