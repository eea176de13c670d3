// All that a customer names: the state, the calls on it, what they answer, and the refusals' numbers. State goes in and comes back by value; each
// call first tests the state, then what it is handed, and refuses by number.
#![tactic(auto)]

pub use calls::{Blocked, Jumped, Moved, SecondOfDay, Slotted};
pub use day_calls::{day_block, day_jump, day_step, make_day_set};
pub use day_count::day_count;
pub use day_set::{DayBlocked, DayMoved, DaySet, blank_day_set};
pub use index_calls::{jump, second, slot};
pub use plan::refusal;
pub use plan_calls::{open, read, write};
pub use run_calls::{block, step, step_in_place};
pub use state::{Sampler, blank_state};
pub use window_count::{Counted, count, count_by_strips};
pub use writer::PlanWritten;
