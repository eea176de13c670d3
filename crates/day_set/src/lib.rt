// The day set, a Hammersley set held as a sampler of its own, and what the calls on it answer: structs, definitions and laws.
#![tactic(auto)]

ghost use Rattle.std.specs.Prelude.{◌≡◌, length};
ghost use Rattle.day_set.specs.DaySet.{day_blank, from_zero};

use state::Sampler;

// A day set of N points: a sampler whose run has start 0 on each axis and count N.
#[derive(Clone, Copy)]
pub struct DaySet {
    pub run: Sampler,
}

// A refusal's number or 0, and the day set that the call leaves.
// It has a code and is no `Result`, since `specs/Calls.antt` and the theorems above it are equations about the code.
#[derive(Clone, Copy)]
pub struct DayMoved {
    pub code: u64,
    pub set: DaySet,
}

// A refusal's number or 0, how many points were written, and the day set that the call leaves.
// It has a code and is no `Result`, since `specs/Calls.antt` and the theorems above it are equations about the code.
#[derive(Clone, Copy)]
pub struct DayBlocked {
    pub code: u64,
    pub points: u64,
    pub set: DaySet,
}

// The day set that is all zero: what a refused making hands back.
pub fn blank_day_set() -> DaySet
    ensures { result ≡ day_blank }
{
    DaySet {
        run: state::blank_state(),
    }
}

// Whether a run starts at 0 on each axis, as a day set's does.
pub fn from_zero(starts: &[u64; 6]) -> bool
    requires { length starts.now ≡ 6 }
    ensures { result ≡ from_zero starts.now }
{
    genuine::is_zero(starts, 0)
}
