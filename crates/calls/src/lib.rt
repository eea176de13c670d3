// What the sampler's calls answer: structs, definitions and laws. A call on a state that is turned down answers its number and the state as given.
#![tactic(auto)]

ghost use Rattle.std.specs.Prelude.{◌≡◌};
ghost use Rattle.calls.specs.Calls.{moved};

use state::Sampler;

// A refusal's number or 0, and the state that the call leaves.
// It has a code and is no `Result`, since `specs/Calls.antt` and the theorems above it are equations about the code.
#[derive(Clone, Copy)]
pub struct Moved {
    pub code: u64,
    pub state: Sampler,
}

// A refusal's number or 0.
// It has a code and is no `Result`, since `specs/Calls.antt` and the theorems above it are equations about the code.
#[derive(Clone, Copy)]
pub struct Jumped {
    pub code: u64,
}

// A refusal's number or 0, how many points were written, and the state that the call leaves.
// It has a code and is no `Result`, since `specs/Calls.antt` and the theorems above it are equations about the code.
#[derive(Clone, Copy)]
pub struct Blocked {
    pub code: u64,
    pub points: u64,
    pub state: Sampler,
}

// A refusal's number or 0, and the second of the day.
// It has a code and is no `Result`, since `specs/Calls.antt` and the theorems above it are equations about the code.
#[derive(Clone, Copy)]
pub struct SecondOfDay {
    pub code: u64,
    pub second: u64,
}

// A refusal's number or 0, and the slot.
// It has a code and is no `Result`, since `specs/Calls.antt` and the theorems above it are equations about the code.
#[derive(Clone, Copy)]
pub struct Slotted {
    pub code: u64,
    pub slot: u64,
}

// A call that is turned down: its number, and the state as given.
pub fn refused(code: u64, s: Sampler) -> Moved
    ensures { result ≡ moved code s }
{
    Moved { code, state: s }
}
