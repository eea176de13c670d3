// When a C call on a plan that the reader accepted is turned down, and by which number.
#![tactic(auto)]

ghost use Rattle.std.specs.Prelude.{◌≡◌, ◌≤◌};
ghost use Rattle.plan.specs.Order.{first_due};
ghost use Rattle.c_refusals.specs.Refusals.{point_refusals, count_refusals};

use plan::refusal;

// The number by which a point of an accepted plan is turned down, or 0: `room` is the length of the buffer.
pub fn point_refusal(index: u64, axes: usize, room: usize) -> u64
    requires { axes ≤ 6 }
    ensures { result ≡ first_due (point_refusals index axes room) }
{
    if numbers::INDEXES <= index {
        return refusal::OUT_OF_RANGE;
    }
    if room < 8 * axes {
        return refusal::BUFFER_TOO_SMALL;
    }
    0
}

// The number by which a count of an accepted plan is turned down, or 0: `window` says whether the window is one, `room` is the length of the
// buffer.
pub fn count_refusal(start: u64, count: u64, window: bool, room: usize) -> u64
    ensures { result ≡ first_due (count_refusals start count window room) }
{
    if !points::in_range(start, count) {
        refusal::OUT_OF_RANGE
    } else if !window {
        refusal::BAD_WINDOW
    } else if room < 16 {
        refusal::BUFFER_TOO_SMALL
    } else {
        0
    }
}
