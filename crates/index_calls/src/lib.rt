// The calls on any index of a plan: its point, its slot on an axis, and its second of the day.
#![tactic(auto)]

ghost use Rattle.std.specs.Prelude.{◌≡◌, ◌*◌, ◌/◌, ◌^◌, ◌<◌, ◌≤◌};
ghost use Rattle.calls.specs.Calls.{jump_spec, jump_buf, slotted, has_slots, slot_spec, second_spec};

use calls::{Jumped, SecondOfDay, Slotted};
use plan::refusal;
use points::PlanAxes;
use state::Sampler;

// Writes the point of any index to the front of `out`.
pub fn jump(s: Sampler, n: u64, out: &mut [u64]) -> Jumped
    ensures { (result ≡ jump_spec s n out.old) × (out.new ≡ jump_buf s n out.old) }
{
    if !genuine::is_genuine(&s) {
        return Jumped {
            code: refusal::INVALID_STATE,
        };
    }
    if numbers::INDEXES <= n {
        return Jumped {
            code: refusal::OUT_OF_RANGE,
        };
    }
    let axes = s.axes;
    if out.len() < axes {
        return Jumped {
            code: refusal::BUFFER_TOO_SMALL,
        };
    }
    let zeros = [0u64; 6];
    let p = PlanAxes {
        family: s.family,
        axes: s.axes,
        bases: &s.bases,
        directions: &s.directions,
    };
    let x = points::point(p, &zeros, n);
    bits::store(out, 0, &x[..axes]);
    Jumped { code: 0 }
}

// Whether a plan of so many axes has the axis, the first being axis 1, and the slot count is from 1 to 2^24.
fn has_slots(axes: usize, axis: u64, slots: u64) -> bool
    ensures { result ≡ has_slots axes axis slots }
{
    if axis < 1 {
        return false;
    }
    if (axes as u64) < axis {
        return false;
    }
    if slots < 1 {
        return false;
    }
    slots <= 16777216
}

// The slot in which the fraction `x / d` falls. A numerator below 2^40 times 2^24 fits a word.
fn slot_of(x: u64, d: u64, slots: u64) -> u64
    requires { (x < d) × (d < 2 ^ 40) × (slots ≤ 2 ^ 24) }
    ensures { result ≡ x * slots / d }
{
    x * slots / d
}

// A call that is turned down: its number, and no slot.
fn no_slot(code: u64) -> Slotted
    ensures { result ≡ slotted code 0 }
{
    Slotted { code, slot: 0 }
}

// The slot of any index on an axis, from 1: the whole part of the axis's fraction × slots.
pub fn slot(s: Sampler, n: u64, axis: u64, slots: u64) -> Slotted
    ensures { result ≡ slot_spec s n axis slots }
{
    if !genuine::is_genuine(&s) {
        return no_slot(refusal::INVALID_STATE);
    }
    if n >= numbers::INDEXES {
        return no_slot(refusal::OUT_OF_RANGE);
    }
    if !has_slots(s.axes, axis, slots) {
        return no_slot(refusal::BAD_SLOTS);
    }
    let i = axis as usize - 1;
    let x = points::numerator(s.family, &s.bases, &s.directions, n, i);
    let d = points::denominator(s.family, &s.bases, i);
    Slotted {
        code: 0,
        slot: slot_of(x, d, slots),
    }
}

// The second of the day of any index: its slot of 86,400 on axis 1.
pub fn second(s: Sampler, n: u64) -> SecondOfDay
    ensures { result ≡ second_spec s n }
{
    let r = slot(s, n, 1, 86400);
    SecondOfDay {
        code: r.code,
        second: r.slot,
    }
}
