// The owner of a sampler: a local that is lent to a step in place.
#![tactic(auto)]

ghost use Rattle.std.specs.Prelude.{◌≡◌};
ghost use Rattle.calls.specs.Calls.{step_spec, step_buf};

use sampler::{Moved, Sampler};

// A step in place: the sampler, a local here, is lent to it and holds the next state afterwards.
pub fn wake(s: Sampler, point: &mut [u64]) -> Moved
    ensures { (result ≡ step_spec s point.old) × (point.new ≡ step_buf s point.old) }
{
    let mut own = s;
    let code = sampler::step_in_place(&mut own, point);
    Moved { code, state: own }
}
