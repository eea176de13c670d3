// The window count of a day set: the call.
#![tactic(auto)]

ghost use Rattle.std.specs.Prelude.{◌≡◌, cond, ◌+◌, ◌^◌, ◌<◌, eqb};
ghost use Rattle.day_count.specs.Count.{day_count_spec};

use day_set::DaySet;
use plan::refusal;
use points::PlanAxes;
use window_count::Counted;

// The bound of a day set: that of the plan for as many points plus 1, and 0 for Sobol, which claims none.
fn day_bound(family: u64, bound: u64) -> u64
    requires { bound < 2 ^ 63 }
    ensures { result ≡ cond (eqb family 2) 0 (bound + 1) }
{
    if family == 2 {
        return 0;
    }
    bound + 1
}

// How many points of the whole day set are inside the window `w`, which has u and q for the leading axis and for each axis of the plan in turn;
// and the bound. The leading cut takes the first points, and only these are counted, by strips where that is faster. It moves nothing.
pub fn day_count(d: DaySet, w: &[u64]) -> Counted
    ensures { result ≡ day_count_spec d w.now }
{
    let s = d.run;
    if !day_set::from_zero(&s.starts) {
        return window_count::refused(refusal::INVALID_STATE);
    }
    if !genuine::is_genuine(&s) {
        return window_count::refused(refusal::INVALID_STATE);
    }
    let axes = s.axes;
    if !window::is_window(w, axes + 1) {
        return window_count::refused(refusal::BAD_WINDOW);
    }
    let first = inside_count::cut_limit(w[0], w[1], s.count);
    let ns = [0u64; 6];
    let p = PlanAxes {
        family: s.family,
        axes: s.axes,
        bases: &s.bases,
        directions: &s.directions,
    };
    let inside = strip_count::count_inside(p, &ns, first as usize, &w[2..]);
    let bound = window::bound(p, s.count);
    Counted {
        code: 0,
        inside,
        bound: day_bound(s.family, bound),
    }
}
