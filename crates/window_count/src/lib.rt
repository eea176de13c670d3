// The window count of a sampler's run: the two calls, one definition.
#![tactic(auto)]

ghost use Rattle.std.specs.Prelude.{◌≡◌};
ghost use Rattle.numbers.specs.Count as counting;
ghost use Rattle.points.specs.Arrays.{of_axis, Within};
ghost use Rattle.window.specs.Walking.{axes_inside, Room};
ghost use Rattle.window_count.specs.Call.{counted, count_spec};

use plan::refusal;
use points::PlanAxes;
use state::Sampler;

// A refusal's number or 0, how many of the run's points are inside, and the bound of demand 3.
// It has a code and is no `Result`, since `specs/Call.antt` and the theorems above it are equations about the code.
#[derive(Clone, Copy)]
pub struct Counted {
    pub code: u64,
    pub inside: u64,
    pub bound: u64,
}

// A count that is turned down: its number, and zeros.
pub fn refused(code: u64) -> Counted
    ensures { result ≡ counted code 0 0 }
{
    Counted {
        code,
        inside: 0,
        bound: 0,
    }
}

// How many of the `k` points from the indexes `ns` on, one for each axis, are inside the window `w`: by strips, or walked. A
// closure for either would need its `pre` and `post` at every run and window in the clauses of the count, which two calls here do not.
fn inside_by(by_strips: bool, p: PlanAxes, ns: &[u64], k: usize, w: &[u64]) -> u64
    requires { Within ns.now k × Room w.now p.axes }
    ensures { result ≡ counting.count (axes_inside p.entry w.now (of_axis ns.now)) k }
{
    if by_strips {
        return strip_count::count_inside(p, ns, k, w);
    }
    inside_count::count_inside(p, ns, k, w)
}

// The count of either call.
fn counted_by(s: Sampler, w: &[u64], by_strips: bool) -> Counted
    ensures { result ≡ count_spec s w.now }
{
    if !genuine::is_genuine(&s) {
        return refused(refusal::INVALID_STATE);
    }
    let axes = s.axes;
    if !window::is_window(w, axes) {
        return refused(refusal::BAD_WINDOW);
    }
    let ns = points::indexes(&s.starts, 0);
    let p = PlanAxes {
        family: s.family,
        axes: s.axes,
        bases: &s.bases,
        directions: &s.directions,
    };
    let inside = inside_by(by_strips, p, &ns, s.count as usize, w);
    let bound = window::bound(p, s.count);
    Counted {
        code: 0,
        inside,
        bound,
    }
}

// How many points of the whole opened run are inside the window `w`, which has u and q for each axis in turn; and the bound. Every point is walked. It
// moves nothing.
pub fn count(s: Sampler, w: &[u64]) -> Counted
    ensures { result ≡ count_spec s w.now }
{
    counted_by(s, w, false)
}

// The same count by digit strips where the rule `isWalked` of `strip_order` leaves it to them, which is far faster over long runs of the Halton
// families, and else walked.
pub fn count_by_strips(s: Sampler, w: &[u64]) -> Counted
    ensures { result ≡ count_spec s w.now }
{
    counted_by(s, w, true)
}
