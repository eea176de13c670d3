// The calls of the host firmware, which is C: on numbers and byte slices, with no state. The crate `hisowake_c` exports them.
#![tactic(auto)]

ghost use Rattle.std.specs.Prelude.{◌≡◌, true, ◌++◌, ◌*◌, ◌^◌, ◌<◌, ◌≤◌, length, drop};
ghost use Rattle.plan.specs.Answer.{plan_answered, Accepted};
ghost use Rattle.points.specs.Point.{point_of};
ghost use Rattle.points.specs.Run.{start_in_range};
ghost use Rattle.big_endian.specs.Bytes.{word_bytes};
ghost use Rattle.hisowake.specs.Calls.{point_code, point_bytes, is_window_bytes, answers_of, count_code, count_bytes};

use plan::PlanRead;
use points::PlanAxes;

// Writes the point of index `n` of a plan that the reader accepted.
fn put_point(out: &mut [u8], a: PlanRead, n: u64)
    requires { Accepted a × (n < 2 ^ 32) × (8 * a.axes ≤ length out.old) }
    ensures { out.new ≡ word_bytes (point_of (plan_answered a) n) ++ drop (8 * a.axes) out.old }
{
    let bases = a.bases;
    let directions = state::plan_directions(a);
    let p = PlanAxes {
        family: a.family,
        axes: a.axes,
        bases: &bases,
        directions: &directions,
    };
    let zeros = [0u64; 6];
    let x = points::point(p, &zeros, n);
    big_endian::put_words(out, &x[..a.axes]);
}

// Writes the point of any index to the front of `out`: 8 bytes an axis, most significant first. Answers 0 or the refusal's number, as C has it.
pub fn hisowake_point(plan: &[u8], index: u64, out: &mut [u8]) -> u64
    ensures { (result ≡ point_code plan.now index out.old) × (out.new ≡ point_bytes plan.now index out.old) }
{
    let a = reader::read_plan(plan);
    if a.code != 0 {
        return a.code;
    }
    let code = c_refusals::point_refusal(index, a.axes, out.len());
    if code != 0 {
        return code;
    }
    put_point(out, a, index);
    0
}

// Whether these bytes are a window of so many axes: 8 bytes an axis, and each u and q in its range.
fn is_window_bytes(bytes: &[u8], axes: usize) -> bool
    requires { axes ≤ 6 }
    ensures { result ≡ is_window_bytes bytes.now axes }
{
    if bytes.len() != 8 * axes {
        return false;
    }
    let w = big_endian::window_numbers(bytes, axes);
    let end = 2 * axes;
    window::is_window(&w[..end], axes)
}

// Writes S and the bound of a run of a plan that the reader accepted.
fn put_count(out: &mut [u8], a: PlanRead, start: u64, count: u64, window: &[u8])
    requires { Accepted a × (start_in_range start count ≡ true) × (is_window_bytes window.now a.axes ≡ true) × (16 ≤ length out.old) }
    ensures { out.new ≡ word_bytes (answers_of (plan_answered a) start count window.now) ++ drop 16 out.old }
{
    let bases = a.bases;
    let directions = state::plan_directions(a);
    let p = PlanAxes {
        family: a.family,
        axes: a.axes,
        bases: &bases,
        directions: &directions,
    };
    let w = big_endian::window_numbers(window, a.axes);
    let end = 2 * a.axes;
    let ns = [start; 6];
    let inside = inside_count::count_inside(p, &ns, count as usize, &w[..end]);
    let bound = window::bound(p, count);
    big_endian::put_words(out, &[inside, bound]);
}

// Writes S, how many points of the run are inside the window, and the bound of demand 3 to the front of `out`: 8 bytes each, most significant first.
// The window has u and then q for each axis, 4 bytes each, likewise. Answers 0 or the refusal's number, as C has it.
pub fn hisowake_window_count(
    plan: &[u8],
    start: u64,
    count: u64,
    window: &[u8],
    out: &mut [u8],
) -> u64
    ensures { (result ≡ count_code plan.now start count window.now out.old) × (out.new ≡ count_bytes plan.now start count window.now out.old) }
{
    let a = reader::read_plan(plan);
    if a.code != 0 {
        return a.code;
    }
    let w = is_window_bytes(window, a.axes);
    let code = c_refusals::count_refusal(start, count, w, out.len());
    if code != 0 {
        return code;
    }
    put_count(out, a, start, count, window);
    0
}
