// How many points of a plan's run are inside a window: by digit strips or walked, as the rule `isWalked` of `strip_order` says.
#![tactic(auto)]

ghost use Rattle.std.specs.Prelude.{◌≡◌, ◌+◌, ◌*◌, ◌^◌, ◌≤◌, length};
ghost use Rattle.numbers.specs.Count.{count};
ghost use Rattle.discrepancy.specs.Bound.{inside};
ghost use Rattle.points.specs.Arrays.{of_axis, Within};
ghost use Rattle.window.specs.Counting.{cut_axes, cut_at};
ghost use Rattle.window.specs.Walking.{axes_inside, Room};
ghost use Rattle.strip_order.specs.Order.{Order, Bases};
ghost use Rattle.strip_count.specs.Rows.{RowPut, Rowed, Filled, Reached};

use points::PlanAxes;

// Writes row `i`: a base, a start, and the ends 0 and u / q.
fn put_row(rows: &mut [u64], i: usize, base: u64, start: u64, u: u64, q: u64)
    requires { (i ≤ 5) × (length rows.old ≡ 30) }
    ensures { RowPut i base start u q rows.old rows.new }
{
    rows[5 * i] = base;
    rows[5 * i + 1] = start;
    rows[5 * i + 2] = 0;
    rows[5 * i + 3] = u;
    rows[5 * i + 4] = q;
}

// Writes a row for each axis, in the given order.
fn put_rows(axes: usize, bases: &[u64], starts: &[u64], w: &[u64], order: &[u64], rows: &mut [u64])
    requires { Bases axes bases.now × (axes ≤ length starts.now) × Room w.now axes × (axes ≤ length order.now) × Order axes order.now × (length rows.old ≡ 30) }
    ensures { Rowed bases.now starts.now w.now order.now rows.new axes }
{
    for i in 0..axes {
        let a = order[i] as usize;
        put_row(rows, i, bases[a], starts[a], w[2 * a], w[2 * a + 1]);
    }
}

// Fills `l` with the images of the digits of each axis, 256 entries an axis, in the given order.
fn put_images(family: u64, axes: usize, bases: &[u64], order: &[u64], l: &mut [u8])
    requires { Bases axes bases.now × (axes ≤ length order.now) × Order axes order.now × (length l.old ≡ 1536) }
    ensures { Filled family bases.now order.now l.new axes }
{
    for i in 0..axes {
        let first = 256 * i;
        let last = first + 256;
        images::images(family, bases[order[i] as usize], &mut l[first..last]);
    }
}

// How many of the `k` steps of stride `stride` are inside, each axis from its own index of `ns` on, by digit strips; the axes in the given order.
fn count_strips(
    family: u64,
    axes: usize,
    bases: &[u64],
    ns: &[u64],
    stride: u64,
    k: u64,
    w: &[u64],
    order: &[u64],
) -> u64
    requires { Bases axes bases.now × (axes ≤ length ns.now) × Reached ns.now axes stride k × (k ≤ 2 ^ 32)
        × Room w.now axes × (axes ≤ length order.now) × Order axes order.now }
    ensures { result ≡ count (inside (cut_axes family bases.now (of_axis ns.now) stride (cut_at w.now)) axes) k }
{
    let mut rows = [0u64; 30];
    put_rows(axes, bases, ns, w, order, &mut rows);
    let mut l = [0u8; 1536];
    put_images(family, axes, bases, order, &mut l);
    class_count::count_class(&l, &rows, axes, 0, stride, k)
}

// How many of the `k` points from the indexes `ns` on, one for each axis, are inside, by digit strips or walked, whichever is the faster.
pub fn count_inside(p: PlanAxes, ns: &[u64], k: usize, w: &[u64]) -> u64
    requires { Within ns.now k × Room w.now p.axes }
    ensures { result ≡ count (axes_inside p.entry w.now (of_axis ns.now)) k }
{
    let mut order = [0u64; 6];
    if strip_order::is_walked(p.family, p.axes, p.bases, k as u64, w, &mut order) {
        return inside_count::count_inside(p, ns, k, w);
    }
    count_strips(p.family, p.axes, p.bases, ns, 1, k as u64, w, &order)
}
