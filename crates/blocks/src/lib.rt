// Many points of a plan held in arrays, in a row: one axis after the other, each into its column of the buffer. A row has `lead` words before
// its point, which stay as they are.
#![tactic(auto)]

ghost use Rattle.std.specs.Prelude.{◌≡◌, ◌+◌, ◌*◌, ◌^◌, ◌<◌, ◌≤◌, length};
ghost use Rattle.columns.specs.Rows.{Column, Columns};
ghost use Rattle.points.specs.Arrays.{numerator_from, of_axis, Within};
ghost use Rattle.points.specs.PlanAxes.{axes_numerators};
ghost use Rattle.blocks.specs.Tables.{Bases, tabled_at, AllReady, AllMade};

use points::PlanAxes;

// Writes column `j` of the rows `lo` to `hi`, which have `s` words each: the numerators of axis `i`, row 0 being index `n`.
fn fill_column(
    p: PlanAxes,
    i: usize,
    n: u64,
    lo: usize,
    hi: usize,
    s: usize,
    j: usize,
    out: &mut [u64],
)
    requires { (i < p.axes) × (n + hi ≤ 2 ^ 32) × (lo ≤ hi) × (j < s) × (hi * s ≤ length out.old) }
    ensures { Column (numerator_from p.entry.family p.entry.bases.now p.entry.directions.now n i) lo hi s j out.old out.new }
{
    if p.family == 2 {
        let first = 32 * i;
        let last = first + 32;
        sobol_blocks::sobol_column(&p.directions[first..last], n, lo, hi, s, j, out);
        return;
    }
    halton_blocks::halton_column(p.family, p.bases[i], n, lo, hi, s, j, out);
}

// Writes the points of the rows `lo` to `hi`, axis after axis, row 0 being that of the indexes `ns`, one for each axis.
fn fill_rows(p: PlanAxes, ns: &[u64], lo: usize, hi: usize, out: &mut [u64], lead: usize)
    requires { (lead ≤ 1) × Within ns.now hi × (lo ≤ hi) × (hi * (lead + p.axes) ≤ length out.old) }
    ensures { Columns (axes_numerators p.entry (of_axis ns.now)) lo hi (lead + p.entry.axes) lead p.entry.axes out.old out.new }
{
    let s = lead + p.axes;
    for i in 0..p.axes {
        let n = ns[i];
        fill_column(p, i, n, lo, hi, s, lead + i, out);
    }
}

// Makes the tables of all axes of a Halton plan, 256 entries an axis, for `m` rows. Answers how many first points each axis has.
fn make_all_tables(
    family: u64,
    axes: usize,
    bases: &[u64],
    m: usize,
    images: &mut [u8],
    tables: &mut [u64],
) -> [usize; 6]
    requires { Bases axes bases.now × (length images.old ≡ 1536) × (length tables.old ≡ 1536) }
    ensures { AllMade family axes bases.now result images.new tables.new }
{
    let mut sizes = [0usize; 6];
    for i in 0..axes {
        let first = 256 * i;
        let last = first + 256;
        sizes[i] = halton_blocks::make_tables(
            family,
            bases[i],
            m,
            &mut images[first..last],
            &mut tables[first..last],
        );
    }
    sizes
}

// Writes the points of the rows `lo` to `hi` of a Halton plan, axis after axis, by the tables of all axes, row 0 being that of the indexes `ns`.
fn table_rows(
    axes: usize,
    bases: &[u64],
    images: &[u8],
    tables: &[u64],
    sizes: &[usize],
    ns: &[u64],
    lo: usize,
    hi: usize,
    out: &mut [u64],
    lead: usize,
)
    requires axes_bound { (axes ≤ 6) × (length bases.now ≡ 6) × (length sizes.now ≡ 6) × (length images.now ≡ 1536) × (length tables.now ≡ 1536) }
    requires all_ready { AllReady axes bases.now sizes.now images.now tables.now × (lead ≤ 1) × Within ns.now hi
        × (lo ≤ hi) × (hi * (lead + axes) ≤ length out.old) }
    ensures { Columns (tabled_at bases.now images.now (of_axis ns.now))
        lo hi (lead + axes) lead axes out.old out.new }
{
    let s = lead + axes;
    for i in 0..axes {
        let first = 256 * i;
        let last = first + 256;
        halton_blocks::fill_tiles(
            bases[i],
            &images[first..last],
            sizes[i],
            &tables[first..last],
            ns[i],
            lo,
            hi,
            s,
            lead + i,
            out,
        );
    }
}

// Writes the `k` points from the indexes `ns` on to the first rows of `out`, so many rows at a time that they stay near while the axes pass.
fn fill_plainly(out: &mut [u64], lead: usize, p: PlanAxes, ns: &[u64], k: usize)
    requires { (lead ≤ 1) × Within ns.now k × (k * (lead + p.axes) ≤ length out.old) }
    ensures { Columns (axes_numerators p.entry (of_axis ns.now)) 0 k (lead + p.entry.axes) lead p.entry.axes out.old out.new }
{
    let mut i = 0;
    while i < k {
        let end = k.min(i + 512);
        fill_rows(p, ns, i, end, out, lead);
        i = end;
    }
}

// Writes the `k` points of a Halton plan from the indexes `ns` on to the first rows of `out`, by tables of all axes that are made once.
fn fill_by_tables(out: &mut [u64], lead: usize, p: PlanAxes, ns: &[u64], k: usize)
    requires { (lead ≤ 1) × Within ns.now k × (k * (lead + p.axes) ≤ length out.old) × (p.family ≡ 2 → ⊥) }
    ensures { Columns (axes_numerators p.entry (of_axis ns.now)) 0 k (lead + p.entry.axes) lead p.entry.axes out.old out.new }
{
    let mut images = [0u8; 1536];
    let mut tables = [0u64; 1536];
    let sizes = make_all_tables(p.family, p.axes, p.bases, k, &mut images, &mut tables);
    let mut row = 0;
    while row < k {
        let end = k.min(row + 512);
        table_rows(
            p.axes, p.bases, &images, &tables, &sizes, ns, row, end, out, lead,
        );
        row = end;
    }
}

// Writes the `k` points from the indexes `ns` on, one for each axis, to the first rows of `out`. For many points of a Halton plan tables of all
// axes are worth their room.
pub fn fill(out: &mut [u64], lead: usize, p: PlanAxes, ns: &[u64], k: usize)
    requires { (lead ≤ 1) × Within ns.now k × (k * (lead + p.axes) ≤ length out.old) }
    ensures { Columns (axes_numerators p.entry (of_axis ns.now)) 0 k (lead + p.entry.axes) lead p.entry.axes out.old out.new }
{
    if p.family != 2 {
        if 1024 <= k {
            fill_by_tables(out, lead, p, ns, k);
            return;
        }
    }
    fill_plainly(out, lead, p, ns, k);
}
