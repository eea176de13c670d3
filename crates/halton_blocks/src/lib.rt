// Many points of a Halton axis in a row, written to a column of a buffer, by a table of its first points: every later run of as many is that
// table and one number.
#![tactic(auto)]

ghost use Rattle.std.specs.Prelude.{ℕ, ◌+◌, ◌-◌, ◌*◌, ◌^◌, ◌<◌, ◌≤◌, length, get_or};
ghost use Rattle.columns.specs.Rows.{Column};
ghost use Rattle.columns.specs.Tiles.{tile_of};
ghost use Rattle.tables.specs.Tables.{tabled};
ghost use Rattle.halton_blocks.specs.Filling.{halton_from, Ready, Made};

// Writes column `j` of the rows `lo` to `hi`: `base` and the table's entries, from entry `r` on.
fn run(base: u64, t: &[u64], r: usize, lo: usize, hi: usize, s: usize, j: usize, out: &mut [u64])
    requires base_bound { (base < 2 ^ 40) × (lo ≤ hi) × (hi - lo + r ≤ length t.now) × (j < s) × (hi * s ≤ length out.old) }
    requires by_index { (x : ℕ) → x < hi - lo + r → get_or t.now x 0 < 2 ^ 40 }
    ensures { Column (tile_of ◌+◌ base t.now lo r) lo hi s j out.old out.new }
{
    for i in lo..hi {
        out[i * s + j] = base + t[i - lo + r];
    }
}

// Writes column `j` of the rows `lo` to `hi`, row 0 being index `n`, a table's length at a time: `l` are the images of base `b`, all of them, so
// that no family is asked, and `t` its first `size` points.
pub fn fill_tiles(
    b: u64,
    l: &[u8],
    size: usize,
    t: &[u64],
    n: u64,
    lo: usize,
    hi: usize,
    s: usize,
    j: usize,
    out: &mut [u64],
)
    requires ready { Ready b size l.now t.now × (256 ≤ length l.now) × (256 ≤ length t.now) }
    requires hi_bound { (n + hi ≤ 2 ^ 32) × (lo ≤ hi) × (j < s) × (hi * s ≤ length out.old) }
    ensures { Column (tabled l.now b n) lo hi s j out.old out.new }
{
    let mut i = lo;
    while i < hi {
        let part = columns::tile_at(n + (i as u64), size, i, hi);
        let r = part.place;
        let end = part.end;
        let first = halton::jump(0, b, l, n + (i as u64) - (r as u64));
        run(first.numerator, t, r, i, end, s, j, out);
        i = end;
    }
}

// How many points a table may have, for `m` rows of base `b`: the base at least, and then no more than there are rows.
fn table_limit(b: u64, m: usize) -> usize
    requires { (1 ≤ b) × (b ≤ 256) }
    ensures { (b ≤ result) × (result ≤ 256) }
{
    if m < (b as usize) {
        return b as usize;
    }
    m.min(256)
}

// Makes the images of an axis and its first points, in the fronts of `l` and `t`, for `m` rows. Answers how many first points there are.
pub fn make_tables(family: u64, b: u64, m: usize, l: &mut [u8], t: &mut [u64]) -> usize
    requires { (2 ≤ b) × (b ≤ 256) × (256 ≤ length l.old) × (256 ≤ length t.old) }
    ensures { Made family b result l.new t.new }
{
    images::images(family, b, l);
    let limit = table_limit(b, m);
    tables::table(b, l, limit, t)
}

// Writes column `j` of the rows `lo` to `hi`: the numerators in base `b`, row 0 being index `n`, by a table.
fn table_column(
    family: u64,
    b: u64,
    n: u64,
    lo: usize,
    hi: usize,
    s: usize,
    j: usize,
    out: &mut [u64],
)
    requires { (2 ≤ b) × (b ≤ 256) × (n + hi ≤ 2 ^ 32) × (lo ≤ hi) × (j < s) × (hi * s ≤ length out.old) }
    ensures { Column (halton_from family b n) lo hi s j out.old out.new }
{
    let mut l = [0u8; 256];
    let mut t = [0; 256];
    let size = make_tables(family, b, hi - lo, &mut l, &mut t);
    fill_tiles(b, &l, size, &t, n, lo, hi, s, j, out);
}

// Writes column `j` of the rows `lo` to `hi`: the numerators in base `b`, row 0 being index `n`, by a jump for each row.
fn jump_column(
    family: u64,
    b: u64,
    n: u64,
    lo: usize,
    hi: usize,
    s: usize,
    j: usize,
    out: &mut [u64],
)
    requires { (2 ≤ b) × (b ≤ 256) × (n + hi ≤ 2 ^ 32) × (lo ≤ hi) × (j < s) × (hi * s ≤ length out.old) }
    ensures { Column (halton_from family b n) lo hi s j out.old out.new }
{
    for i in lo..hi {
        let r = halton::jump(family, b, &[], n + (i as u64));
        out[i * s + j] = r.numerator;
    }
}

// Writes column `j` of the rows `lo` to `hi`: the numerators in base `b`, row 0 being index `n`. From 8 rows on a table is worth its making.
pub fn halton_column(
    family: u64,
    b: u64,
    n: u64,
    lo: usize,
    hi: usize,
    s: usize,
    j: usize,
    out: &mut [u64],
)
    requires { (2 ≤ b) × (b ≤ 256) × (n + hi ≤ 2 ^ 32) × (lo ≤ hi) × (j < s) × (hi * s ≤ length out.old) }
    ensures { Column (halton_from family b n) lo hi s j out.old out.new }
{
    if hi - lo < 8 {
        jump_column(family, b, n, lo, hi, s, j, out);
    } else {
        table_column(family, b, n, lo, hi, s, j, out);
    }
}
