// Flags for the points of a Halton axis in a row, by a table of its first points. No point is stored: a run of them is below a limit where
// the table's entries are below what the run's one number leaves of it.
#![tactic(auto)]

ghost use Rattle.std.specs.Prelude.{◌≡◌, ◌+◌, ◌-◌, ◌^◌, ◌<◌, ◌≤◌, length};
ghost use Rattle.columns.specs.Tiles.{tile_of};
ghost use Rattle.tables.specs.Tables.{tabled};
ghost use Rattle.halton_blocks.specs.Filling.{halton_from, Ready};
ghost use Rattle.marks.specs.Marking.{Marked};

// What `base` leaves of `limit`: 0 where it is no less.
fn left(limit: u64, base: u64) -> u64
    ensures { result ≡ limit - base }
{
    if base < limit { limit - base } else { 0 }
}

// Tests the points `lo` to `hi`: `base` and the table's entries, from entry `r` on.
fn run(base: u64, t: &[u64], r: usize, lo: usize, hi: usize, limit: u64, l: &mut [u8])
    requires { (lo ≤ hi) × (hi - lo + r ≤ length t.now) × (hi ≤ length l.old) }
    ensures { Marked (tile_of ◌+◌ base t.now lo r) limit lo hi l.old l.new }
{
    let bound = left(limit, base);
    for i in lo..hi {
        l[i] = marks::keep(t[i - lo + r], bound, l[i]);
    }
}

// Tests the first `m` points from index `n` on, a table's length at a time: `images` are those of base `b`, all of them, so that no family is
// asked, and `t` its first `size` points.
fn tiles(b: u64, images: &[u8], size: usize, t: &[u64], n: u64, m: usize, limit: u64, l: &mut [u8])
    requires ready { Ready b size images.now t.now × (256 ≤ length images.now) × (256 ≤ length t.now) }
    requires m_bound { (n + m ≤ 2 ^ 32) × (m ≤ length l.old) }
    ensures { Marked (tabled images.now b n) limit 0 m l.old l.new }
{
    let mut i = 0;
    while i < m {
        let part = columns::tile_at(n + (i as u64), size, i, m);
        let r = part.place;
        let end = part.end;
        let first = halton::jump(0, b, images, n + (i as u64) - (r as u64));
        run(first.numerator, t, r, i, end, limit, l);
        i = end;
    }
}

// Clears the flags of those of the first `m` points from index `n` on in base `b` that are not below `limit`.
pub fn halton_marks(family: u64, b: u64, n: u64, m: usize, limit: u64, l: &mut [u8])
    requires { (2 ≤ b) × (b ≤ 256) × (n + m ≤ 2 ^ 32) × (m ≤ length l.old) }
    ensures { Marked (halton_from family b n) limit 0 m l.old l.new }
{
    let mut images = [0u8; 256];
    let mut t = [0; 256];
    let size = halton_blocks::make_tables(family, b, m, &mut images, &mut t);
    tiles(b, &images, size, &t, n, m, limit, l);
}
