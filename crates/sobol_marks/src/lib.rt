// Flags for the points of a Sobol axis in a row, by a table of its first points. No point is stored: a run of them is the table's entries, each
// xor the run's one number.
#![tactic(auto)]

ghost use Rattle.std.specs.Prelude.{◌+◌, ◌-◌, ◌^◌, ◌<◌, ◌≤◌, length};
ghost use Rattle.std.specs.Int.Bits.{bit_xor};
ghost use Rattle.sobol.specs.Stepping.{stepped};
ghost use Rattle.columns.specs.Tiles.{Table, tile_of};
ghost use Rattle.sobol_tables.specs.Tables.{Directions};
ghost use Rattle.sobol_blocks.specs.Filling.{sobol_from};
ghost use Rattle.marks.specs.Marking.{Marked};

// Tests the points `lo` to `hi`: the table's entries, from entry `r` on, each xor `base`.
fn run(base: u32, t: &[u32], r: usize, lo: usize, hi: usize, limit: u32, l: &mut [u8])
    requires { (lo ≤ hi) × (hi - lo + r ≤ length t.now) × (hi ≤ length l.old) }
    ensures { Marked (tile_of bit_xor base t.now lo r) limit lo hi l.old l.new }
{
    for i in lo..hi {
        l[i] = marks::keep((base ^ t[i - lo + r]) as u64, limit as u64, l[i]);
    }
}

// Tests the first `m` points from index `n` on, a table's length at a time: `t` has the first `size` points by the direction numbers `v`.
fn tiles(v: &[u64], size: usize, t: &[u32], n: u64, m: usize, limit: u32, l: &mut [u8])
    requires directions { Directions v.now × (size ≤ 256) × (256 ≤ length t.now) × Table (stepped v.now) 2 size t.now }
    requires m_bound { (n + m ≤ 2 ^ 32) × (m ≤ length l.old) }
    ensures { Marked (sobol_from v.now n) limit 0 m l.old l.new }
{
    let mut i = 0;
    while i < m {
        let part = columns::tile_at(n + (i as u64), size, i, m);
        let r = part.place;
        let end = part.end;
        let base = sobol::jump(v, n + (i as u64) - (r as u64));
        run(base as u32, t, r, i, end, limit, l);
        i = end;
    }
}

// Clears the flags of those of the first `m` points from index `n` on, by the direction numbers `v`, that are not below `limit`: none where it is
// 2^32 or more.
pub fn sobol_marks(v: &[u64], n: u64, m: usize, limit: u64, l: &mut [u8])
    requires { Directions v.now × (n + m ≤ 2 ^ 32) × (m ≤ length l.old) }
    ensures { Marked (sobol_from v.now n) limit 0 m l.old l.new }
{
    if 4294967295 < limit {
        return;
    }
    let mut t = [0u32; 256];
    let size = sobol_tables::table(v, m, &mut t);
    tiles(v, size, &t, n, m, limit as u32, l);
}
