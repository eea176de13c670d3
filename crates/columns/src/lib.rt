// A buffer of points as rows, an axis a column: definitions and laws. The code here is where a part of the rows ends, and the rows numbered.
#![tactic(auto)]

ghost use Rattle.std.specs.Prelude.{ℕ, ◌+◌, ◌*◌, ◌^◌, ◌<◌, ◌≤◌, length};
ghost use Rattle.columns.specs.Rows.{Column};
ghost use Rattle.columns.specs.Tiles.{Tiled};

// Where a part of the rows stands in a table, and the row before which it ends.
#[derive(Clone, Copy)]
pub struct Tile {
    pub place: usize,
    pub end: usize,
}

// The part of the rows up to `hi` that starts at row `i`, of index `x`: it ends where a table of `size` entries does, or the rows do.
pub fn tile_at(x: u64, size: usize, i: usize, hi: usize) -> Tile
    requires { (1 ≤ size) × (size ≤ 256) × (i < hi) × (hi ≤ 2 ^ 32) }
    ensures { Tiled x size i hi result.place result.end }
{
    let place = (x % (size as u64)) as usize;
    let end = hi.min(i + (size - place));
    Tile {
        place: place,
        end: end,
    }
}

// Writes the first word of each of `k` rows, which have `s` words each: n, n + 1, and so on.
pub fn number(n: u64, k: usize, s: usize, out: &mut [u64])
    requires { (1 ≤ s) × (k * s ≤ length out.old) × (n + k ≤ 2 ^ 32) }
    ensures { Column (◌+◌ n) 0 k s 0 out.old out.new }
{
    for i in 0..k {
        out[i * s] = n + (i as u64);
    }
}
