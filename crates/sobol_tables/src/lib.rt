// A table of the first points of a Sobol axis, a power of two of them, 32 bits each: every later run of as many is that table and one number.
#![tactic(auto)]

ghost use Rattle.std.specs.Prelude.{◌≤◌, length};
ghost use Rattle.numbers.specs.Listed.{Begins};
ghost use Rattle.sobol.specs.Stepping.{stepped};
ghost use Rattle.columns.specs.Tiles.{Power, Table};
ghost use Rattle.sobol_tables.specs.Tables.{Directions};

// How many points a table has, for `m` rows: few where there are few rows.
fn table_size(m: usize) -> usize
    ensures { (result ≤ 256) × Power 2 result }
{
    if m < 64 { 8 } else { 256 }
}

// Writes the first `size` points by the direction numbers `v` to the front of `t`, by steps.
fn first_points(v: &[u64], size: usize, t: &mut [u32])
    requires { Directions v.now × (size ≤ 256) × (256 ≤ length t.old) }
    ensures { Begins (stepped v.now) size t.new }
{
    let mut x = 0;
    for r in 0..size {
        t[r] = x as u32;
        x = sobol::step(v, r as u64, x);
    }
}

// The table of the first points of the axis with the direction numbers `v`, for `m` rows. Answers how many it has.
pub fn table(v: &[u64], m: usize, t: &mut [u32]) -> usize
    requires { Directions v.now × (256 ≤ length t.old) }
    ensures { (result ≤ 256) × Table (stepped v.now) 2 result t.new }
{
    let size = table_size(m);
    first_points(v, size, t);
    size
}
