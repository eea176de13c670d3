// Many points of a Sobol axis in a row, written to a column of a buffer, by steps.
#![tactic(auto)]

ghost use Rattle.std.specs.Prelude.{◌≡◌, ◌+◌, ◌*◌, ◌^◌, ◌<◌, ◌≤◌, length};
ghost use Rattle.columns.specs.Rows.{Column};
ghost use Rattle.sobol_blocks.specs.Filling.{sobol_from};

// Writes column `j` of the rows `lo` to `hi`: the numerators by the direction numbers `v`, row 0 being index `n`.
pub fn sobol_column(v: &[u64], n: u64, lo: usize, hi: usize, s: usize, j: usize, out: &mut [u64])
    requires { (length v.now ≡ 32) × (n + hi ≤ 2 ^ 32) × (lo ≤ hi) × (j < s) × (hi * s ≤ length out.old) }
    ensures { Column (sobol_from v.now n) lo hi s j out.old out.new }
{
    if lo == hi {
        return;
    }
    let mut x = sobol::jump(v, n + (lo as u64));
    out[lo * s + j] = x;
    for i in lo + 1..hi {
        x = sobol::step(v, n + (i as u64) - 1, x);
        out[i * s + j] = x;
    }
}
