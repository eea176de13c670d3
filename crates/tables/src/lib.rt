// Tables over one Halton axis: the images of its digits give its first points.
#![tactic(auto)]

ghost use Rattle.std.specs.Prelude.{◌≡◌, ℕ, ◌+◌, ◌*◌, ◌^◌, ◌<◌, ◌≤◌, length, get_or};
ghost use Rattle.numbers.specs.Depth.{denominator};
ghost use Rattle.halton.specs.Axis.{numerator};
ghost use Rattle.halton.specs.Images.{image_in, DigitMap};
ghost use Rattle.columns.specs.Rows.{Column};
ghost use Rattle.columns.specs.Tiles.{Table, tile_of};

// The table of the first `b` points: the image of each digit, times the weight `w` of the last place.
fn first_points(b: u64, l: &[u8], w: u64, t: &mut [u64])
    requires { (2 ≤ b) × (b ≤ 256) × (256 ≤ length l.now) × DigitMap b (image_in l.now) × (256 ≤ length t.old) × (w * b ≡ denominator b) }
    ensures { Table (numerator (image_in l.now) b) b b t.new × (length t.new ≡ length t.old) }
{
    let end = b as usize;
    for d in 0..end {
        t[d] = (l[d] as u64) * w;
    }
}

// Writes `size` entries at `at`: the first `size` ones, each with `a` added.
fn spread(a: u64, at: usize, size: usize, t: &mut [u64])
    requires { (a < 2 ^ 40) × (size ≤ at) × (at + size ≤ length t.old) × ((r : ℕ) → r < size → get_or t.old r 0 < 2 ^ 40) }
    ensures { Column (tile_of ◌+◌ a t.old 0 0) 0 size 1 at t.old t.new }
{
    for i in 0..size {
        t[i + at] = a + t[i];
    }
}

// Makes the table of the first `size` points one of `size` times `b`. `w` is the weight of the next digit.
fn grow(b: u64, l: &[u8], w: u64, size: usize, t: &mut [u64])
    requires le_b { (2 ≤ b) × (b ≤ 256) × (256 ≤ length l.now) × DigitMap b (image_in l.now) }
    requires b_bound { (size * b ≤ 256) × (256 ≤ length t.old) × (w * b * size ≡ denominator b) × Table (numerator (image_in l.now) b) b size t.old }
    ensures { Table (numerator (image_in l.now) b) b (size * b) t.new × (length t.new ≡ length t.old) }
{
    for d in 1..b {
        spread((l[d as usize] as u64) * w, (d as usize) * size, size, t);
    }
}

// The table of the first points of the axis: as many as the greatest power of `b` up to `limit`.
pub fn table(b: u64, l: &[u8], limit: usize, t: &mut [u64]) -> usize
    requires { (2 ≤ b) × (b ≤ 256) × (256 ≤ length l.now) × DigitMap b (image_in l.now) × (256 ≤ length t.old) × (b ≤ limit) × (limit ≤ 256) }
    ensures { (result ≤ 256) × Table (numerator (image_in l.now) b) b result t.new }
{
    let mut w = numbers::first_weight(b);
    first_points(b, l, w, t);
    let mut size = b as usize;
    while size * (b as usize) <= limit {
        w = w / b;
        grow(b, l, w, size, t);
        size = size * (b as usize);
    }
    size
}
