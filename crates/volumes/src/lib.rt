// The volume of a window: the product of its cuts, in nine decimals.
#![tactic(auto)]

ghost use Rattle.std.specs.Prelude.{◌≡◌, true, ◌*◌, ◌/◌, ◌^◌, ◌≤◌};
ghost use Rattle.window.specs.Counting.{is_window};
ghost use Rattle.volumes.specs.Volume.{volume_of};

// v × u / q, rounded down: by the whole part of v / q and its rest, so that every product fits.
fn cut(v: u64, u: u64, q: u64) -> u64
    requires { (v ≤ 10 ^ 18) × (1 ≤ q) × (q ≤ 2 ^ 24) × (u ≤ q) }
    ensures { (result ≡ v * u / q) × (result ≤ 10 ^ 18) }
{
    v / q * u + v % q * u / q
}

// The window's volume in billionths.
pub fn volume(w: &[u64], axes: usize) -> u64
    requires { (axes ≤ 7) × (is_window w.now axes ≡ true) }
    ensures { (result ≡ volume_of w.now axes) × (result ≤ 10 ^ 9) }
{
    let mut v: u64 = 1000000000000000000;
    for i in 0..axes {
        v = cut(v, w[2 * i], w[2 * i + 1]);
    }
    (v + 500000000) / 1000000000
}
