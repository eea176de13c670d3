// A window's weight: the share of a run's points that are inside, and how far it may lie from the window's volume, in nine decimals.
#![tactic(auto)]

ghost use Rattle.std.specs.Prelude.{◌≡◌, ◌^◌, ◌≤◌};
ghost use Rattle.shares.specs.Rounding.{share_of, limit_of, billionths, difference_of};

// A number's whole part and its billionths.
#[derive(Clone, Copy)]
pub struct NineDecimals {
    pub whole: u64,
    pub part: u64,
}

// A difference: its size, and whether it is below 0.
#[derive(Clone, Copy)]
pub struct Difference {
    pub is_below: bool,
    pub size: u64,
}

// A number of billionths.
pub fn nine_decimals(x: u64) -> NineDecimals
    ensures { result ≡ billionths x }
{
    NineDecimals {
        whole: x / 1000000000,
        part: x % 1000000000,
    }
}

// The share of `inside` points of `n`, in billionths, to the nearest.
pub fn share(inside: u64, n: u64) -> u64
    requires { (1 ≤ n) × (n ≤ 2 ^ 32) × (inside ≤ n) }
    ensures { result ≡ share_of inside n }
{
    (inside * 1000000000 + n / 2) / n
}

// x - y.
pub fn subtract(x: u64, y: u64) -> Difference
    ensures { result ≡ difference_of x y }
{
    if x < y {
        return Difference {
            is_below: true,
            size: y - x,
        };
    }
    Difference {
        is_below: false,
        size: x - y,
    }
}

// The bound over `n` points, rounded up. The whole part is set aside first, so that every product fits.
pub fn limit(bound: u64, n: u64) -> NineDecimals
    requires { (1 ≤ n) × (n ≤ 2 ^ 32) }
    ensures { result ≡ billionths (limit_of bound n) }
{
    let rest = bound % n;
    let up = (rest * 1000000000 + (n - 1)) / n;
    NineDecimals {
        whole: bound / n + up / 1000000000,
        part: up % 1000000000,
    }
}
