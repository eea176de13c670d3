// Number theory that every axis rests on: Euclid's rule, digits, powers, the denominator of a base.
#![tactic(auto)]

ghost use Rattle.std.specs.Prelude.{◌≡◌, ℕ, ◌+◌, ◌*◌, ◌/◌, ◌^◌, ◌<◌, ◌≤◌};
ghost use Rattle.numbers.specs.Gcd.{gcd};
ghost use Rattle.numbers.specs.Digits.{digit_count};
ghost use Rattle.numbers.specs.Depth.{denominator};

// How many indexes there are, 2^32: an index lies below it, and a run's start + count is at most this.
pub const INDEXES: u64 = 4294967296;

// The greatest common divisor, by Euclid's rule.
pub fn gcd(a: u64, b: u64) -> u64
    ensures { result ≡ gcd a b }
{
    let mut x = a;
    let mut y = b;
    while y != 0 {
        let z = x % y;
        x = y;
        y = z;
    }
    x
}

// How many digits `n` has in base `b`: none for 0.
pub fn digit_count(b: u64, n: u64) -> u64
    requires { 2 ≤ b }
    ensures { result ≡ digit_count b n }
{
    let mut rest = n;
    let mut k = 0;
    while rest != 0 {
        rest = rest / b;
        k = k + 1;
    }
    k
}

// `b` to the power `k`, which fits a word.
pub fn power(b: u64, k: u64) -> u64
    requires { (0 < b) × (b ^ k < 2 ^ 64) }
    ensures { result ≡ b ^ k }
{
    let mut p = 1;
    for i in 0..k {
        p = p * b;
    }
    p
}

// A power of `b` below 2^32, by steps of four factors: four more reach 2^32.
fn power_below(b: u64) -> u64
    requires { (2 ≤ b) × (b ≤ 256) }
    ensures { ((k : ℕ) × (result ≡ b ^ k)) × (result < 2 ^ 32) × (2 ^ 32 ≤ result * (b * b * b * b)) }
{
    let fourth = b * b * b * b;
    let mut p = 1;
    while p * fourth < INDEXES {
        p = p * fourth;
    }
    p
}

// `w` times `s`, or `w` where the product is not below 2^32.
fn raised(w: u64, s: u64) -> u64
    requires { (w < 2 ^ 32) × (s ≤ 2 ^ 16) }
    ensures { (w * s < 2 ^ 32 → result ≡ w * s) × (2 ^ 32 ≤ w * s → result ≡ w) }
{
    let p = w * s;
    if p < INDEXES { p } else { w }
}

// What an index's lowest digit weighs on an axis of base `b`, its denominator over `b`: the greatest power of `b` below 2^32, by multiplications
// alone. Of the last three factors two are taken together. With a second loop here the compiler no longer parts the reversing loop by family.
pub fn first_weight(b: u64) -> u64
    requires { (2 ≤ b) × (b ≤ 256) }
    ensures { result ≡ denominator b / b }
{
    raised(raised(power_below(b), b * b), b)
}

// The denominator of an axis of base `b`: the least power of `b` at or above 2^32.
pub fn denominator(b: u64) -> u64
    requires { (2 ≤ b) × (b ≤ 256) }
    ensures { result ≡ denominator b }
{
    first_weight(b) * b
}

// n / b by a product, where `m` is 2^32 / b + 1: the upper half of n × m is the quotient or one more.
pub fn quotient(n: u64, b: u64, m: u64) -> u64
    requires { (2 ≤ b) × (b ≤ 256) × (n < 2 ^ 32) × (m ≡ 2 ^ 32 / b + 1) }
    ensures { result ≡ n / b }
{
    let q = n * m / 4294967296;
    if n < q * b { q - 1 } else { q }
}
