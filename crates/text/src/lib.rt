// Bytes and decimal numbers, put into a lent buffer. Each `put` gives the place after what it put.
#![tactic(auto)]

ghost use Rattle.std.specs.Prelude.{◌≡◌, ◌+◌, ◌^◌, ◌<◌, ◌≤◌, max, length};
ghost use Rattle.numbers.specs.Digits.{digit_count};
ghost use Rattle.text.specs.Decimal.{decimal_digits, decimal};
ghost use Rattle.text.specs.Put.{TextPut};

// Puts a text at `at`.
pub fn put(out: &mut [u8], at: usize, text: &[u8]) -> usize
    requires { at + length text.now ≤ length out.old }
    ensures { TextPut out.old out.new at text.now result }
{
    let end = at + text.len();
    out[at..end].copy_from_slice(text);
    end
}

// How many decimal digits `n` is printed with: 0 has one, and a number below 2^40 at most thirteen.
fn digit_places(n: u64) -> usize
    requires { n < 2 ^ 40 }
    ensures { (result ≡ max 1 (digit_count 10 n)) × (result ≤ 13) }
{
    let k = numbers::digit_count(10, n);
    if k == 0 { 1 } else { k as usize }
}

// The last `k` decimal digits of a number, zeros in front where it has fewer; the highest first.
pub fn put_digits(out: &mut [u8], at: usize, k: usize, n: u64) -> usize
    requires { (1 ≤ k) × (k ≤ 20) × (at + k ≤ length out.old) }
    ensures { TextPut out.old out.new at (decimal_digits k n) result × (result ≡ at + k) }
{
    let mut weight = numbers::power(10, (k - 1) as u64);
    for i in 0..k {
        out[at + i] = 48 + (n / weight % 10) as u8;
        weight = weight / 10;
    }
    at + k
}

// A number in decimal.
pub fn put_decimal(out: &mut [u8], at: usize, n: u64) -> usize
    requires { (n < 2 ^ 40) × (at + 13 ≤ length out.old) }
    ensures { TextPut out.old out.new at (decimal n) result × (result ≤ at + 13) }
{
    let k = digit_places(n);
    put_digits(out, at, k, n)
}
