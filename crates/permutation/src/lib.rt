// The permutations of the digits: Faure's, that of Kocis and Whiten, and what each family of plans does to a digit.
#![tactic(auto)]

ghost use Rattle.std.specs.Prelude.{◌≡◌, ◌-◌, ◌%◌, ◌<◌, ◌≤◌};
ghost use Rattle.std.specs.Int.Bits.{bit_and};
ghost use Rattle.permutation.specs.Faure.{faure};
ghost use Rattle.permutation.specs.Kocis.{kocis};
ghost use Rattle.permutation.specs.Families.{image_of};

// Faure's image of the digit `k` in base `b`, a power of two: the binary digits of `k` in reverse.
fn image_power(b: u64, k: u64) -> u64
    requires { (2 ≤ b) × (bit_and b (b - 1) ≡ 0) × (k < b) }
    ensures { result ≡ faure b k }
{
    let mut h = b;
    let mut d = k;
    let mut r = 0;
    while 1 < h {
        r = 2 * r + d % 2;
        d = d / 2;
        h = h / 2;
    }
    r
}

// Faure's image of the digit `k` in the even base `b`: the even rule, over the images of base b / 2. Bases 2 and 3 keep their digits.
#[cycle(image_even_image_odd)]
fn image_even(b: u64, k: u64) -> u64
    requires { (4 ≤ b) × (b % 2 ≡ 0) × (k < b) }
    ensures { result ≡ faure b k }
{
    let h = b / 2;
    let d = if k < h { k } else { k - h };
    let upper = if k < h { 0 } else { 1 };
    if h < 4 {
        return 2 * d + upper;
    }
    if h % 2 == 0 {
        2 * image_even(h, d) + upper
    } else {
        2 * image_odd(h, d) + upper
    }
}

// Faure's image of the digit `k` in the odd base `b`: the odd rule, over the images of base b - 1.
#[cycle(image_even_image_odd)]
fn image_odd(b: u64, k: u64) -> u64
    requires { (5 ≤ b) × (b % 2 ≡ 1) × (k < b) }
    ensures { result ≡ faure b k }
{
    let c = b / 2;
    if k == c {
        return c;
    }
    let d = if k < c { k } else { k - 1 };
    let r = image_even(b - 1, d);
    if r < c { r } else { r + 1 }
}

// Faure's image of the digit `k` in base `b`.
pub fn faure_image(b: u64, k: u64) -> u64
    requires { (2 ≤ b) × (k < b) }
    ensures { result ≡ faure b k }
{
    if b < 4 {
        return k;
    }
    if b % 2 == 1 {
        return image_odd(b, k);
    }
    if b & (b - 1) == 0 {
        image_power(b, k)
    } else {
        image_even(b, k)
    }
}

// The image of the digit `k` in base `b` under the permutation of Kocis and Whiten, by its binary digits, the lowest first: `r` has those taken so far,
// and `h` numbers below `b` end in them, the even ones before the odd; the image is number `d` of these, from 0. `p` is 2 to the number of digits taken.
pub fn kocis_image(b: u64, k: u64) -> u64
    requires { (2 ≤ b) × (b ≤ 256) × (k < b) }
    ensures { result ≡ kocis b k }
{
    let mut h = b;
    let mut d = k;
    let mut r = 0;
    let mut p = 1;
    while h > 1 {
        let c = (h + 1) / 2;
        let odd = if d < c { 0 } else { 1 };
        d = d - odd * c;
        r = r + odd * p;
        h = (h + 1 - odd) / 2;
        p = 2 * p;
    }
    r
}

// The image of the digit `d` in base `b`, in a plan of this family.
pub fn image(family: u64, b: u64, d: u64) -> u64
    requires { (2 ≤ b) × (b ≤ 256) × (d < b) }
    ensures { result ≡ image_of family b d }
{
    if family == 1 {
        return faure_image(b, d);
    }
    if family == 3 { kocis_image(b, d) } else { d }
}
