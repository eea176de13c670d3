// The Halton axis: the numerator of an index by jump and by step, over the digit images of any family.
#![tactic(auto)]

ghost use Rattle.std.specs.Prelude.{◌≡◌, ◌+◌, ◌^◌, ◌<◌, ◌≤◌};
ghost use Rattle.permutation.specs.Families.{image_of};
ghost use Rattle.halton.specs.Axis.{numerator};
ghost use Rattle.halton.specs.Images.{image_in, image_by, DigitMap};

// What reversing an index tells.
#[derive(Clone, Copy)]
pub struct Reversed {
    pub numerator: u64,
}

// The image of the digit `d` in base `b`: the entry of the lent table `images` where that has all of the base's digits, else by the family.
fn digit_image(family: u64, b: u64, images: &[u8], d: u64) -> u64
    requires { (2 ≤ b) × (b ≤ 256) × (d < b) }
    ensures { result ≡ image_by family b images.now d }
{
    if (images.len() as u64) < b {
        return match family {
            1 => permutation::faure_image(b, d),
            3 => permutation::kocis_image(b, d),
            _ => d,
        };
    }
    images[d as usize] as u64
}

// The numerator of index `n` in base `b`: the reversing loop, by Horner's rule over the digits of `n`, lowest first, until none is left. The leading
// zeros stay zeros: they are one factor, the power of `b` that takes `p` to the denominator. `images` is a lent table of the digits' images, or
// empty. It divides by `b` once: where r × b is below 2^32, r / b is r × (2^32 / b + 1) / 2^32. One place asks for an image, so that the compiler
// builds the families' images into the loop.
pub fn jump(family: u64, b: u64, images: &[u8], n: u64) -> Reversed
    requires { (2 ≤ b) × (b ≤ 256) × (n < 2 ^ 32) × DigitMap b (image_in images.now) }
    ensures { result.numerator ≡ numerator (image_by family b images.now) b n }
{
    let m = 4294967296 / b + 1;
    let mut q = numbers::quotient(n, b, m);
    let mut rest = n;
    let mut x = 0;
    let mut p = 1;
    while rest != 0 {
        x = x * b + digit_image(family, b, images, rest - q * b);
        rest = q;
        q = q * m / 4294967296;
        p = p * b;
    }
    if p < numbers::INDEXES {
        x = x * (numbers::denominator(b) / p);
    }
    Reversed { numerator: x }
}

// The numerator of index `n + 1` from that of index `n`, which is `x`: the carry goes to the right.
pub fn step(family: u64, b: u64, n: u64, x: u64) -> u64
    requires { (2 ≤ b) × (b ≤ 256) × (x ≡ numerator (image_of family b) b n) }
    ensures { result ≡ numerator (image_of family b) b (n + 1) }
{
    let mut w = numbers::first_weight(b);
    let mut rest = n;
    let mut y = x;
    while 0 < w {
        let a = rest % b;
        if a < b - 1 {
            return y - permutation::image(family, b, a) * w
                + permutation::image(family, b, a + 1) * w;
        }
        y = y - permutation::image(family, b, a) * w;
        w = w / b;
        rest = rest / b;
    }
    y
}
