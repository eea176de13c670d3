// The images of all digits of a base as a table of bytes. Those of a permutation are made in place from those of half the base, with about two
// stores a digit in all.
#![tactic(auto)]

ghost use Rattle.std.specs.Prelude.{◌≡◌, ◌+◌, ◌-◌, ◌/◌, ◌%◌, ◌<◌, ◌≤◌, length};
ghost use Rattle.numbers.specs.Listed.{Begins};
ghost use Rattle.permutation.specs.Faure.{open_gap, faure};
ghost use Rattle.permutation.specs.Kocis.{kocis};
ghost use Rattle.permutation.specs.Families.{image_of};
ghost use Rattle.images.specs.Doubled.{Small, Doubled};

// The digits of base `b`, each itself, in the front of `l`.
fn plain_images(b: usize, l: &mut [u8])
    requires { (b ≤ 256) × (256 ≤ length l.old) }
    ensures { Begins (image_of 0 b) b l.new }
{
    for d in 0..b {
        l[d] = d as u8;
    }
}

// Makes each number x of `l` from place `a` up to `e` twice as large, and puts 2 x + 1 `s` places on.
fn double_part(a: usize, e: usize, s: usize, l: &mut [u8])
    requires { (a ≤ e) × (e ≤ s + a) × (s + e ≤ 256) × (256 ≤ length l.old) × Small a e l.old }
    ensures { Doubled a e s l.old l.new }
{
    for k in a..e {
        let lower = 2 * l[k];
        let upper = lower + 1;
        l[k] = lower;
        l[s + k] = upper;
    }
}

// The image `x` with the gap at the centre `c` opened: from `c` up it is one more.
fn raise(c: u8, x: u8) -> u8
    requires { x < 255 }
    ensures { result ≡ open_gap c x }
{
    if x < c { x } else { x + 1 }
}

// Makes the images of base b / 2 in `l` those of the odd base `b`: the even rule, then the odd, which puts the centre between the halves.
fn odd_images(b: usize, l: &mut [u8])
    requires { (5 ≤ b) × (b ≤ 256) × (b % 2 ≡ 1) × (256 ≤ length l.old) × Begins (faure (b / 2)) (b / 2) l.old }
    ensures { Begins (faure b) b l.new }
{
    let c = b / 2;
    for k in 0..c {
        let x = 2 * l[k];
        let low = raise(c as u8, x);
        let high = raise(c as u8, x + 1);
        l[k] = low;
        l[c + 1 + k] = high;
    }
    l[c] = c as u8;
}

// Faure's images of the digits of base `b`, in the front of `l`. Bases 2 and 3 keep their digits.
fn faure_images(b: usize, l: &mut [u8])
    requires { (2 ≤ b) × (b ≤ 256) × (256 ≤ length l.old) }
    ensures { Begins (faure b) b l.new }
{
    if b < 4 {
        plain_images(b, l);
        return;
    }
    let h = b / 2;
    faure_images(h, l);
    if b % 2 == 0 {
        double_part(0, h, h, l);
    } else {
        odd_images(b, l);
    }
}

// The images of the digits of base `b` under the permutation of Kocis and Whiten, in the front of `l`, and the place of b - 1, the largest. They come of
// those of base h, the larger half: each doubled gives the even images, and each doubled and one more the odd, without b itself.
fn kocis_images(b: usize, l: &mut [u8]) -> usize
    requires { (1 ≤ b) × (b ≤ 256) × (256 ≤ length l.old) }
    ensures { Begins (kocis b) b l.new × (result < b) × (kocis b result ≡ b - 1) }
{
    if b < 2 {
        l[0] = 0;
        return 0;
    }
    let h = (b + 1) / 2;
    let u = kocis_images(h, l);
    if b % 2 == 1 {
        double_part(0, u, h, l);
        l[u] = (b - 1) as u8;
        double_part(u + 1, h, h - 1, l);
        return u;
    }
    double_part(0, h, h, l);
    h + u
}

// The images of the digits of base `b` in a plan of this family, in the front of `l`.
pub fn images(family: u64, b: u64, l: &mut [u8])
    requires { (2 ≤ b) × (b ≤ 256) × (256 ≤ length l.old) }
    ensures { Begins (image_of family b) b l.new }
{
    if family == 1 {
        faure_images(b as usize, l);
        return;
    }
    if family == 3 {
        kocis_images(b as usize, l);
    } else {
        plain_images(b as usize, l);
    }
}
