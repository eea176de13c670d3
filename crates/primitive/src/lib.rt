// Primitive polynomials over two elements, decided by powers of x.
#![tactic(auto)]

ghost use Rattle.std.specs.Prelude.{◌≡◌, ◌∷◌, ℕ, ◌+◌, ◌-◌, ◌/◌, ◌^◌, ◌<◌, ◌≤◌, length, get_or};
ghost use Rattle.numbers.specs.Listed.{Begins};
ghost use Rattle.binary.specs.Gf2.{combination};
ghost use Rattle.binary.specs.Polynomial.{Degree, times_x, is_primitive};
ghost use Rattle.binary.specs.Power.{power_of_x, Squares, Quotients};
ghost use Rattle.primitive.specs.Fours.{by_fours, Squaring};
ghost use Rattle.primitive.specs.Powers.{power_at, power_from};

// x times `r`, modulo the polynomial `p`; `top` is 2^d.
fn times_x(r: u64, p: u64, top: u64) -> u64
    requires { r < 2 ^ 63 }
    ensures { result ≡ times_x top p r }
{
    let s = r * 2;
    if s < top { s } else { s ^ p }
}

// The squares of 1, x, x^2 and so on, modulo the polynomial `p` of degree `d`.
fn squares(p: u64, d: u64) -> [u64; 12]
    requires { (1 ≤ d) × (d ≤ 12) × Degree d p }
    ensures { Squares d p result }
{
    let top: u64 = 1 << d;
    let mut words = [0u64; 12];
    let mut x = 1;
    for w in words.iter_mut() {
        *w = x;
        x = times_x(times_x(x, p, top), p, top);
    }
    words
}

// The sixteen combinations of four words: at i stands that with the digits of i.
fn four(words: &[u64]) -> [u64; 16]
    requires { length words.now ≡ 4 }
    ensures { Begins (combination words.now) 16 result }
{
    let a = words[0];
    let b = words[1];
    let c = words[2];
    let d = words[3];
    let ab = a ^ b;
    let ac = a ^ c;
    let bc = b ^ c;
    let abc = ab ^ c;
    [
        0,
        a,
        b,
        ab,
        c,
        ac,
        bc,
        abc,
        d,
        a ^ d,
        b ^ d,
        ab ^ d,
        c ^ d,
        ac ^ d,
        bc ^ d,
        abc ^ d,
    ]
}

// The combination of twelve words with the digits of `g`: an entry of the table of each four of them, added.
fn by_fours(low: &[u64; 16], middle: &[u64; 16], high: &[u64; 16], g: u64) -> u64
    ensures { result ≡ by_fours low.now middle.now high.now g }
{
    low[(g % 16) as usize] ^ middle[(g / 16 % 16) as usize] ^ high[(g / 256 % 16) as usize]
}

// x to the digits of `e` from `place` on, modulo the polynomial `p` of degree `d`. `r` is the power of the digits above: it is squared, and for a 1
// at `place` once more multiplied by x.
fn turned(
    r: u64,
    e: u64,
    place: u64,
    low: &[u64; 16],
    middle: &[u64; 16],
    high: &[u64; 16],
    p: u64,
    d: u64,
) -> u64
    requires { Squaring d p low.now middle.now high.now × (place < d) × (r ≡ power_of_x (2 ^ d) p (e / 2 ^ (place + 1))) }
    ensures { result ≡ power_of_x (2 ^ d) p (e / 2 ^ place) }
{
    let square = by_fours(low, middle, high, r);
    if (e >> place) & 1 == 1 {
        return times_x(square, p, 1 << d);
    }
    square
}

// The five powers of x, each turned: x to the exponents' digits from `place` on.
fn all_turned(
    powers: [u64; 5],
    exponents: [u64; 5],
    place: u64,
    low: &[u64; 16],
    middle: &[u64; 16],
    high: &[u64; 16],
    p: u64,
    d: u64,
) -> [u64; 5]
    requires { Squaring d p low.now middle.now high.now × (place < d) × Begins (power_from d p exponents (place + 1)) 5 powers }
    ensures { Begins (power_from d p exponents place) 5 result }
{
    let mut next = powers;
    for i in 0..5 {
        let r = turned(next[i], exponents[i], place, low, middle, high, p, d);
        next[i] = r;
    }
    next
}

// x to each of the five exponents, modulo the polynomial `p` of degree `d`. The powers go side by side, from the exponents' highest digits on.
fn powers_of_x(
    exponents: [u64; 5],
    low: &[u64; 16],
    middle: &[u64; 16],
    high: &[u64; 16],
    p: u64,
    d: u64,
) -> [u64; 5]
    requires { Squaring d p low.now middle.now high.now × ((k : ℕ) → k < 5 → get_or exponents k 0 < 2 ^ d) }
    ensures { Begins (power_at d p exponents) 5 result }
{
    let mut powers = [1u64; 5];
    for place in (0..d).rev() {
        let next = all_turned(powers, exponents, place, low, middle, high, p, d);
        powers = next;
    }
    powers
}

// (2^d - 1) / r for the primes r that divide 2^d - 1, and 0 for the rest of the four.
fn quotients(d: u64) -> [u64; 4]
    requires { (1 ≤ d) × (d ≤ 12) }
    ensures { Quotients d result }
{
    match d {
        2 => return [1, 0, 0, 0],
        3 => return [1, 0, 0, 0],
        4 => return [5, 3, 0, 0],
        5 => return [1, 0, 0, 0],
        6 => return [21, 9, 0, 0],
        7 => return [1, 0, 0, 0],
        8 => return [85, 51, 15, 0],
        9 => return [73, 7, 0, 0],
        10 => return [341, 93, 33, 0],
        11 => return [89, 23, 0, 0],
        12 => return [1365, 819, 585, 315],
        _ => return [0, 0, 0, 0],
    }
}

// x to 2^d - 1 and to the four quotients, modulo the polynomial `p` of degree `d`.
fn powers_tested(q: [u64; 4], p: u64, d: u64) -> [u64; 5]
    requires { (1 ≤ d) × (d ≤ 12) × Degree d p × Quotients d q }
    ensures { Begins (power_at d p ((2 ^ d - 1) ∷ q)) 5 result }
{
    let top: u64 = 1 << d;
    let exponents = [top - 1, q[0], q[1], q[2], q[3]];
    let words = squares(p, d);
    let low = four(&words[0..4]);
    let middle = four(&words[4..8]);
    let high = four(&words[8..12]);
    powers_of_x(exponents, &low, &middle, &high, p, d)
}

// Whether `p`, of degree `d`, is primitive: x^(2^d - 1) is 1, and no power at a quotient is.
pub fn is_primitive(d: u64, p: u64) -> bool
    requires { (1 ≤ d) × (d ≤ 12) × Degree d p }
    ensures { result ≡ is_primitive d p }
{
    let q = quotients(d);
    let powers = powers_tested(q, p, d);
    if powers[0] != 1 {
        return false;
    }
    for i in 0..4 {
        if 0 < q[i] {
            if powers[i + 1] == 1 {
                return false;
            }
        }
    }
    true
}
