// The Sobol axis: direction numbers, points by jump and by step.
#![tactic(auto)]

ghost use Rattle.std.specs.Prelude.{◌≡◌, ◌+◌, ◌^◌, ◌<◌, ◌≤◌, length};
ghost use Rattle.binary.specs.Polynomial.{degree_of};
ghost use Rattle.sobol.specs.Directions.{m_rule, m_next, m_list, scaled, directions, AllOddBelow};
ghost use Rattle.sobol.specs.Stepping.{stepped};

// The degree of the polynomial `p`: one less than the number of its binary digits.
pub fn degree(p: u64) -> usize
    requires { degree_of p ≤ 12 }
    ensures { result ≡ degree_of p }
{
    let k = numbers::digit_count(2, p);
    if k == 0 { 0 } else { (k - 1) as usize }
}

// m_(i+1) by the recurrence, from m_1 to m_i.
fn m_rule(m: &[u64; 32], d: usize, p: u64, i: usize) -> u64
    requires { (1 ≤ d) × (d ≤ 12) × (d ≤ i) × (i < 32) × AllOddBelow i m.now }
    ensures { result ≡ m_rule d p m.now i }
{
    let mut x = m[i - d];
    for j in 1..d + 1 {
        if (p >> (d - j)) & 1 == 1 {
            x = x ^ (m[i - j] << j);
        }
    }
    x
}

// m_(i+1): given, 1 at degree 0, or by the recurrence.
fn m_next(m: &[u64; 32], d: usize, p: u64, given: &[u64], i: usize) -> u64
    requires { (d ≤ 12) × (d ≤ length given.now) × (i < 32) × AllOddBelow i m.now }
    ensures { result ≡ m_next d p given.now i m.now }
{
    if i < d {
        return given[i];
    }
    if d == 0 {
        return 1;
    }
    m_rule(m, d, p, i)
}

// m_1 to m_32, of which the first `d` are given.
pub fn m_list(d: usize, p: u64, given: &[u64]) -> [u64; 32]
    requires { (d ≤ 12) × (d ≤ length given.now) × AllOddBelow d given.now }
    ensures { result ≡ m_list d p given.now 32 }
{
    let mut m = [0u64; 32];
    for i in 0..32 {
        let x = m_next(&m, d, p, given, i);
        m[i] = x;
    }
    m
}

// v_1 to v_32 of m_1 to m_32.
fn scale(m: [u64; 32]) -> [u64; 32]
    requires { AllOddBelow 32 m }
    ensures { result ≡ scaled 0 m }
{
    let mut v = [0u64; 32];
    for i in 0..32 {
        v[i] = m[i] << (31 - i);
    }
    v
}

// The direction numbers v_1 to v_32 of the polynomial `p` of degree `d`, with `d` given m's.
pub fn direction_numbers(d: usize, p: u64, given: &[u64]) -> [u64; 32]
    requires { (d ≤ 12) × (d ≤ length given.now) × AllOddBelow d given.now }
    ensures { result ≡ directions d p given.now }
{
    scale(m_list(d, p, given))
}

// The point of index `n`, at once: the digits of n xor (n >> 1) pick the direction numbers.
pub fn jump(v: &[u64], n: u64) -> u64
    requires { length v.now ≡ 32 }
    ensures { result ≡ stepped v.now n }
{
    binary::combine(v, n ^ (n >> 1))
}

// The point of index `n + 1` from that of index `n`, which is `x`: the trailing zeros of n's complement pick the direction number.
pub fn step(v: &[u64], n: u64, x: u64) -> u64
    requires { (length v.now ≡ 32) × (n + 1 < 2 ^ 32) × (x ≡ stepped v.now n) }
    ensures { result ≡ stepped v.now (n + 1) }
{
    let c = u64::trailing_zeros(!n) as usize;
    let direction = v[c];
    x ^ direction
}
