// Reading the bases of a Halton plan: the fields in their order, and the first refusal that holds.
#![tactic(auto)]

ghost use Rattle.std.specs.Prelude.{◌≡◌, ◌+◌, ◌*◌, ◌≤◌, [], length, take, drop, MatchResult};
ghost use Rattle.bits.specs.Stream.{bits_of};
ghost use Rattle.plan.specs.Reading.{refuse, shares_factor, read_bases};
ghost use Rattle.plan.specs.RefusalNumbers.{number_of};
ghost use Rattle.halton_reader.specs.Bases.{BasesAnswer};

use plan::refusal::Refusal;

// Whether `b` is not coprime to one of the first `n` bases.
fn shares_factor(b: u64, bases: &[u64], n: usize) -> bool
    requires { n ≤ length bases.now }
    ensures { result ≡ shares_factor b (take n bases.now) }
{
    for base in &bases[..n] {
        if numbers::gcd(b, *base) != 1 {
            return true;
        }
    }
    false
}

// The bases of a plan, 0 in the places that it does not use, and the bit after them.
#[derive(Clone, Copy)]
pub struct BasesRead {
    pub at: usize,
    pub bases: [u64; 6],
}

// The bases of `axes` Halton axes, from bit 5 on.
pub fn read_bases(bytes: &[u8], axes: usize) -> Result<BasesRead, Refusal>
    requires { (5 ≤ 8 * length bytes.now) × (axes ≤ 6) }
    ensures { MatchResult result
        (λ b. BasesAnswer bytes.now axes b.at b.bases)
        (λ e. read_bases axes [] (drop 5 (bits_of bytes.now)) ≡ refuse (number_of e)) }
{
    let mut bases = [0u64; 6];
    let mut at: usize = 5;
    for i in 0..axes {
        if bits::is_short(bytes, at, 8) {
            return Err(Refusal::Truncated);
        }
        let v = bits::field(bytes, at, 8);
        if v == 0 {
            return Err(Refusal::BadBase);
        }
        if shares_factor(v + 1, &bases, i) {
            return Err(Refusal::CommonFactor);
        }
        bases[i] = v + 1;
        at += 8;
    }
    Ok(BasesRead { at, bases })
}
