// Flags for a row of numbers, a byte each: definitions and laws. The code here tests one number.
#![tactic(auto)]

ghost use Rattle.std.specs.Prelude.{◌≡◌, cond, ltb};

// The flag `f` where `x` is below `limit`, else 0.
pub fn keep(x: u64, limit: u64, f: u8) -> u8
    ensures { result ≡ cond (ltb x limit) f 0 }
{
    if x < limit { f } else { 0 }
}
