// Arithmetic over two elements: linear combinations of words. The rest is laws.
#![tactic(auto)]

ghost use Rattle.std.specs.Prelude.{◌≡◌};
ghost use Rattle.binary.specs.Gf2.{combination};

// The linear combination of the words with the digits of `g`, the lowest digit for the first word. It takes the same time for every `g`.
pub fn combine(words: &[u64], g: u64) -> u64
    ensures { result ≡ combination words.now g }
{
    let mut digits = g;
    let mut x = 0;
    for w in words {
        x = x ^ (*w * (digits & 1));
        digits = digits >> 1;
    }
    x
}
