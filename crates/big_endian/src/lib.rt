// Numbers as bytes, most significant first: words into a buffer, and the numbers of a window out of one.
#![tactic(auto)]

ghost use Rattle.std.specs.Prelude.{◌≡◌, ◌+◌, ◌*◌, ◌<◌, ◌≤◌, length};
ghost use Rattle.numbers.specs.Listed.{padded};
ghost use Rattle.bits.specs.Stream.{overwrite};
ghost use Rattle.big_endian.specs.Bytes.{bytes_of, word_bytes, quad_at, window_in};

// Writes the 8 bytes of `x` to `out` from `at` on, most significant first.
fn put_word(out: &mut [u8], at: usize, x: u64)
    requires { at + 8 ≤ length out.old }
    ensures { out.new ≡ overwrite out.old at (bytes_of 8 x) }
{
    out[at..at + 8].copy_from_slice(&x.to_be_bytes());
}

// Writes words to the front of `out`, 8 bytes each.
pub fn put_words(out: &mut [u8], words: &[u64])
    requires { 8 * length words.now ≤ length out.old }
    ensures { out.new ≡ overwrite out.old 0 (word_bytes words.now) }
{
    for (i, x) in words.iter().enumerate() {
        put_word(out, 8 * i, *x);
    }
}

// Number `k` of a window, out of its 4 bytes.
fn quad(bytes: &[u8], k: usize) -> u64
    requires { (4 * k + 4 ≤ length bytes.now) × (k < 12) }
    ensures { result ≡ quad_at bytes.now k }
{
    let high = (bytes[4 * k] as u64) * 16777216 + (bytes[4 * k + 1] as u64) * 65536;
    high + (bytes[4 * k + 2] as u64) * 256 + (bytes[4 * k + 3] as u64)
}

// The numbers of a window out of its bytes: u and q for each axis, and then zeros.
pub fn window_numbers(bytes: &[u8], axes: usize) -> [u64; 12]
    requires { (axes ≤ 6) × (8 * axes ≤ length bytes.now) }
    ensures { result ≡ padded 12 (window_in bytes.now axes) }
{
    let mut w = [0u64; 12];
    for k in 0..2 * axes {
        let x = quad(bytes, k);
        w[k] = x;
    }
    w
}
