// Fields of a stream of bits, most significant bit first: out of bytes and back, by shifts and masks. Also a block of words into a list.
#![tactic(auto)]

ghost use Rattle.std.specs.Prelude.{◌≡◌, ◌+◌, ◌*◌, ◌<◌, ◌≤◌, length, drop, set, ltb};
ghost use Rattle.bits.specs.Stream.{to_bits, bits_of, bit_at, field_at, overwrite};

fn wide(x: u8) -> u64
    ensures { result ≡ x }
{
    x as u64
}

// Bit `i` of the stream.
fn bit(bytes: &[u8], i: usize) -> u64
    requires { i < 8 * length bytes.now }
    ensures { result ≡ bit_at bytes.now i }
{
    let b = wide(bytes[i / 8]);
    (b >> (7 - i % 8)) & 1
}

// Whether the bytes end before the last bit of a field of `width` bits at bit `at`.
pub fn is_short(bytes: &[u8], at: usize, width: usize) -> bool
    requires { (at ≤ 8 * length bytes.now) × (width ≤ 12) × (at < 4096) }
    ensures { result ≡ ltb (length (drop at (bits_of bytes.now))) width }
{
    bytes.len() < (at + width + 7) / 8
}

// The field of `width` bits at bit `at`.
pub fn field(bytes: &[u8], at: usize, width: usize) -> u64
    requires { (at + width ≤ 8 * length bytes.now) × (width ≤ 12) × (at < 4096) }
    ensures { (result ≡ field_at bytes.now at width) × (result < 4096) }
{
    let mut value: u64 = 0;
    for i in 0..width {
        value = (value << 1) | bit(bytes, at + i);
    }
    value
}

// Bit `i` of the stream becomes `b`.
fn put_bit(out: &mut [u8], i: usize, b: u64)
    requires { (i < 8 * length out.old) × (b < 2) }
    ensures { bits_of out.new ≡ set (bits_of out.old) i b }
{
    let k = i / 8;
    let s = 7 - i % 8;
    let old = wide(out[k]);
    let high = ((old >> (s + 1)) << 1) | b;
    let new = (high << s) | (old & ((1 << s) - 1));
    out[k] = new as u8;
}

// The field of `width` bits at bit `at` becomes the low bits of `v`.
pub fn put(out: &mut [u8], at: usize, width: usize, v: u64)
    requires { (at + width ≤ 8 * length out.old) × (width ≤ 12) × (at < 4096) }
    ensures { bits_of out.new ≡ overwrite (bits_of out.old) at (to_bits width v) }
{
    for i in 0..width {
        put_bit(out, at + i, (v >> (width - 1 - i)) & 1);
    }
}

// The list from `at` on becomes the block.
pub fn store(list: &mut [u64], at: usize, block: &[u64])
    requires { at + length block.now ≤ length list.old }
    ensures { list.new ≡ overwrite list.old at block.now }
{
    list[at..at + block.len()].copy_from_slice(block);
}
