// Words of a volume: 32 bits, big-endian.
ghost use Rattle.std.specs.Prelude.{◌≡◌, ◌≤◌, ◌+◌, length};
ghost use Rattle.volume.specs.Words.{is_16, sums_to_zero, word as word_of, zero_at};

// The word at an offset.
pub(crate) fn word(bytes: &[u8], at: usize) -> u32
    requires { at + 4 ≤ length bytes.now }
    ensures { result ≡ word_of bytes.now at }
{
    let high = u32::from(bytes[at]) * 256 + u32::from(bytes[at + 1]);
    let low = u32::from(bytes[at + 2]) * 256 + u32::from(bytes[at + 3]);
    high * 65536 + low
}

// Whether the words of some bytes sum to zero.
pub(crate) fn sums_to_zero(bytes: &[u8]) -> bool
    ensures { result ≡ sums_to_zero bytes.now }
{
    let mut sum = 0u32;
    for i in 0..bytes.len() / 4 {
        sum = sum.wrapping_add(word(bytes, i * 4));
    }
    sum == 0
}

// How many bytes precede the first zero byte.
pub(crate) fn zero_at(bytes: &[u8]) -> Option<usize>
    ensures { result ≡ zero_at bytes.now }
{
    bytes.iter().position(|byte| *byte == 0)
}

pub(crate) fn is_16(n: u32) -> bool
    ensures { result ≡ is_16 n }
{
    n % 16 == 0
}
