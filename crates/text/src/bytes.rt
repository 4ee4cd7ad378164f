// A few bytes, without a heap.
ghost use Rattle.std.specs.Prelude.{◌≤◌};

use crate::digits::byte_of;

/// At most N bytes.
#[derive(Clone, Copy)]
pub struct Bytes<const N: usize> {
    pub(crate) buffer: [u8; N],
    pub(crate) len: usize,
    ghost within: { len ≤ N },
}

impl<const N: usize> Bytes<N> {
    ghost use Rattle.std.specs.Prelude.{◌≡◌};
    ghost use Rattle.std.specs.Option.{option_map};
    ghost use Rattle.text.specs.Bytes.{at_most, bytes_of, unhexed};

    /// These bytes, unless they are more than N.
    pub fn new(bytes: &[u8]) -> Option<Bytes<N>>
        ensures { option_map bytes_of result ≡ at_most N bytes.now }
    {
        if bytes.len() > N {
            return None;
        }
        let mut buffer = [0; N];
        buffer[..bytes.len()].copy_from_slice(bytes);
        Some(Bytes {
            buffer,
            len: bytes.len(),
        })
    }

    /// The bytes that pairs of digits stand for, or none where the text is no such pairs, or has more than N of them.
    pub fn from_hex(text: &[u8]) -> Option<Bytes<N>>
        ensures { option_map bytes_of result ≡ unhexed N text.now }
    {
        if text.len() % 2 != 0 {
            return None;
        }
        if text.len() / 2 > N {
            return None;
        }
        let mut buffer = [0; N];
        let mut len = 0;
        let mut rest = text;
        while let [high, low, tail @ ..] = rest {
            buffer[len] = byte_of(*high, *low)?;
            len += 1;
            rest = tail;
        }
        Some(Bytes { buffer, len })
    }

    /// The bytes.
    pub fn as_slice(&self) -> &[u8]
        ensures { result.now ≡ bytes_of self.now }
    {
        &self.buffer[..self.len]
    }
}
