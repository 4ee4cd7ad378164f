// A string to be hashed, in the two parts that it comes in, and its padding.
ghost use Rattle.std.specs.Prelude.{◌+◌, ◌≤◌, length};
ghost use Rattle.digest.specs.declared.message.TheConstants.{LIMIT};

use crate::padded::{PADDED, put};
use sha2_block::Word;

/// Bytes of the longest joined string that is hashed.
pub const LIMIT: usize = 4352;

#[derive(Clone, Copy)]
pub(crate) struct Message<'a> {
    first: &'a [u8],
    second: &'a [u8],
    ghost short: { length first.now + length second.now ≤ LIMIT },
}

impl<'a> Message<'a> {
    ghost use Rattle.std.specs.Prelude.{◌≡◌, length, replicate};
    ghost use Rattle.digest.specs.Message.{MessageOf, joined};
    ghost use Rattle.digest.specs.Padding.{padded};

    // The two parts, unless they are too long together.
    pub(crate) fn new(first: &'a [u8], second: &'a [u8]) -> Option<Message<'a>>
        ensures { MessageOf first.now second.now result }
    {
        if first.len() > LIMIT || second.len() > LIMIT - first.len() {
            return None;
        }
        Some(Message { first, second })
    }

    fn len(&self) -> usize
        ensures { result ≡ length (joined self.now) }
    {
        self.first.len() + self.second.len()
    }

    // The padded message, written into a buffer of zeros.
    pub(crate) fn pad<'b, W: Word>(&self, buf: &'b mut [u8; PADDED]) -> &'b [u8]
        requires { buf.old ≡ replicate PADDED 0 }
        ensures { result.now ≡ padded W.variant (joined self.now) }
    {
        let n = self.len();
        let word = W::size();
        let block = 16 * word;
        let end = (n + 2 * word) / block * block + block;
        put(buf, 0, self.first);
        put(buf, self.first.len(), self.second);
        put(buf, n, &[0x80]);
        put(buf, end - 8, &(8 * n as u64).to_be_bytes());
        &buf[..end]
    }
}
