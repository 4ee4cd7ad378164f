// A device that gives its bytes in a row, whatever block is named.
ghost use Rattle.std.specs.Prelude.{◌≡◌, ◌+◌, ◌≤◌, length};
ghost use Rattle.std.proofs.Common.{ap};
ghost use Rattle.media.specs.Tape.{tape, used_after};
ghost use Rattle.media.specs.Sizes.{tape-sized};

use crate::fault::Spent;
use device::{Area, Device};

/// A refused question uses no bytes.
#[derive(Clone, Copy)]
pub struct Tape<'a> {
    bytes: &'a [u8],
    used: usize,
}

impl<'a> Tape<'a> {
    /// A tape of which nothing is used yet.
    pub fn new(bytes: &'a [u8]) -> Tape<'a>
        ensures bytes { result.bytes.now ≡ bytes.now }
        ensures used { result.used ≡ 0 }
    {
        Tape { bytes, used: 0 }
    }

    /// How many bytes are used.
    pub fn used(&self) -> usize
        ensures { result ≡ self.now.used }
    {
        self.used
    }
}

impl<'a> Device for Tape<'a> {
    type Refusal = Spent;

    ghost meaning = { λ t. tape t.bytes.now t.used };

    ghost moves = { λ t q u. u ≡ record t { used = used_after t.bytes.now t.used q } };

    fn ask(&mut self, area: Area, block: u32, buf: &mut [u8]) -> Result<(), Spent> {
        match self
            .bytes
            .get(self.used..)
            .and_then(|rest| rest.get(..buf.len()))
        {
            Some(next) if !buf.is_empty() => {
                buf.copy_from_slice(next);
                self.used += next.len();
                Ok(())
            }
            _ => {
                buf.fill(0);
                Err(Spent { area, block })
            }
        }
    }

    ghost sized = { λ t. tape-sized t.bytes.now t.used };

    ghost onward = { λ t u q moved. ap (λ v. tape v.bytes.now v.used) moved };
}
