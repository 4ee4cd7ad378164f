// A device that holds the bytes of both areas.
ghost use Rattle.std.specs.Prelude.{◌≡◌, ◌+◌, ◌*◌, ◌≤◌, length};
ghost use Rattle.media.specs.Memory.{memory};
ghost use Rattle.std.proofs.Common.{ap};
ghost use Rattle.media.specs.Sizes.{memory-sized};

use crate::fault::Outside;
use device::{Area, Device};

/// For a buffer of n bytes, block b of an area is the n bytes from byte b × n of the area on. A block that is not all
/// there is refused, and one of no byte.
#[derive(Clone, Copy)]
pub struct Memory<'a> {
    pub data: &'a [u8],
    pub tree: &'a [u8],
}

impl<'a> Device for Memory<'a> {
    type Refusal = Outside;

    ghost meaning = { λ m. memory m.data.now m.tree.now };

    ghost moves = { λ m q n. n ≡ m };

    fn ask(&mut self, area: Area, block: u32, buf: &mut [u8]) -> Result<(), Outside> {
        let bytes = match area {
            Area::Data => self.data,
            Area::Tree => self.tree,
        };
        let found = (block as usize)
            .checked_mul(buf.len())
            .and_then(|start| bytes.get(start..)?.get(..buf.len()));
        match found {
            Some(found) if !buf.is_empty() => {
                buf.copy_from_slice(found);
                Ok(())
            }
            _ => {
                buf.fill(0);
                Err(Outside { area, block })
            }
        }
    }

    ghost sized = { λ m. memory-sized m.data.now m.tree.now };

    ghost onward = { λ m n q same. ap (λ d. memory d.data.now d.tree.now) same };
}
