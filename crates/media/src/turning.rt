// A card that gives an older page of itself from some question on.
ghost use Rattle.std.specs.Prelude.{◌≡◌, ◌-◌};
ghost use Rattle.std.proofs.Common.{ap};
ghost use Rattle.media.specs.Memory.{memory};
ghost use Rattle.media.specs.Sizes.{memory-sized, turning-sized};
ghost use Rattle.media.specs.Turning.{turning};

use crate::fault::Outside;
use crate::memory::Memory;
use device::{Area, Device};

/// The first memory answers as many questions as are left to it, refused ones among them, and the second those after.
#[derive(Clone, Copy)]
pub struct Turning<'a> {
    pub first: Memory<'a>,
    pub second: Memory<'a>,
    /// How many questions the first still answers.
    pub left: u64,
}

impl<'a> Device for Turning<'a> {
    type Refusal = Outside;

    ghost meaning = { λ t. turning (memory t.first.data.now t.first.tree.now) (memory t.second.data.now t.second.tree.now) t.left };

    ghost moves = { λ t q u. u ≡ record t { left = t.left - 1 } };

    fn ask(&mut self, area: Area, block: u32, buf: &mut [u8]) -> Result<(), Outside> {
        if self.left == 0 {
            return self.second.ask(area, block, buf);
        }
        self.left -= 1;
        self.first.ask(area, block, buf)
    }

    ghost sized = { λ t. turning-sized (memory t.first.data.now t.first.tree.now) (memory t.second.data.now t.second.tree.now)
        (memory-sized t.first.data.now t.first.tree.now) (memory-sized t.second.data.now t.second.tree.now) t.left };

    ghost onward = { λ t u q moved. ap (λ v. turning (memory v.first.data.now v.first.tree.now) (memory v.second.data.now v.second.tree.now) v.left) moved };
}
