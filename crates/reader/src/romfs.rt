// A volume that has begun.
ghost use Rattle.std.specs.Prelude.{◌≡◌};
ghost use Rattle.geometry.specs.Of.{shape_of};

use crate::block::BlockSize;
use geometry::Geometry;
use volume::Start;

// The size of the blocks that it is read by, and its start.
#[derive(Clone, Copy)]
pub(crate) struct Romfs {
    pub(crate) block: BlockSize,
    pub(crate) start: Start,
}

impl Romfs {
    pub(crate) fn new(geometry: &Geometry, start: Start) -> Romfs
        ensures block { result.block.bytes ≡ (shape_of geometry.now).data_block }
        ensures start { result.start ≡ start }
    {
        Romfs {
            block: BlockSize::of(geometry),
            start,
        }
    }
}
