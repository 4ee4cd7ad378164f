// The size of a data block.
ghost use Rattle.std.specs.Prelude.{◌≡◌, ◌<◌, ◌≤◌};
ghost use Rattle.geometry.specs.Limits.{block_limit};

use geometry::Geometry;

// Bytes of a data block: some, and no more than a block can have.
#[derive(Clone, Copy)]
pub(crate) struct BlockSize {
    pub(crate) bytes: usize,
    ghost some: { 0 < bytes },
    ghost long: { bytes ≤ block_limit },
}

impl BlockSize {
    ghost use Rattle.geometry.specs.Of.{shape_of};

    pub(crate) fn of(geometry: &Geometry) -> BlockSize
        ensures { result.bytes ≡ (shape_of geometry.now).data_block }
    {
        BlockSize {
            bytes: geometry.data_block(),
        }
    }
}
