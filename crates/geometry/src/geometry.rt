// A geometry: no value of it breaks a limit, or disagrees with its own fanout, levels and starts.
ghost use Rattle.std.specs.Prelude.{◌≡◌, true};
ghost use Rattle.geometry.specs.Limits.{is_block_size, shape, starts as starts_of, within};
ghost use Rattle.tree.specs.Shape.{fanout as fanout_of, levels as levels_of};

use crate::spread::Spread;

/// Bytes of the longest block.
pub const BLOCK_LIMIT: usize = 4096;

fn is_block_size(n: usize) -> bool
    ensures { result ≡ is_block_size n }
{
    n == 512 || n == 1024 || n == 2048 || n == BLOCK_LIMIT
}

/// The numbers of a tree, within the limits.
#[derive(Clone, Copy)]
pub struct Geometry {
    data_block: usize,
    hash_block: usize,
    slot: usize,
    spread: Spread,
    levels: usize,
    // no heap: there are at most seven levels, and 0 stands past the last
    starts: [usize; 7],
    ghost limits: { within (shape data_block hash_block spread.blocks slot) ≡ true },
    ghost fan: { spread.fanout ≡ fanout_of (shape data_block hash_block spread.blocks slot) },
    ghost height: { levels ≡ levels_of (shape data_block hash_block spread.blocks slot) },
    ghost begins: { starts ≡ starts_of (shape data_block hash_block spread.blocks slot) },
}

impl Geometry {
    ghost use Rattle.std.specs.Prelude.{◌*◌, ◌/◌, ◌^◌};
    ghost use Rattle.geometry.specs.Of.{MadeOf, shape_of};
    ghost use Rattle.tree.specs.Shape.{start as start_of, tree_blocks as tree_blocks_of, width as width_of};

    /// The geometry of these numbers: bytes of a data block and of a tree block, data blocks, and bytes of a slot.
    ///
    /// There is none where one of them is outside its limit: a block has 512, 1024, 2048 or 4096 bytes, there are 1 to 1048576
    /// data blocks, and a slot has 32 or 64 bytes. A struct of the four would be a geometry unchecked.
    pub fn new(data_block: usize, hash_block: usize, blocks: usize, slot: usize) -> Option<Geometry>
        ensures { MadeOf (shape data_block hash_block blocks slot) result }
    {
        if !is_block_size(data_block)
            || !is_block_size(hash_block)
            || blocks < 1
            || blocks > 1048576
            || slot != 32 && slot != 64
        {
            return None;
        }
        let spread = Spread {
            fanout: hash_block / slot,
            blocks,
        };
        let levels = spread.levels();
        Some(Geometry {
            data_block,
            hash_block,
            slot,
            spread,
            levels,
            starts: spread.starts(levels),
        })
    }

    /// Bytes of a data block.
    pub fn data_block(&self) -> usize
        ensures { result ≡ (shape_of self.now).data_block }
    {
        self.data_block
    }

    /// Bytes of a tree block.
    pub fn hash_block(&self) -> usize
        ensures { result ≡ (shape_of self.now).hash_block }
    {
        self.hash_block
    }

    /// The number of data blocks.
    pub fn blocks(&self) -> usize
        ensures { result ≡ (shape_of self.now).blocks }
    {
        self.spread.blocks
    }

    /// Bytes of a slot.
    pub fn slot(&self) -> usize
        ensures { result ≡ (shape_of self.now).slot }
    {
        self.slot
    }

    /// Slots of a tree block.
    pub fn fanout(&self) -> usize
        ensures { result ≡ fanout_of (shape_of self.now) }
    {
        self.spread.fanout
    }

    /// Levels of the tree.
    pub fn levels(&self) -> usize
        ensures { result ≡ levels_of (shape_of self.now) }
    {
        self.levels
    }

    /// Tree blocks before a level; 0 at the top level and above it.
    pub fn start(&self, level: usize) -> usize
        ensures { result ≡ start_of (shape_of self.now) level }
    {
        self.starts.get(level).copied().unwrap_or(0)
    }

    /// The blocks `steps` steps above the data.
    pub fn width(&self, steps: usize) -> usize
        ensures { result ≡ width_of (shape_of self.now) steps }
    {
        if steps > self.levels {
            return 1;
        }
        self.spread.width(steps as u32)
    }

    /// The block `steps` steps above data block `k`, counted among those of its level.
    #[tactic(auto, using(crate::proofs::Counting::reach_some))]
    pub fn above(&self, k: usize, steps: u32) -> usize
        ensures { result ≡ k / fanout_of (shape_of self.now) ^ steps }
    {
        match self.spread.fanout.checked_pow(steps) {
            Some(reach) => k / reach,
            None => 0,
        }
    }

    /// Tree blocks in all.
    pub fn tree_blocks(&self) -> usize
        ensures { result ≡ tree_blocks_of (shape_of self.now) }
    {
        if self.levels == 0 {
            0
        } else {
            self.width(1) + self.start(0)
        }
    }

    /// Bytes of the tree.
    pub fn tree_len(&self) -> usize
        ensures { result ≡ tree_blocks_of (shape_of self.now) * (shape_of self.now).hash_block }
    {
        self.tree_blocks() * self.hash_block
    }
}
