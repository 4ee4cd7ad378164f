// A tree to be built, once the limits are known to be met.
ghost use Rattle.std.specs.Prelude.{◌≡◌, ◌≤◌, length, replicate};
ghost use Rattle.geometry.specs.Of.{shape_of};
ghost use Rattle.tree.specs.Tree.{in_slot};

use digest::Digest;
use geometry::Geometry;

#[derive(Drop)]
pub(crate) struct Job<'a, D: Digest> {
    pub(crate) digest: &'a D,
    pub(crate) geometry: Geometry,
    pub(crate) salt: &'a [u8],
    // a slot is as long as a digest
    ghost bare: { (shape_of geometry).slot ≡ D.LEN },
    ghost short: { length salt.now ≤ 256 },
}

impl<D: Digest> Job<'_, D> {
    ghost use Rattle.std.specs.Prelude.{◌*◌};
    ghost use Rattle.builder.specs.Above.{root_above, tree_above};
    ghost use Rattle.builder.specs.Check.{has_room};
    ghost use Rattle.builder.specs.Parts.{IsRow, block_len, hash_by, over, row_slots, tree_len};
    ghost use Rattle.geometry.specs.Limits.{block_limit};
    ghost use Rattle.tree.specs.Shape.{levels as levels_of, width as width_of};
    ghost use Rattle.tree.specs.Tree.{root as root_of, tree as tree_of};

    // Bytes of the digests of the data blocks, joined.
    pub(crate) fn digests_len(&self) -> usize
        ensures { result ≡ (shape_of self.now.geometry).blocks * D.LEN }
    {
        self.geometry.blocks() * self.digest.output_len()
    }

    // Whether the buffers are as long as the tree and the root.
    pub(crate) fn has_room(&self, tree: &[u8], root: &[u8]) -> bool
        ensures { result ≡ has_room D.LEN (shape_of self.now.geometry) tree.now root.now }
    {
        tree.len() == self.geometry.tree_len() && root.len() == self.digest.output_len()
    }

    // The digest of the salt followed by a block.
    fn salted(&self, block: &[u8], out: &mut [u8])
        requires short { length block.now ≤ block_limit }
        requires room { length out.old ≡ D.LEN }
        ensures { out.new ≡ hash_by self.now block.now }
    {
        // The lengths fit, so it is not refused.
        let _ = self.digest.digest(self.salt, block, out);
    }

    // Bytes of a block, so many steps above the data.
    fn block_len(&self, steps: usize) -> usize
        ensures { result ≡ block_len (shape_of self.now.geometry) steps }
    {
        if steps == 0 {
            self.geometry.data_block()
        } else {
            self.geometry.hash_block()
        }
    }

    // Writes the salted digest of each block of a row, `i` steps above the data, in slots of so many bytes, over zeros.
    pub(crate) fn fill_slots(&self, i: usize, row: &[u8], slot: usize, slots: &mut [u8])
        requires row { IsRow (over (shape_of self.now.geometry) i) row.now }
        requires fits { D.LEN ≤ slot }
        requires room { width_of (shape_of self.now.geometry) i * slot ≤ length slots.old }
        requires zeros { slots.old ≡ replicate (length slots.old) 0 }
        ensures { slots.new ≡ in_slot (length slots.old) (row_slots (hash_by self.now) (over (shape_of self.now.geometry) i) slot row.now) }
    {
        let size = self.digest.output_len();
        // by index: after a loop over the slots' chunks nothing is known of the bytes
        for (j, block) in row.chunks_exact(self.block_len(i)).enumerate() {
            let at = j * slot;
            self.salted(block, &mut slots[at..at + size]);
        }
    }

    // Fills the levels from `i` up, which are zeros, over the row of blocks below them, and writes the root.
    pub(crate) fn climb(&self, i: usize, below: &[u8], tree: &mut [u8], root: &mut [u8])
        requires low { i ≤ levels_of (shape_of self.now.geometry) }
        requires below { IsRow (over (shape_of self.now.geometry) i) below.now }
        requires zeros { tree.old ≡ replicate (tree_len (over (shape_of self.now.geometry) i)) 0 }
        requires room { length root.old ≡ D.LEN }
        ensures tree { tree.new ≡ tree_of (hash_by self.now) (over (shape_of self.now.geometry) i) below.now }
        ensures root { root.new ≡ root_of (hash_by self.now) (over (shape_of self.now.geometry) i) below.now }
    {
        if i == self.geometry.levels() {
            self.salted(below, root);
        } else {
            let start = self.geometry.start(i) * self.geometry.hash_block();
            let (above, level) = tree.split_at_mut(start);
            self.fill_slots(i, below, self.geometry.slot(), level);
            self.climb(i + 1, level, above, root);
        }
    }

    // Fills the tree, which is zeros, over data blocks of these digests, and writes the root.
    pub(crate) fn climb_above(&self, digests: &[u8], tree: &mut [u8], root: &mut [u8])
        requires whole { length digests.now ≡ (shape_of self.now.geometry).blocks * D.LEN }
        requires zeros { tree.old ≡ replicate (tree_len (shape_of self.now.geometry)) 0 }
        requires room { length root.old ≡ D.LEN }
        ensures tree { tree.new ≡ tree_above D.LEN (hash_by self.now) (shape_of self.now.geometry) digests.now }
        ensures root { root.new ≡ root_above D.LEN (hash_by self.now) (shape_of self.now.geometry) digests.now }
    {
        if self.geometry.levels() == 0 {
            // of one data block, whose digest is the root
            root.copy_from_slice(digests);
        } else {
            let start = self.geometry.start(0) * self.geometry.hash_block();
            let (above, level) = tree.split_at_mut(start);
            put_front(digests, level);
            self.climb(1, level, above, root);
        }
    }
}

// Writes digests over the front of a level that is zeros: in one go, where a slot is as long as a digest.
fn put_front(digests: &[u8], level: &mut [u8])
    requires zeros { level.old ≡ replicate (length level.old) 0 }
    requires room { length digests.now ≤ length level.old }
    ensures { level.new ≡ in_slot (length level.old) digests.now }
{
    level[..digests.len()].copy_from_slice(digests);
}
