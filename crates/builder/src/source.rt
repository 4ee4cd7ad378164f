// What a tree is built over.
ghost use Rattle.std.specs.Prelude.{◌≡◌};
ghost use Rattle.builder.specs.Build.{limits_met, shape_for};
ghost use Rattle.builder.specs.Check.{Limited, Started, is_whole};
ghost use Rattle.geometry.specs.Of.{shape_of};

use crate::fault::BuildFault;
use crate::job::Job;
use digest::Digest;
use geometry::{Geometry, SALT_LIMIT};

/// An image, and the numbers and the salt of a tree over it.
#[derive(Clone, Copy)]
pub struct Source<'a> {
    /// The data blocks, in order.
    pub image: &'a [u8],
    /// Bytes of a data block.
    pub data_block: usize,
    /// Bytes of a tree block.
    pub hash_block: usize,
    /// What is digested before each block, of at most `SALT_LIMIT` bytes.
    pub salt: &'a [u8],
}

impl Source<'_> {
    /// The geometry of the tree, for a digest of `size` bytes, unless a number or the salt is outside its limit.
    pub fn geometry(&self, size: usize) -> Option<Geometry>
        ensures { Limited (limits_met size self.now) (shape_for size self.now) result }
    {
        if self.salt.len() > SALT_LIMIT {
            return None;
        }
        let blocks = self.image.len().checked_div(self.data_block)?;
        Geometry::new(self.data_block, self.hash_block, blocks, size)
    }

    // The job of its tree, unless a number or the salt is outside its limit.
    pub(crate) fn job<'a, D: Digest>(&'a self, digest: &'a D) -> Result<Job<'a, D>, BuildFault>
        ensures { Started (limits_met D.LEN self.now) (shape_for D.LEN self.now) self.now.salt.now result }
    {
        let geometry = self.geometry(digest.output_len()).ok_or(BuildFault::Limit)?;
        Ok(Job {
            digest,
            geometry,
            salt: self.salt,
        })
    }

    // Whether the image is whole blocks.
    pub(crate) fn is_whole(&self, g: &Geometry) -> bool
        ensures { result ≡ is_whole (shape_of g.now) self.now.image.now }
    {
        self.image.len() == g.blocks() * g.data_block()
    }
}
