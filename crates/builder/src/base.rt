// What a tree is built over, where the digests of its data blocks are known.
ghost use Rattle.builder.specs.Above.{above_limits_met, shape_above};
ghost use Rattle.builder.specs.Check.{Limited, Started};

use crate::fault::BuildFault;
use crate::job::Job;
use digest::Digest;
use geometry::{Geometry, SALT_LIMIT};

/// The digests of an image's blocks, and the numbers and the salt of a tree over the image.
#[derive(Clone, Copy)]
pub struct Base<'a> {
    /// The salted digests of the data blocks, in order, joined.
    pub digests: &'a [u8],
    /// Bytes of a data block.
    pub data_block: usize,
    /// Bytes of a tree block.
    pub hash_block: usize,
    /// What is digested before each block, of at most `SALT_LIMIT` bytes.
    pub salt: &'a [u8],
}

impl Base<'_> {
    /// The geometry of the tree, for a digest of `size` bytes, unless a number or the salt is outside its limit.
    pub fn geometry(&self, size: usize) -> Option<Geometry>
        ensures { Limited (above_limits_met size self.now) (shape_above size self.now) result }
    {
        if self.salt.len() > SALT_LIMIT {
            return None;
        }
        let blocks = self.digests.len().checked_div(size)?;
        Geometry::new(self.data_block, self.hash_block, blocks, size)
    }

    // The job of its tree, unless a number or the salt is outside its limit.
    pub(crate) fn job<'a, D: Digest>(&'a self, digest: &'a D) -> Result<Job<'a, D>, BuildFault>
        ensures { Started (above_limits_met D.LEN self.now) (shape_above D.LEN self.now) self.now.salt.now result }
    {
        let geometry = self.geometry(digest.output_len()).ok_or(BuildFault::Limit)?;
        Ok(Job {
            digest,
            geometry,
            salt: self.salt,
        })
    }
}
