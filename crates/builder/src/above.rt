// The tree over the digests of data blocks.
ghost use Rattle.std.specs.Prelude.{◌≡◌};
ghost use Rattle.builder.specs.Above.{AboveStands, above_answer, root_above_after, tree_above_after};

use crate::base::Base;
use crate::fault::BuildFault;
use digest::Digest;

/// Writes the tree over data blocks of these salted digests, as a dm-verity tree of format 1 lays it down, and its root.
///
/// Level 0 is the digests in their slots, with zeros behind them, and the levels above it are the tree over level 0. Refused, it
/// leaves both buffers all zeros: 2 for a block size, a number of blocks or a salt outside its limit, then 3 for digests that are
/// not whole, or a buffer that has not the length of what goes into it.
pub fn build_above<D: Digest>(
    digest: &D,
    base: &Base<'_>,
    tree: &mut [u8],
    root: &mut [u8],
) -> Result<(), BuildFault>
    ensures answer { result ≡ above_answer D.LEN base.now tree.old root.old }
    ensures tree { tree.new ≡ tree_above_after D.LEN D.meaning base.now tree.old root.old }
    ensures root { root.new ≡ root_above_after D.LEN D.meaning base.now tree.old root.old }
{
    tree.fill(0);
    root.fill(0);
    let job = base.job(digest)?;
    if base.digests.len() != job.digests_len() || !job.has_room(tree, root) {
        return Err(BuildFault::Length);
    }
    job.climb_above(base.digests, tree, root);
    Ok(())
}

/// The tree and the root over the digests of an image's blocks are those of the image.
pub fn above_stands()
    ensures { AboveStands }
{}
