// The tree and the root of an image.
ghost use Rattle.std.specs.Prelude.{◌≡◌};
ghost use Rattle.builder.specs.Build.{answer as answer_of, root_after, tree_after};

use crate::fault::BuildFault;
use crate::source::Source;
use digest::Digest;

/// Writes the tree over the image, as a dm-verity tree of format 1 lays it down, and its root.
///
/// Refused, it leaves both buffers all zeros: 2 for a block size, a number of blocks or a salt outside its limit, then 3 for an
/// image that is not whole blocks, or a buffer that has not the length of what goes into it. The buffers are two parameters:
/// each has a length and a clause of its own.
pub fn build<D: Digest>(
    digest: &D,
    source: &Source<'_>,
    tree: &mut [u8],
    root: &mut [u8],
) -> Result<(), BuildFault>
    ensures answer { result ≡ answer_of D.LEN source.now tree.old root.old }
    ensures tree { tree.new ≡ tree_after D.LEN D.meaning source.now tree.old root.old }
    ensures root { root.new ≡ root_after D.LEN D.meaning source.now tree.old root.old }
{
    tree.fill(0);
    root.fill(0);
    let job = source.job(digest)?;
    if !source.is_whole(&job.geometry) || !job.has_room(tree, root) {
        return Err(BuildFault::Length);
    }
    job.climb(0, source.image, tree, root);
    Ok(())
}
