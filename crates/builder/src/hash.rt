// The digests of an image's blocks, of which a tree can be built by `build_above`. A long image can be taken in parts.
ghost use Rattle.std.specs.Prelude.{◌≡◌};
ghost use Rattle.builder.specs.InParts.{PartsStand, hashed_after, hashed_answer};

use crate::fault::BuildFault;
use crate::source::Source;
use digest::Digest;

/// Writes the salted digest of each block of the image, in order, joined.
///
/// Refused, it leaves the buffer all zeros: 2 for a block size, a number of blocks or a salt outside its limit, then 3 for an
/// image that is not whole blocks, or a buffer that has not the length of the digests.
pub fn hash_blocks<D: Digest>(
    digest: &D,
    source: &Source<'_>,
    digests: &mut [u8],
) -> Result<(), BuildFault>
    ensures answer { result ≡ hashed_answer D.LEN source.now digests.old }
    ensures digests { digests.new ≡ hashed_after D.LEN D.meaning source.now digests.old }
{
    digests.fill(0);
    let job = source.job(digest)?;
    if !source.is_whole(&job.geometry) || digests.len() != job.digests_len() {
        return Err(BuildFault::Length);
    }
    job.fill_slots(0, source.image, digest.output_len(), digests);
    Ok(())
}

/// The digests of images that are joined are those of each, joined.
pub fn parts_stand()
    ensures { PartsStand }
{}
