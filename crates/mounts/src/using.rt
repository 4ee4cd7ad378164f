// A use of a mount of two calls: it keeps the law of runs, by the contracts of the mount alone.
ghost use Rattle.std.specs.Prelude.{◌≡◌, OnErr, length, replicate};
ghost use Rattle.mount.specs.Mount.{UsedTo};
ghost use Rattle.mounts.specs.Using.{IsListing, ListedFirst};

use calls::{CallRefusal, Refusal};
use device::{Device, wipe};
use digest::Digest;
use geometry::Label;
use layers::Store;
use mount::{Mount, MountOver};
use volume::Entry;

// The first entry of the root directory, if begin is accepted.
fn first_entry<S: Store>(
    mount: &mut MountOver<S>,
    buf: &mut [u8],
) -> Result<Entry, Refusal<S::Refusal>>
    ensures calls { (xs : _) × UsedTo mount.old xs mount.new × IsListing xs (length buf.old) result buf.new }
    ensures zeros { OnErr result (buf.new ≡ replicate (length buf.old) 0) }
{
    match mount.begin() {
        Ok(_start) => mount.list(b"", 0, buf),
        Err(refusal) => {
            wipe(buf);
            Err(refusal)
        }
    }
}

/// The first entry of the root directory of a card, with its name in the buffer, and the device. A mount is made of the
/// card, begun and, if that is accepted, listed. These calls are a use of the mount that was made, whatever the device
/// does, and they keep the law of runs. Refused, the buffer has zeros alone.
pub fn list_first<H: Digest + Drop, D: Device>(
    digest: H,
    label: &Label<'_>,
    device: D,
    buf: &mut [u8],
) -> (D, Result<Entry, CallRefusal<D::Refusal>>)
    ensures calls { ListedFirst D.meaning D.moves H.NUMBER H.LEN H.meaning label.now device (length buf.old) result.1 buf.new result.0 }
    ensures zeros { OnErr result.1 (buf.new ≡ replicate (length buf.old) 0) }
{
    let mut mount = Mount::new(digest, label, device);
    let answer = first_entry(&mut mount, buf);
    (mount.into_device(), answer)
}
