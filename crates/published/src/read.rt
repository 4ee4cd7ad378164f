// Reading a file of a card.
ghost use Rattle.std.specs.Prelude.{◌≡◌, ◌<◌, List, OnErr, length, replicate};
ghost use Rattle.calls.specs.Calls as calls_of;
ghost use Rattle.calls.specs.Law.{Event};
ghost use Rattle.reader.specs.Calls.{extent_of};
ghost use Rattle.mount.specs.Mount.{Called, Closes, UsedTo, held_of, replied};
ghost use Rattle.published.specs.Reading.{IsReading};

use calls::Refusal;
use device::wipe;
use layers::Store;
use mount::MountOver;
use reader::Handle;

// Reads of a file that is open, and closes it. Of a mount that holds a handle close is not refused.
fn read_open<S: Store>(
    mount: &mut MountOver<S>,
    file: Handle,
    offset: usize,
    buf: &mut [u8],
) -> Result<usize, Refusal<S::Refusal>>
    requires { 0 < held_of mount.old }
    ensures zeros { OnErr result (buf.new ≡ replicate (length buf.old) 0) }
    ensures steps { (k : _) × Called mount.old (calls_of.read (extent_of file) offset (length buf.old)) (replied calls_of.count buf.new result) k × Closes k (extent_of file) mount.new }
{
    let answer = mount.read(&file, offset, buf);
    match mount.close(file) {
        Ok(()) => answer,
        Err((_handle, _refusal)) => unreachable!(),
    }
}

// Begins, opens the file at a path, reads and closes it.
pub(crate) fn read_file<S: Store>(
    mount: &mut MountOver<S>,
    path: &[u8],
    offset: usize,
    buf: &mut [u8],
) -> Result<usize, Refusal<S::Refusal>>
    ensures zeros { OnErr result (buf.new ≡ replicate (length buf.old) 0) }
    ensures reading { (xs : List (Event _)) × UsedTo mount.old xs mount.new × IsReading path.now offset (length buf.old) result buf.new xs }
{
    wipe(buf);
    mount.begin()?;
    let file = mount.open(path)?;
    read_open(mount, file, offset, buf)
}
