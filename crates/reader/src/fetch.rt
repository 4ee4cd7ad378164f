// Fetching a range of bytes by blocks.
ghost use Rattle.std.specs.Prelude.{◌≡◌, ◌<◌, ◌≤◌, ◌+◌, OnErr, length, replicate};
ghost use Rattle.device.specs.Answer.{answered};
ghost use Rattle.device.specs.Run.{Ran};
ghost use Rattle.reader.specs.Fetched.{Fetched};
ghost use Rattle.reader.specs.Gather.{bytes_at, part_of};

use crate::block::BlockSize;
use device::{Area, Device, wipe};
use geometry::BLOCK_LIMIT;
use volume::VolumeFault;

// Asks for a block, and copies what stands in it from `skip` on.
fn read_part<D: Device>(
    store: &mut D,
    block: BlockSize,
    number: u32,
    skip: usize,
    part: &mut [u8],
) -> Result<(), D::Refusal>
    requires { skip + length part.old ≤ block.bytes }
    ensures run { Ran D.meaning D.moves store.old (part_of block.bytes number skip (length part.old)) (answered result part.new) store.new }
    ensures zeros { OnErr result (part.new ≡ replicate (length part.old) 0) }
{
    if part.len() == block.bytes {
        return store.ask(Area::Data, number, part);
    }
    let mut bytes = [0; BLOCK_LIMIT];
    let bytes = &mut bytes[..block.bytes];
    wipe(part);
    store.ask(Area::Data, number, bytes)?;
    part.copy_from_slice(&bytes[skip..skip + part.len()]);
    Ok(())
}

// The bytes of the volume from an offset on, as many as the buffer has.
pub(crate) fn fetch<D: Device>(
    store: &mut D,
    block: BlockSize,
    from: u32,
    buf: &mut [u8],
) -> Result<(), VolumeFault<D::Refusal>>
    requires { from + length buf.old ≤ 4294967296 }
    ensures run { Fetched D.meaning D.moves block.bytes store.old (bytes_at from (length buf.old)) (answered result buf.new) store.new }
    ensures zeros { OnErr result (buf.new ≡ replicate (length buf.old) 0) }
{
    let mut done = 0;
    while done < buf.len() {
        let at = from as usize + done;
        let skip = at % block.bytes;
        let size = (buf.len() - done).min(block.bytes - skip);
        let number = (at / block.bytes) as u32;
        if let Err(fault) = read_part(store, block, number, skip, &mut buf[done..done + size]) {
            wipe(buf);
            return Err(VolumeFault::from((fault, from)));
        }
        done += size;
    }
    Ok(())
}
