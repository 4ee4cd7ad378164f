// The front of a buffer of zeros.
ghost use Rattle.std.specs.Prelude.{◌≡◌, ◌≤◌, ◌+◌, OnErr, OnOk, length, replicate, take};
ghost use Rattle.device.specs.Answer.{answered};
ghost use Rattle.calls.specs.Calls.{filled_to};
ghost use Rattle.reader.specs.Fetched.{Fetched};
ghost use Rattle.reader.specs.Gather.{bytes_at};

use crate::block::BlockSize;
use crate::fetch::fetch;
use device::{Device, wipe};
use volume::VolumeFault;

// The bytes from an offset on, so many; zeros stand behind them.
pub(crate) fn read_front<D: Device>(
    store: &mut D,
    block: BlockSize,
    from: u32,
    count: usize,
    buf: &mut [u8],
) -> Result<(), VolumeFault<D::Refusal>>
    requires room { from + count ≤ 4294967296 }
    requires inside { count ≤ length buf.old }
    ensures run { Fetched D.meaning D.moves block.bytes store.old (bytes_at from count) (answered result (take count buf.new)) store.new }
    ensures filled { OnOk result (buf.new ≡ filled_to (length buf.old) (take count buf.new)) }
    ensures zeros { OnErr result (buf.new ≡ replicate (length buf.old) 0) }
{
    wipe(buf);
    fetch(store, block, from, &mut buf[..count])
}
