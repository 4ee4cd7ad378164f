// Reading headers.
ghost use Rattle.std.specs.Prelude.{◌≡◌, ◌<◌, ◌≤◌, ◌+◌, ◌-◌, ◌||◌, ◌⊎◌, false, min, IfOk, OnOk, nat_lt};
ghost use Rattle.volume.specs.declared.fault.PathFault.TheVariants.{Volume};
ghost use Rattle.volume.specs.Fetches.{put};
ghost use Rattle.volume.specs.Header.{header};
ghost use Rattle.volume.specs.Sizes.{header_size};
ghost use Rattle.reader.specs.Fetched.{Reads};
ghost use Rattle.reader.specs.Header.{read_of};

use crate::fetch::fetch;
use crate::header::Header;
use crate::romfs::Romfs;
use device::Device;
use volume::{HEADER_SIZE, PathFault, Start, VolumeFault, VolumeRule};

// Whether no header can stand at an offset.
fn is_outside(start: &Start, at: u32) -> bool
    ensures value { result ≡ (nat_lt at start.now.root || nat_lt start.now.size (at + 32)) }
    ensures room { result ≡ false → at + 32 ≤ start.now.size }
{
    at < start.root || u64::from(start.size) < u64::from(at) + 32
}

// How many bytes are fetched for a header: up to the longest name's end and the volume's.
fn fetch_size(start: &Start, at: u32) -> usize
    requires { at + 32 ≤ start.now.size }
    ensures value { result ≡ min (at + header_size) start.now.size - at }
    ensures some { 32 ≤ result }
    ensures few { result ≤ header_size }
    ensures room { at + result ≤ 4294967296 }
{
    ((start.size - at) as usize).min(HEADER_SIZE)
}

// The header at an offset: its bytes, up to the longest name's and the volume's end.
#[tactic(auto, unfolding(volume::specs::Header::header))]
fn read_header<D: Device>(
    store: &mut D,
    romfs: Romfs,
    at: u32,
) -> Result<Header, VolumeFault<D::Refusal>>
    ensures run { Reads D.meaning D.moves romfs store.old (λ v. header v at) (read_of result) store.new }
    ensures inside { OnOk result (at + 32 ≤ romfs.start.size) }
    ensures rises { IfOk result (λ h. (h.next ≡ 0) ⊎ (at < h.next)) }
{
    if is_outside(&romfs.start, at) {
        return Err(VolumeFault::Rule(at, VolumeRule::Range));
    }
    let mut bytes = [0; HEADER_SIZE];
    let bytes = &mut bytes[..fetch_size(&romfs.start, at)];
    fetch(store, romfs.block, at, bytes)?;
    Header::from_bytes(at, bytes)
}

// The same, with a fault put with the place of a component.
pub(crate) fn header_for<D: Device>(
    store: &mut D,
    romfs: Romfs,
    place: usize,
    at: u32,
) -> Result<Header, PathFault<D::Refusal>>
    ensures run { Reads D.meaning D.moves romfs store.old (λ v. put (Volume place) (header v at)) (read_of result) store.new }
    ensures inside { OnOk result (at + 32 ≤ romfs.start.size) }
    ensures rises { IfOk result (λ h. (h.next ≡ 0) ⊎ (at < h.next)) }
{
    match read_header(store, romfs, at) {
        Ok(header) => Ok(header),
        Err(fault) => Err(PathFault::from((fault, place))),
    }
}
