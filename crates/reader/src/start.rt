// The start of a volume.
ghost use Rattle.std.specs.Prelude.{◌≡◌, ◌<◌, ◌≤◌, ◌||◌, not, nat_lt, IfSome, length, take};
ghost use Rattle.geometry.specs.Of.{shape_of};
ghost use Rattle.calls.specs.Mount.{image_length};
ghost use Rattle.volume.specs.Sizes.{name_size};
ghost use Rattle.volume.specs.Start.{magic, root_of, start as start_rules, start_of};
ghost use Rattle.volume.specs.Words.{is_16};
ghost use Rattle.std.specs.Str.{bytes_eq};
ghost use Rattle.reader.specs.Fetched.{Fetched};

use crate::block::BlockSize;
use crate::fetch::fetch;
use crate::words::{is_16, sums_to_zero, word, zero_at};
use device::Device;
use geometry::Geometry;
use volume::{NAME_SIZE, Start, VolumeFault, VolumeRule};

// Bytes of the image.
pub(crate) fn image_size(geometry: &Geometry) -> usize
    ensures { result ≡ image_length (shape_of geometry.now) }
{
    geometry.blocks() * geometry.data_block()
}

// By where the volume name's zero byte stands: the first header stands behind the padded name.
fn root_of<F>(size: u32, name: Option<usize>) -> Result<Start, VolumeFault<F>>
    requires { IfSome name (λ v. v < name_size) }
    ensures { result ≡ root_of size name }
{
    if let Some(before) = name {
        let root = 16 + (before as u32 + 16) / 16 * 16;
        if root + 32 <= size {
            return Ok(Start { size, root });
        }
    }
    Err(VolumeFault::Rule(16, VolumeRule::VolumeName))
}

// Whether the text of a volume stands at the start of its bytes.
fn is_text(bytes: &[u8]) -> bool
    ensures { result ≡ bytes_eq (take 8 bytes.now) magic }
{
    match bytes {
        [dash, r, o, m, one, f, s, end, _rest @ ..] => {
            *dash == b'-'
                && *r == b'r'
                && *o == b'o'
                && *m == b'm'
                && *one == b'1'
                && *f == b'f'
                && *s == b's'
                && *end == b'-'
        }
        _ => false,
    }
}

// Whether a volume of this size lies within an image of `limit` bytes.
fn is_size(size: u32, limit: usize) -> bool
    ensures { not result ≡ (not (is_16 size) || nat_lt limit size) }
{
    is_16(size) && size as usize <= limit
}

// Of the first 512 bytes, on an image of `limit` bytes.
#[tactic(auto, unfolding(volume::specs::Start::start_of))]
fn start_of<F>(limit: usize, bytes: &[u8]) -> Result<Start, VolumeFault<F>>
    requires { length bytes.now ≡ 512 }
    ensures { result ≡ start_of limit bytes.now }
{
    if !is_text(bytes) {
        return Err(VolumeFault::Rule(0, VolumeRule::Text));
    }
    let size = word(bytes, 8);
    if !is_size(size, limit) {
        return Err(VolumeFault::Rule(8, VolumeRule::Size));
    }
    if !sums_to_zero(&bytes[..(size as usize).min(512)]) {
        return Err(VolumeFault::Rule(12, VolumeRule::Sum));
    }
    root_of(size, zero_at(&bytes[16..16 + NAME_SIZE]))
}

// The start of the volume on an image of `limit` bytes.
pub(crate) fn read_start<D: Device>(
    store: &mut D,
    block: BlockSize,
    limit: usize,
) -> Result<Start, VolumeFault<D::Refusal>>
    ensures { Fetched D.meaning D.moves block.bytes store.old (start_rules limit) result store.new }
{
    let mut bytes = [0; 512];
    fetch(store, block, 0, &mut bytes)?;
    start_of(limit, &bytes)
}
