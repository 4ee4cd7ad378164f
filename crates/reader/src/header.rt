// Headers.
ghost use Rattle.std.specs.Prelude.{◌≡◌, ◌<◌, ◌≤◌, length, take};
ghost use Rattle.std.specs.List.{list_all};
ghost use Rattle.volume.specs.Header.{is_name, is_name_byte, kind_of};
ghost use Rattle.volume.specs.Sizes.{name_size};

use crate::words::{sums_to_zero, word, zero_at};
use device::wipe;
use volume::{Entry, Kind, NAME_SIZE, VolumeFault, VolumeRule};

// A header as it was read. No heap: a name has at most 127 bytes.
#[derive(Clone, Copy)]
pub(crate) struct Header {
    pub(crate) at: u32,
    pub(crate) next: u32,
    pub(crate) info: u32,
    pub(crate) entry: Entry,
    name: [u8; NAME_SIZE],
    name_len: usize,
    pub(crate) length: u32,
    ghost short: { name_len ≤ name_size },
}

fn kind_of(bits: u32) -> Kind
    requires { bits < 8 }
    ensures { result ≡ kind_of bits }
{
    match bits {
        0 => Kind::HardLink,
        1 => Kind::Directory,
        2 => Kind::File,
        3 => Kind::SymbolicLink,
        4 => Kind::BlockDevice,
        5 => Kind::CharDevice,
        6 => Kind::Socket,
        _ => Kind::Pipe,
    }
}

// Printable, and no slash.
fn is_name_byte(byte: u8) -> bool
    ensures { result ≡ is_name_byte byte }
{
    byte >= 0x20 && byte <= 0x7e && byte != 0x2f
}

fn are_name_bytes(name: &[u8]) -> bool
    ensures { result ≡ list_all is_name_byte name.now }
{
    name.iter().all(|byte| is_name_byte(*byte))
}

fn is_name(name: &[u8]) -> bool
    ensures { result ≡ is_name name.now }
{
    !name.is_empty() && are_name_bytes(name)
}

// A name, with zeros behind it.
fn padded(name: &[u8]) -> [u8; NAME_SIZE]
    requires { length name.now ≤ name_size }
    ensures { take (length name.now) result ≡ name.now }
{
    let mut bytes = [0; NAME_SIZE];
    bytes[..name.len()].copy_from_slice(name);
    bytes
}

impl Header {
    ghost use Rattle.std.specs.Prelude.{◌+◌, ◌⊎◌, IfOk, Some};
    ghost use Rattle.volume.specs.Header.{header_of, named};
    ghost use Rattle.volume.specs.Sizes.{header_size};
    ghost use Rattle.calls.specs.Calls.{filled_to};
    ghost use Rattle.reader.specs.Header.{header_value, read_of};

    // Of the bytes that were fetched for it, with a name of this length.
    fn named<F>(at: u32, bytes: &[u8], name_len: usize) -> Result<Header, VolumeFault<F>>
        requires some { 16 ≤ length bytes.now }
        requires inside { name_len + 16 < length bytes.now }
        requires short { name_len < name_size }
        ensures value { read_of result ≡ named at bytes.now (Some name_len) }
        ensures rises { IfOk result (λ h. (h.next ≡ 0) ⊎ (at < h.next)) }
    {
        let name = &bytes[16..16 + name_len];
        if !is_name(name) {
            return Err(VolumeFault::Rule(at, VolumeRule::Name));
        }
        let length = 16 + (name_len + 16) / 16 * 16;
        if !sums_to_zero(&bytes[..length.min(bytes.len())]) {
            return Err(VolumeFault::Rule(at, VolumeRule::HeaderSum));
        }
        let first = word(bytes, 0);
        let next = first - first % 16;
        if next != 0 && next <= at {
            return Err(VolumeFault::Rule(at, VolumeRule::Next));
        }
        Ok(Header {
            at,
            next,
            info: word(bytes, 4),
            entry: Entry {
                kind: kind_of(first % 8),
                executable: first / 8 % 2 == 1,
                size: word(bytes, 8),
            },
            name: padded(name),
            name_len,
            length: length as u32,
        })
    }

    // Of the bytes that were fetched for it.
    #[tactic(auto, unfolding(volume::specs::Header::header_of))]
    pub(crate) fn from_bytes<F>(at: u32, bytes: &[u8]) -> Result<Header, VolumeFault<F>>
        requires some { 32 ≤ length bytes.now }
        requires short { length bytes.now ≤ header_size }
        ensures value { read_of result ≡ header_of at bytes.now }
        ensures rises { IfOk result (λ h. (h.next ≡ 0) ⊎ (at < h.next)) }
    {
        match zero_at(&bytes[16..]) {
            Some(name_len) => Header::named(at, bytes, name_len),
            None => Err(VolumeFault::Rule(at, VolumeRule::Name)),
        }
    }

    pub(crate) fn name(&self) -> &[u8]
        ensures { result.now ≡ (header_value self.now).name }
    {
        &self.name[..self.name_len]
    }

    // Its name, with zeros behind it.
    pub(crate) fn write_name(&self, buf: &mut [u8])
        requires { length buf.old ≡ name_size }
        ensures { buf.new ≡ filled_to name_size (header_value self.now).name }
    {
        wipe(buf);
        let name = self.name();
        buf[..name.len()].copy_from_slice(name);
    }
}
