// Headers in use: directories that are entered, and links that are followed to a file.
ghost use Rattle.std.specs.Prelude.{◌≡◌, ◌<◌, ◌+◌, true, false, nat_lt, MatchOption};
ghost use Rattle.reader.specs.Fetched.{Reads};
ghost use Rattle.reader.specs.Header.{header_value, leads_to};
ghost use Rattle.reader.specs.Calls.{file_of};
ghost use Rattle.volume.specs.Fetches.{settled};
ghost use Rattle.volume.specs.Use.{broken as broken_rule, enter as enter_rules, file as file_rules};

use crate::handle::Handle;
use crate::header::Header;
use crate::reading::header_for;
use crate::romfs::Romfs;
use crate::words::is_16;
use device::Device;
use volume::{Kind, PathFault, PathRule, Start, VolumeFault, VolumeRule};

// How many links in a row are followed.
const LINKS: u8 = 8;

// A rule that a header breaks, while the component at this place is sought or used.
fn broken<F>(place: usize, header: &Header, rule: VolumeRule) -> PathFault<F>
    ensures { result ≡ broken_rule place (header_value header.now) rule }
{
    PathFault::from((VolumeFault::Rule(header.at, rule), place))
}

// Where a directory's list begins.
#[tactic(auto, unfolding(volume::specs::Use::enter))]
pub(crate) fn enter<F>(place: usize, header: &Header) -> Result<u32, PathFault<F>>
    ensures { settled result ≡ enter_rules place (header_value header.now) }
{
    if header.entry.kind != Kind::Directory {
        return Err(PathFault::Rule(place, PathRule::NotDirectory));
    }
    if header.info != 0 && (!is_16(header.info) || header.info <= header.at) {
        return Err(broken(place, header, VolumeRule::Info));
    }
    Ok(header.info)
}

// The offset of so many bytes, if they end within the volume.
fn within(start: Start, from: u64, size: u32) -> Option<u32>
    requires { from < 8589934592 }
    ensures { let past = nat_lt start.size (from + size) in MatchOption result (past ≡ true) (λ at. (at ≡ from) × (past ≡ false)) }
{
    if u64::from(start.size) < from + u64::from(size) {
        None
    } else {
        Some(from as u32)
    }
}

// The data of a regular file.
fn file<F>(start: Start, place: usize, header: &Header) -> Result<Handle, PathFault<F>>
    ensures { settled (file_of result) ≡ file_rules start place (header_value header.now) }
{
    if header.info != 0 {
        return Err(broken(place, header, VolumeRule::Info));
    }
    let data = u64::from(header.at) + u64::from(header.length);
    let size = header.entry.size;
    match within(start, data, size) {
        Some(start) => Ok(Handle { start, size }),
        None => Err(broken(place, header, VolumeRule::Data)),
    }
}

// The file that the last component of a path leads to, once so many links were followed.
#[tactic(auto, using(crate::proofs::Following::follow_is))]
pub(crate) fn follow<D: Device>(
    store: &mut D,
    romfs: Romfs,
    place: usize,
    links: u8,
    header: &Header,
) -> Result<Handle, PathFault<D::Refusal>>
    ensures { Reads D.meaning D.moves romfs store.old (λ v. leads_to v place links (header_value header.now)) (file_of result) store.new }
{
    match header.entry.kind {
        Kind::File => file(romfs.start, place, header),
        Kind::HardLink => {
            if !is_16(header.info) {
                return Err(broken(place, header, VolumeRule::Info));
            }
            if links >= LINKS {
                return Err(broken(place, header, VolumeRule::Links));
            }
            let next = header_for(store, romfs, place, header.info)?;
            follow(store, romfs, place, links + 1, &next)
        }
        Kind::Directory if links > 0 => Err(broken(place, header, VolumeRule::LinkedDirectory)),
        _ => Err(PathFault::Rule(place, PathRule::NotFile)),
    }
}
