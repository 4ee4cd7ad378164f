// Paths: from the root's list to the file, or the list, that one names.
ghost use Rattle.std.specs.Prelude.{◌≡◌, Some};
ghost use Rattle.volume.specs.Paths.{enter_all, file_at, list_path, open_path, parts};
ghost use Rattle.reader.specs.Fetched.{Reads};
ghost use Rattle.reader.specs.Calls.{file_of};
ghost use Rattle.reader.specs.Header.{read_of};
ghost use Rattle.reader.specs.Parts.{parts_of};

use crate::component::Component;
use crate::handle::Handle;
use crate::header::Header;
use crate::romfs::Romfs;
use crate::sought::Sought;
use crate::using::{enter, follow};
use crate::walk::find;
use device::Device;
use volume::{PathFault, PathRule};

// Enters each component's directory in turn.
fn enter_all<D: Device>(
    store: &mut D,
    romfs: Romfs,
    path: &[u8],
) -> Result<u32, PathFault<D::Refusal>>
    ensures { Reads D.meaning D.moves romfs store.old (λ v. enter_all v (parts path.now) v.root) result store.new }
{
    let mut list = romfs.start.root;
    let mut part = Component::first(path);
    while let Some(component) = part {
        let name = Sought::Name(component.name());
        let header = find(store, romfs, component.at, name, list)?;
        list = enter(component.at, &header)?;
        part = component.next();
    }
    Ok(list)
}

// The file at the end of a path that begins with this component.
fn file_at<D: Device>(
    store: &mut D,
    romfs: Romfs,
    first: Component<'_>,
) -> Result<Handle, PathFault<D::Refusal>>
    ensures { Reads D.meaning D.moves romfs store.old (λ v. file_at v (parts_of (Some first.entry)) v.root) (file_of result) store.new }
{
    let mut list = romfs.start.root;
    let mut component = first;
    loop {
        let at = component.at;
        let name = Sought::Name(component.name());
        let header = find(store, romfs, at, name, list)?;
        match component.next() {
            None => return follow(store, romfs, at, 0, &header),
            Some(next) => {
                list = enter(at, &header)?;
                component = next;
            }
        }
    }
}

// The file that a path names.
#[tactic(auto, unfolding(volume::specs::Paths::open_path, volume::specs::Paths::file_at))]
pub(crate) fn open_path<D: Device>(
    store: &mut D,
    romfs: Romfs,
    path: &[u8],
) -> Result<Handle, PathFault<D::Refusal>>
    ensures { Reads D.meaning D.moves romfs store.old (λ v. open_path v path.now) (file_of result) store.new }
{
    if let Some(at) = Component::first_bad(path) {
        return Err(PathFault::Rule(at, PathRule::Component));
    }
    match Component::first(path) {
        Some(first) => file_at(store, romfs, first),
        None => Err(PathFault::Rule(0, PathRule::Component)),
    }
}

// The entry of a number in the directory that a path names.
#[tactic(auto, unfolding(volume::specs::Paths::list_path))]
pub(crate) fn list_path<D: Device>(
    store: &mut D,
    romfs: Romfs,
    path: &[u8],
    index: usize,
) -> Result<Header, PathFault<D::Refusal>>
    ensures { Reads D.meaning D.moves romfs store.old (λ v. list_path v path.now index) (read_of result) store.new }
{
    if let Some(at) = Component::first_bad(path) {
        return Err(PathFault::Rule(at, PathRule::Component));
    }
    let list = enter_all(store, romfs, path)?;
    find(store, romfs, path.len(), Sought::Index(index), list)
}
