// A whole file, and the entries of a directory.
ghost use Rattle.std.specs.Prelude.{◌≡◌, ◌≢◌, ◌↔◌, ◌<◌, ◌≤◌, ◌-◌, ◌==◌, Ok, IfErr, IfNone, IfOk, IfSome, IsTrue, length, position};
ghost use Rattle.std.specs.List.{before_first, position_or_len};
ghost use Rattle.reader.specs.Calls.{extent_of};
ghost use Rattle.volume.specs.Sizes.{name_size};
ghost use Rattle.calls.specs.Calls.{list, listed};
ghost use Rattle.mount.specs.Mount.{Called, held_of, replied};
ghost use Rattle.open_files.specs.Reading.{GaveNone, GaveWhole, NotRead, Refuses, WasRead, missing, name_of};
ghost use Rattle.open_files.specs.Sentence.{contents_fault_text};

use crate::own::give_back;
use calls::{CallRefusal, Refusal};
use layers::{RefusalBelow, Store};
use mount::MountOver;
use reader::Handle;
use std::alloc::Global;
use std::fmt;
use volume::{Entry, NAME_SIZE, PathFault, PathRule};

/// Why there are no contents.
#[derive(Debug, Drop)]
pub enum ContentsFault<R> {
    /// The mount's refusal, of `open` or of `whole`.
    Refused(CallRefusal<R>),
    /// There is no memory for the bytes.
    Memory,
}

impl<R: fmt::Display> fmt::Display for ContentsFault<R> {
    ghost output = { λ fault. contents_fault_text R.output fault };

    fn fmt<W: fmt::Write>(&self, f: &mut fmt::Formatter<W>) -> fmt::Result {
        match self {
            ContentsFault::Refused(refusal) => write!(f, "{refusal}"),
            ContentsFault::Memory => write!(f, "out of memory"),
        }
    }
}

// The bytes of a file whose handle is held; the handle is given back in each case.
fn read_whole<S: Store>(
    heap: Global,
    mount: &mut MountOver<S>,
    handle: Handle,
) -> Result<Vec<u8>, ContentsFault<RefusalBelow<S>>>
    requires { 0 < held_of mount.old }
    ensures held { held_of mount.new ≡ held_of mount.old - 1 }
    ensures whole { IfOk result (λ bytes. GaveWhole mount.old (extent_of handle) bytes.items mount.new) }
    ensures none { IfErr result (λ why. GaveNone mount.old (extent_of handle) why mount.new) }
{
    let Ok(mut bytes) = vec![in heap; 0u8; handle.size() as usize] else {
        give_back(mount, handle);
        return Err(ContentsFault::Memory);
    };
    match mount.whole(handle, bytes.as_mut_slice()) {
        Ok(()) => Ok(bytes),
        Err((handle, fault)) => {
            give_back(mount, handle);
            Err(ContentsFault::Refused(fault))
        }
    }
}

/// The bytes of the file at a path: the mount's `open`, and then `whole`. Refused as these are, or where there is no memory
/// for the bytes; whatever comes of them, no handle is held for the file afterwards.
pub fn contents<S: Store>(
    heap: Global,
    mount: &mut MountOver<S>,
    path: &[u8],
) -> Result<Vec<u8>, ContentsFault<RefusalBelow<S>>>
    ensures held { held_of mount.new ≡ held_of mount.old }
    ensures read { IfOk result (λ bytes. WasRead mount.old path.now bytes.items mount.new) }
    ensures none { IfErr result (λ why. NotRead mount.old path.now why mount.new) }
{
    match mount.open(path) {
        Ok(handle) => read_whole(heap, mount, handle),
        Err(refusal) => Err(ContentsFault::Refused(refusal)),
    }
}

/// An entry of a directory with its name.
#[derive(Clone, Copy)]
pub struct Listed {
    pub entry: Entry,
    name: [u8; NAME_SIZE],
}

impl Listed {
    fn first_zero(&self) -> Option<usize>
        ensures { result ≡ position (λ byte. byte == 0) (name_of self.now) }
    {
        self.name.iter().position(|byte| *byte == 0)
    }

    // Where the name ends: at the first zero, or at the end of the buffer.
    fn name_end(&self) -> usize
        ensures place { result ≡ position_or_len (λ byte. byte == 0) (name_of self.now) }
        ensures within { result ≤ name_size }
    {
        self.first_zero().unwrap_or(NAME_SIZE)
    }

    /// The name: of the 128 bytes that the mount gave, those before the first zero.
    pub fn name(&self) -> &[u8]
        ensures { result.now ≡ before_first (λ byte. byte == 0) (name_of self.now) }
    {
        &self.name[..self.name_end()]
    }
}

// Whether a refusal says that an index is behind the last entry: 41, at the end of a path of this length.
fn is_behind_last<F>(refusal: &Refusal<F>, length: usize) -> bool
    ensures { IsTrue result ↔ (refusal.now ≡ missing length) }
{
    match refusal {
        Refusal::Path(PathFault::Rule(at, PathRule::Missing)) => *at == length,
        Refusal::Path(PathFault::Rule(_, _)) => false,
        Refusal::Path(PathFault::Volume(_, _)) => false,
        Refusal::Mount(_) => false,
        Refusal::Volume(_) => false,
    }
}

/// The entry with this number in the directory at a path, counted from 0 as the mount's `list` does, or none behind the last
/// (where `list` is refused by 41 at the end of the path). Other refusals are the mount's.
pub fn entry_at<S: Store>(
    mount: &mut MountOver<S>,
    path: &[u8],
    index: usize,
) -> Result<Option<Listed>, Refusal<S::Refusal>>
    ensures held { held_of mount.new ≡ held_of mount.old }
    ensures listed { IfOk result (λ found. IfSome found (λ l. Called mount.old (list path.now index name_size) (replied listed (name_of l) (Ok l.entry)) mount.new)) }
    ensures last { IfOk result (λ found. IfNone found (Refuses mount.old (list path.now index name_size) (missing (length path.now)) mount.new)) }
    ensures refused { IfErr result (λ why. Refuses mount.old (list path.now index name_size) why mount.new) }
    ensures not_last { IfErr result (λ why. why ≢ missing (length path.now)) }
{
    let mut name = [0; NAME_SIZE];
    match mount.list(path, index, &mut name) {
        Ok(entry) => Ok(Some(Listed { entry, name })),
        Err(refusal) if is_behind_last(&refusal, path.len()) => Ok(None),
        Err(refusal) => Err(refusal),
    }
}
