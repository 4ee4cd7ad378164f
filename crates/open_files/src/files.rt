// The open files by their numbers, and the calls for them.
ghost use Rattle.std.specs.Prelude.{◌≡◌, ◌+◌, ◌<◌, ◌≤◌, [], ℕ, insert, length, replicate, reverse, vec_capacity, vec_len};
ghost use Rattle.mount.specs.Mount.{held_of};
ghost use Rattle.open_files.specs.declared.faults.FileFault.TheVariants as fault;

use crate::faults::{FileFault, NotOpen, OpenFault, Opened};
use crate::own::give_back;
use calls::Refusal;
use device::wipe;
use layers::{RefusalBelow, Store};
use mount::MountOver;
use reader::Handle;
use std::alloc::Global;
use volume::{Entry, Start};

// An open file, by the number of the accepted open that made its handle, counted from 0.
pub(crate) struct OpenFile {
    pub(crate) number: usize,
    pub(crate) handle: Handle,
}

/// A mount with its open files, each by a number.
pub struct OpenFiles<S: Store> {
    pub(crate) mount: MountOver<S>,
    pub(crate) files: Vec<OpenFile>,
    pub(crate) opened: usize,
    ghost kept: { vec_len files ≤ held_of mount },
}

// Leaves zeros in the buffer of a call for a file that is not open.
fn not_open<R>(buf: &mut [u8]) -> FileFault<R>
    ensures zeros { buf.new ≡ replicate (length buf.old) 0 }
    ensures fault { result ≡ fault.NotOpen }
{
    wipe(buf);
    FileFault::NotOpen
}

// Puts a file back into the place that it was taken from, where there is still room for it.
fn put_back(files: &mut Vec<OpenFile>, i: usize, file: OpenFile)
    requires place { i ≤ vec_len files.old }
    requires room { vec_len files.old < vec_capacity files.old }
    ensures items { files.new.items ≡ insert files.old.items i file }
    ensures len { vec_len files.new ≡ vec_len files.old + 1 }
{
    match files.insert(i, file) {
        Ok(()) => {}
        Err(_) => unreachable!(),
    }
}

impl<S: Store> OpenFiles<S> {
    ghost use Rattle.std.specs.Prelude.{IfSome, OnErr, OnOk};
    ghost use Rattle.calls.specs.Calls as calls_of;
    ghost use Rattle.mount.specs.Mount.{Called, device_of, replied};
    ghost use Rattle.open_files.specs.Files.{Keeps, files_of, mount_of, opened_of, place_of, without};
    ghost use Rattle.open_files.specs.Steps.{AsksFor, CalledFor, Closed, NoneOpen, Opens, accepted};

    /// A mount of which no file is open yet.
    pub fn new(heap: Global, mount: MountOver<S>) -> OpenFiles<S>
        ensures mount { mount_of result ≡ mount }
        ensures opened { opened_of result ≡ 0 }
        ensures none { files_of result ≡ [] }
    {
        OpenFiles {
            mount,
            files: Vec::new(heap),
            opened: 0,
        }
    }

    /// The mount's `begin`: the volume's size and the offset of its first header, or the mount's refusal (2, 10, 11, 20 to 23).
    pub fn begin(&mut self) -> Result<Start, Refusal<S::Refusal>>
        ensures step { Called (mount_of self.old) calls_of.begin (replied calls_of.started [] result) (mount_of self.new) }
        ensures kept { Keeps self.old self.new }
    {
        self.mount.begin()
    }

    /// The mount's `list`: an entry of a directory, with its name in the buffer, or the mount's refusal (2, 54, 52, 40, and those
    /// of the walk). Refused, the buffer has zeros alone.
    pub fn list(
        &mut self,
        path: &[u8],
        index: usize,
        buf: &mut [u8],
    ) -> Result<Entry, Refusal<S::Refusal>>
        ensures step { Called (mount_of self.old) (calls_of.list path.now index (length buf.old)) (replied calls_of.listed buf.new result) (mount_of self.new) }
        ensures zeros { OnErr result (buf.new ≡ replicate (length buf.old) 0) }
        ensures kept { Keeps self.old self.new }
    {
        self.mount.list(path, index, buf)
    }

    /// Opens the file that a path names, and keeps it by the number of accepted opens before it. Refused as the mount's `open`
    /// is (2, 54, 53, 40, and those of the walk), or where there is no memory to keep one more file.
    pub fn open(&mut self, path: &[u8]) -> Result<Opened, OpenFault<RefusalBelow<S>>>
        ensures step { Opens self.old path.now result self.new }
    {
        if self.files.reserve(1).is_err() {
            return Err(OpenFault::Memory);
        }
        match self.mount.open(path) {
            Ok(handle) => {
                let opened = Opened {
                    number: self.opened,
                    start: handle.start(),
                    size: handle.size(),
                };
                let number = self.opened;
                self.files.push_reserved(OpenFile { number, handle });
                self.opened = number.saturating_add(1);
                Ok(opened)
            }
            Err(refusal) => Err(OpenFault::Refused(refusal)),
        }
    }

    fn find(&self, number: usize) -> Option<usize>
        ensures place { IfSome result (λ i. i < vec_len self.now.files) }
        ensures there { result ≡ place_of self.now.files.items number }
    {
        self.files.iter().position(|file| file.number == number)
    }

    /// Reads from an offset of the file of a number, as the mount's `read` does: how many bytes it gave, with zeros behind them.
    /// Refused where no such file is open, or as the mount's is (2, 54, 50, 51, 10, 11); the buffer then has zeros alone.
    pub fn read(
        &mut self,
        number: usize,
        offset: usize,
        buf: &mut [u8],
    ) -> Result<usize, FileFault<RefusalBelow<S>>>
        ensures step { AsksFor self.old number (λ file. calls_of.read file offset (length buf.old)) (λ c. calls_of.count c) buf.new result self.new }
        ensures zeros { OnErr result (buf.new ≡ replicate (length buf.old) 0) }
        ensures kept { Keeps self.old self.new }
    {
        let Some(i) = self.find(number) else {
            return Err(not_open(buf));
        };
        match self.mount.read(&self.files[i].handle, offset, buf) {
            Ok(count) => Ok(count),
            Err(refusal) => Err(FileFault::Refused(refusal)),
        }
    }

    /// Reads the file of a number into a buffer of its size, as the mount's `whole` does, and closes it. Refused where no such
    /// file is open, or as the mount's is (2, 54, 50, 52, 10, 11); it then stays open, and the buffer has zeros alone.
    pub fn whole(&mut self, number: usize, buf: &mut [u8]) -> Result<(), FileFault<RefusalBelow<S>>>
        ensures step { AsksFor self.old number (λ file. calls_of.whole file (length buf.old)) (λ none. calls_of.all) buf.new result self.new }
        ensures zeros { OnErr result (buf.new ≡ replicate (length buf.old) 0) }
        ensures closed { OnOk result (files_of self.new ≡ without (files_of self.old) number) }
        ensures open { OnErr result (files_of self.new ≡ files_of self.old) }
        ensures count { opened_of self.new ≡ opened_of self.old }
    {
        let Some(i) = self.find(number) else {
            return Err(not_open(buf));
        };
        let OpenFile { number, handle } = self.files.remove(i);
        match self.mount.whole(handle, buf) {
            Ok(()) => Ok(()),
            Err((handle, refusal)) => {
                put_back(&mut self.files, i, OpenFile { number, handle });
                Err(FileFault::Refused(refusal))
            }
        }
    }

    /// Closes the file of a number. It is refused only where no such file is open.
    pub fn close(&mut self, number: usize) -> Result<(), NotOpen>
        ensures step { OnOk result (CalledFor self.old number calls_of.close (accepted calls_of.closed) self.new) }
        ensures closed { OnOk result (files_of self.new ≡ without (files_of self.old) number) }
        ensures none { OnErr result (NoneOpen self.old number self.new) }
        ensures open { OnErr result (files_of self.new ≡ files_of self.old) }
        ensures count { opened_of self.new ≡ opened_of self.old }
    {
        let Some(i) = self.find(number) else {
            return Err(NotOpen);
        };
        let OpenFile { number: _, handle } = self.files.remove(i);
        give_back(&mut self.mount, handle);
        Ok(())
    }

    /// Closes all files that are open, the last of the list first, and gives the device back.
    pub fn into_device(self) -> S::Bottom
        ensures closed { (n : _) × Closed (mount_of self) (reverse (files_of self)) n × (result ≡ device_of n) }
    {
        let OpenFiles {
            mut mount,
            mut files,
            opened: _,
        } = self;
        while let Some(file) = files.pop() {
            let OpenFile { number: _, handle } = file;
            give_back(&mut mount, handle);
        }
        files.destroy_empty();
        mount.into_device()
    }
}
