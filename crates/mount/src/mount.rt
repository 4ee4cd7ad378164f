// A mount over a store.
ghost use Rattle.std.specs.Prelude.{◌≡◌, None};

use calls::{MountRule, Refusal};
use device::wipe;
use layers::Store;
use reader::{Handle, Nth, Position, State};
use volume::{Entry, Start};

/// What the calls remember, over a store: a verified mount of the image that the store's label tells of.
#[derive(Drop)]
pub struct MountOver<S: Store> {
    pub(crate) store: S,
    pub(crate) state: State,
    // With a label that was refused no handle is ever held.
    ghost none: { S.label store ≡ None → state.held ≡ 0 },
}

impl<S: Store> MountOver<S> {
    ghost use Rattle.std.specs.Prelude.{◌<◌, ◌≤◌, ◌+◌, ◌-◌, cond, [], OnErr, OnOk, IfErr, IfOk, is_ok, nat_lt, length, replicate};
    ghost use Rattle.calls.specs.Calls.{count, list, listed, read, started};
    ghost use Rattle.reader.specs.Calls.{begins, closes, extent_of, gave_all, gave_closed, opened_file, opens, reads_whole, refused};
    ghost use Rattle.mount.specs.Mount.{Called, device_of, held_of, replied};

    /// Reads the start of the volume. Once it has begun, a mount answers the same again and asks nothing.
    pub fn begin(&mut self) -> Result<Start, Refusal<S::Refusal>>
        ensures step { Called self.old begins (replied started [] result) self.new }
        ensures held { held_of self.new ≡ held_of self.old }
    {
        let Some(geometry) = self.store.geometry() else {
            return Err(Refusal::Mount(MountRule::Label));
        };
        self.state.begin(&mut self.store, &geometry)
    }

    /// Opens the file that a path names. The handle is held until `whole` or `close` takes it.
    pub fn open(&mut self, path: &[u8]) -> Result<Handle, Refusal<S::Refusal>>
        ensures step { Called self.old (opens path.now) (replied opened_file [] result) self.new }
        ensures held { held_of self.new ≡ cond (is_ok result) (held_of self.old + 1) (held_of self.old) }
    {
        let Some(geometry) = self.store.geometry() else {
            return Err(Refusal::Mount(MountRule::Label));
        };
        self.state.open(&mut self.store, &geometry, path)
    }

    /// Reads from an offset of a file on: as many bytes as there are and the buffer takes, which is what it answers. Zeros
    /// stand behind them, and in the whole buffer if it is refused.
    pub fn read(
        &mut self,
        handle: &Handle,
        offset: usize,
        buf: &mut [u8],
    ) -> Result<usize, Refusal<S::Refusal>>
        ensures step { Called self.old (read (extent_of handle.now) offset (length buf.old)) (replied count buf.new result) self.new }
        ensures few { IfOk result (λ c. c ≤ length buf.old) }
        ensures zeros { OnErr result (buf.new ≡ replicate (length buf.old) 0) }
        ensures held { held_of self.new ≡ held_of self.old }
    {
        let Some(geometry) = self.store.geometry() else {
            wipe(buf);
            return Err(Refusal::Mount(MountRule::Label));
        };
        let position = Position { handle, offset };
        self.state.read(&mut self.store, &geometry, position, buf)
    }

    /// Reads a whole file into a buffer of its size, and ends its handle. Refused, it leaves zeros and gives the handle back.
    pub fn whole(
        &mut self,
        handle: Handle,
        buf: &mut [u8],
    ) -> Result<(), (Handle, Refusal<S::Refusal>)>
        ensures step { Called self.old (reads_whole handle buf.old) (replied gave_all buf.new (refused result)) self.new }
        ensures zeros { OnErr result (buf.new ≡ replicate (length buf.old) 0) }
        ensures back { IfErr result (λ e. e.0 ≡ handle) }
        ensures held { held_of self.new ≡ cond (is_ok result) (held_of self.old - 1) (held_of self.old) }
        ensures some { OnOk result (0 < held_of self.old) }
    {
        let Some(geometry) = self.store.geometry() else {
            wipe(buf);
            return Err((handle, Refusal::Mount(MountRule::Label)));
        };
        self.state.whole(&mut self.store, &geometry, handle, buf)
    }

    /// The entry of a number in the directory that a path names, counted from 0 without `.` and `..`. Its name goes into a
    /// buffer of 128 bytes, with zeros behind it.
    pub fn list(
        &mut self,
        path: &[u8],
        index: usize,
        buf: &mut [u8],
    ) -> Result<Entry, Refusal<S::Refusal>>
        ensures step { Called self.old (list path.now index (length buf.old)) (replied listed buf.new result) self.new }
        ensures zeros { OnErr result (buf.new ≡ replicate (length buf.old) 0) }
        ensures held { held_of self.new ≡ held_of self.old }
    {
        let Some(geometry) = self.store.geometry() else {
            wipe(buf);
            return Err(Refusal::Mount(MountRule::Label));
        };
        let nth = Nth { path, index };
        self.state.list(&mut self.store, &geometry, nth, buf)
    }

    /// Ends a handle. It is refused exactly where none is held, and then gives the handle back.
    pub fn close(&mut self, handle: Handle) -> Result<(), (Handle, Refusal<S::Refusal>)>
        ensures step { Called self.old (closes handle) (replied gave_closed [] (refused result)) self.new }
        ensures back { IfErr result (λ e. e.0 ≡ handle) }
        ensures closes { is_ok result ≡ nat_lt 0 (held_of self.old) }
        ensures held { held_of self.new ≡ held_of self.old - 1 }
    {
        let Some(_geometry) = self.store.geometry() else {
            return Err((handle, Refusal::Mount(MountRule::Label)));
        };
        self.state.close(handle)
    }

    /// Gives the device at the bottom back.
    pub fn into_device(self) -> S::Bottom
        ensures { result ≡ device_of self }
    {
        self.store.into_bottom()
    }
}
