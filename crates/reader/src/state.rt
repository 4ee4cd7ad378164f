// The six calls over a store, which gives the blocks of the volume's image, and what a mount remembers of them.
ghost use Rattle.std.specs.Prelude.{◌≡◌, None};

use crate::block::BlockSize;
use crate::fetch::fetch;
use crate::front::read_front;
use crate::handle::Handle;
use crate::nth::Nth;
use crate::paths::{list_path, open_path};
use crate::position::Position;
use crate::romfs::Romfs;
use crate::start::{image_size, read_start};
use calls::{MountRule, Refusal};
use device::{Device, wipe};
use geometry::Geometry;
use volume::{Entry, NAME_SIZE, Start};

/// The start, once it has begun, and how many handles are held. It is neither copied nor cloned: a copied count could close
/// handles that another holds.
#[derive(Debug, Drop)]
pub struct State {
    pub(crate) begun: Option<Start>,
    pub(crate) held: u16,
    ghost none: { begun ≡ None → held ≡ 0 },
}

impl State {
    ghost use Rattle.std.specs.Prelude.{◌<◌, ◌≤◌, ◌+◌, ◌-◌, cond, [], OnErr, OnOk, IfErr, IfOk, is_ok, nat_lt, length, replicate};
    ghost use Rattle.volume.specs.Fetches.{settled};
    ghost use Rattle.calls.specs.Calls.{call_rules, count, fresh, listed, started};
    ghost use Rattle.reader.specs.Calls.{CallRan, begins, came_whole, closes, gave_closed, lists, opened_file, opens, outcome, reads, reads_whole, refused, state_of};

    /// That of a mount that was just made: it has not begun, and no handle is held.
    pub fn new() -> State
        ensures { state_of result ≡ fresh }
    {
        State {
            begun: None,
            held: 0,
        }
    }

    /// Reads the start, if that was not done yet.
    #[tactic(auto, unfolding(calls::specs::Calls::begin_rules))]
    pub fn begin<D: Device>(
        &mut self,
        store: &mut D,
        geometry: &Geometry,
    ) -> Result<Start, Refusal<D::Refusal>>
        ensures run { CallRan D.meaning D.moves geometry.now store.old self.old begins (outcome started [] self.new result) store.new }
        ensures kept { OnErr result (self.new ≡ self.old) }
        ensures held { self.new.held ≡ self.old.held }
    {
        if let Some(start) = self.begun {
            return Ok(start);
        }
        match read_start(store, BlockSize::of(geometry), image_size(geometry)) {
            Ok(start) => {
                self.begun = Some(start);
                Ok(start)
            }
            Err(fault) => Err(Refusal::Volume(fault)),
        }
    }

    /// Opens the file that a path names.
    #[tactic(auto, unfolding(calls::specs::Calls::open_rules))]
    pub fn open<D: Device>(
        &mut self,
        store: &mut D,
        geometry: &Geometry,
        path: &[u8],
    ) -> Result<Handle, Refusal<D::Refusal>>
        ensures run { CallRan D.meaning D.moves geometry.now store.old self.old (opens path.now) (outcome opened_file [] self.new result) store.new }
        ensures kept { OnErr result (self.new ≡ self.old) }
        ensures held { self.new.held ≡ cond (is_ok result) (self.old.held + 1) self.old.held }
    {
        let Some(start) = self.begun else {
            return Err(Refusal::Mount(MountRule::NotBegun));
        };
        if self.held == u16::MAX {
            return Err(Refusal::Mount(MountRule::Held));
        }
        match open_path(store, Romfs::new(geometry, start), path) {
            Ok(handle) => {
                self.held += 1;
                Ok(handle)
            }
            Err(fault) => Err(Refusal::Path(fault)),
        }
    }

    /// Reads from a place in a file on, as many bytes as there are and the buffer takes, and gives their number. Zeros stand
    /// behind them, and in the whole buffer if it is refused.
    #[tactic(auto, unfolding(calls::specs::Calls::read_rules))]
    pub fn read<D: Device>(
        &self,
        store: &mut D,
        geometry: &Geometry,
        position: Position<'_>,
        buf: &mut [u8],
    ) -> Result<usize, Refusal<D::Refusal>>
        ensures run { CallRan D.meaning D.moves geometry.now store.old self.now (reads position.entry buf.old) (outcome count buf.new self.now result) store.new }
        ensures few { IfOk result (λ c. c ≤ length buf.old) }
        ensures zeros { OnErr result (buf.new ≡ replicate (length buf.old) 0) }
    {
        wipe(buf);
        let Some(start) = self.begun else {
            return Err(Refusal::Mount(MountRule::NotBegun));
        };
        if position.handle.is_outside(&start) {
            return Err(Refusal::Mount(MountRule::Handle));
        }
        let Some(count) = position.count(buf.len()) else {
            return Err(Refusal::Mount(MountRule::Offset));
        };
        let from = position.handle.start + position.offset as u32;
        match read_front(store, BlockSize::of(geometry), from, count, buf) {
            Ok(()) => Ok(count),
            Err(fault) => Err(Refusal::Volume(fault)),
        }
    }

    /// Reads a whole file into a buffer of its size, and ends its handle. Refused, it leaves zeros and gives the handle back.
    #[tactic(auto, unfolding(calls::specs::Calls::whole_rules))]
    pub fn whole<D: Device>(
        &mut self,
        store: &mut D,
        geometry: &Geometry,
        handle: Handle,
        buf: &mut [u8],
    ) -> Result<(), (Handle, Refusal<D::Refusal>)>
        ensures run { CallRan D.meaning D.moves geometry.now store.old self.old (reads_whole handle buf.old) (came_whole buf.new self.new result) store.new }
        ensures zeros { OnErr result (buf.new ≡ replicate (length buf.old) 0) }
        ensures kept { OnErr result (self.new ≡ self.old) }
        ensures back { IfErr result (λ e. e.0 ≡ handle) }
        ensures held { self.new.held ≡ cond (is_ok result) (self.old.held - 1) self.old.held }
        ensures some { OnOk result (0 < self.old.held) }
    {
        wipe(buf);
        let Some(start) = self.begun else {
            return Err((handle, Refusal::Mount(MountRule::NotBegun)));
        };
        if handle.is_outside(&start) || self.held == 0 {
            return Err((handle, Refusal::Mount(MountRule::Handle)));
        }
        if buf.len() != handle.size as usize {
            return Err((handle, Refusal::Mount(MountRule::Length)));
        }
        match fetch(store, BlockSize::of(geometry), handle.start, buf) {
            Ok(()) => {
                handle.spend();
                self.held -= 1;
                Ok(())
            }
            Err(fault) => Err((handle, Refusal::Volume(fault))),
        }
    }

    /// An entry of a directory. Its name goes into the buffer, which has `NAME_SIZE` bytes, with zeros behind it; refused, it
    /// leaves zeros.
    #[tactic(auto, unfolding(calls::specs::Calls::list_rules))]
    pub fn list<D: Device>(
        &self,
        store: &mut D,
        geometry: &Geometry,
        nth: Nth<'_>,
        buf: &mut [u8],
    ) -> Result<Entry, Refusal<D::Refusal>>
        ensures run { CallRan D.meaning D.moves geometry.now store.old self.now (lists nth.entry buf.old) (outcome listed buf.new self.now result) store.new }
        ensures zeros { OnErr result (buf.new ≡ replicate (length buf.old) 0) }
    {
        wipe(buf);
        let Some(start) = self.begun else {
            return Err(Refusal::Mount(MountRule::NotBegun));
        };
        if buf.len() != NAME_SIZE {
            return Err(Refusal::Mount(MountRule::Length));
        }
        match list_path(store, Romfs::new(geometry, start), nth.path, nth.index) {
            Ok(header) => {
                header.write_name(buf);
                Ok(header.entry)
            }
            Err(fault) => Err(Refusal::Path(fault)),
        }
    }

    /// Ends a handle; refused, it gives it back. It asks nothing, so that the length of the image does not matter.
    #[tactic(auto, unfolding(calls::specs::Calls::close_rules))]
    pub fn close<F>(&mut self, handle: Handle) -> Result<(), (Handle, Refusal<F>)>
        ensures rule { (limit : _) → settled (outcome gave_closed [] self.new (refused result)) ≡ call_rules limit (state_of self.old) (closes handle) }
        ensures kept { OnErr result (self.new ≡ self.old) }
        ensures back { IfErr result (λ e. e.0 ≡ handle) }
        ensures closes { is_ok result ≡ nat_lt 0 self.old.held }
        ensures held { self.new.held ≡ self.old.held - 1 }
    {
        let Some(_start) = self.begun else {
            return Err((handle, Refusal::Mount(MountRule::NotBegun)));
        };
        if self.held == 0 {
            return Err((handle, Refusal::Mount(MountRule::Handle)));
        }
        handle.spend();
        self.held -= 1;
        Ok(())
    }
}
