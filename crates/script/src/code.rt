// A refusal in short: its number with its places, one within the other.
ghost use Rattle.std.specs.Prelude.{Some};
ghost use Rattle.script.specs.Code.{block_code, code_text, storage_code, volume_code};

use crate::bottom::BottomRefusal;
use calls::{CallRefusal, Refusal};
use layers::{Level, Place, StorageFault};
use std::fmt;
use volume::{PathFault, VolumeFault};

// The place of a block of a path.
#[derive(Clone, Copy)]
struct BlockCode(Place);

impl fmt::Display for BlockCode {
    ghost output = { λ code. Some (block_code code.0) };

    fn fmt<W: fmt::Write>(&self, f: &mut fmt::Formatter<W>) -> fmt::Result {
        let block = self.0.block;
        match self.0.level {
            Level::Data => write!(f, "[level data block {block}]"),
            Level::Tree(level) => write!(f, "[level {level} block {block}]"),
        }
    }
}

#[derive(Drop)]
struct StorageCode<'a, R>(&'a StorageFault<R>);

impl<R: BottomRefusal> fmt::Display for StorageCode<'_, R> {
    ghost output = { λ code. Some (storage_code R.bottom code.0.now) };

    fn fmt<W: fmt::Write>(&self, f: &mut fmt::Formatter<W>) -> fmt::Result {
        let number = self.0.number();
        match self.0 {
            StorageFault::Label => write!(f, "{number}"),
            StorageFault::NoBlock(block) => {
                write!(f, "{number}{}", BlockCode(Place::data(*block)))
            }
            StorageFault::Refused(place, below) => {
                write!(f, "{number}{}({})", BlockCode(*place), below.bottom())
            }
            StorageFault::Mismatch(place) => write!(f, "{number}{}", BlockCode(*place)),
        }
    }
}

#[derive(Drop)]
struct VolumeCode<'a, R>(&'a VolumeFault<StorageFault<R>>);

impl<R: BottomRefusal> fmt::Display for VolumeCode<'_, R> {
    ghost output = { λ code. Some (volume_code R.bottom code.0.now) };

    fn fmt<W: fmt::Write>(&self, f: &mut fmt::Formatter<W>) -> fmt::Result {
        match self.0 {
            VolumeFault::Rule(at, rule) => write!(f, "volume@{at}:{}", rule.number()),
            VolumeFault::Storage(at, below) => write!(f, "volume@{at}({})", StorageCode(below)),
        }
    }
}

/// A refusal that prints in short, as `path@3(volume@96(11[level data block 7]))`.
#[derive(Drop)]
pub struct Code<'a, R>(pub &'a CallRefusal<R>);

impl<R: BottomRefusal> fmt::Display for Code<'_, R> {
    ghost output = { λ code. Some (code_text R.bottom code.0.now) };

    fn fmt<W: fmt::Write>(&self, f: &mut fmt::Formatter<W>) -> fmt::Result {
        match self.0 {
            Refusal::Mount(rule) => write!(f, "{}", rule.number()),
            Refusal::Volume(fault) => write!(f, "{}", VolumeCode(fault)),
            Refusal::Path(PathFault::Rule(at, rule)) => write!(f, "path@{at}:{}", rule.number()),
            Refusal::Path(PathFault::Volume(at, fault)) => {
                write!(f, "path@{at}({})", VolumeCode(fault))
            }
        }
    }
}
