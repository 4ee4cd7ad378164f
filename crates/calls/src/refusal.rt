// Why a call was refused. `F` is the fault of the path check.
ghost use Rattle.std.specs.Prelude.{◌≡◌, Some};
ghost use Rattle.calls.specs.Refusal.{mount_number, places_of, refusal_number, volume_fault_number, volume_fault_places, within_path};
ghost use Rattle.calls.specs.Sentence.{mount_rule_text, mount_sentence, refusal_text};

use layers::{Place, StorageFault};
use std::fmt;
use volume::{PathFault, VolumeFault};

/// The rules of the mount itself.
#[derive(Clone, Copy, PartialEq, Eq, Debug, Drop)]
pub enum MountRule {
    /// The label has a value outside its limit, or is another digest's.
    Label = 2,
    /// The handle's file does not lie within the volume, or none is held.
    Handle = 50,
    /// The offset is behind the file's end.
    Offset = 51,
    /// The buffer's length.
    Length = 52,
    /// As many handles are held as can be, 65,535.
    Held = 53,
    /// The mount has not begun.
    NotBegun = 54,
}

impl MountRule {
    /// The rule's number, 2 or 50 to 54.
    pub fn number(self) -> u8
        ensures { result ≡ mount_number self }
    {
        self as u8
    }

    fn sentence(self) -> &'static str
        ensures { result.now ≡ mount_sentence self }
    {
        match self {
            MountRule::Label => "a label with a value outside its limit, or of another digest",
            MountRule::Handle => {
                "the handle's file is not within this volume, or no handle is held"
            }
            MountRule::Offset => "the offset is behind the file's end",
            MountRule::Length => "the buffer has another length than the call fills",
            MountRule::Held => "65535 handles are held, and no more can be",
            MountRule::NotBegun => "the mount has not begun",
        }
    }
}

impl fmt::Display for MountRule {
    ghost output = { λ rule. Some (mount_rule_text rule) };

    fn fmt<W: fmt::Write>(&self, f: &mut fmt::Formatter<W>) -> fmt::Result {
        write!(f, "{}: {}", self.number(), self.sentence())
    }
}

/// Why a call was refused: a rule of the mount, a fault of the volume, or one at a component of the path. `F` is the fault of the
/// path check.
#[derive(Clone, Copy, PartialEq, Eq, Debug, Drop)]
pub enum Refusal<F> {
    Mount(MountRule),
    Volume(VolumeFault<F>),
    Path(PathFault<F>),
}

/// Why a call of a mount was refused, over a device that refuses for a reason `R`.
pub type CallRefusal<R> = Refusal<StorageFault<R>>;

/// The places of a refusal, one within the other: the offset of a component of the path, an offset of the volume, and a block of
/// the tree or the data.
#[derive(Clone, Copy, PartialEq, Eq, Debug, Drop)]
pub struct Places {
    pub path: Option<usize>,
    pub volume: Option<u32>,
    pub storage: Option<Place>,
}

fn volume_fault_number<R>(fault: &VolumeFault<StorageFault<R>>) -> u8
    ensures { result ≡ volume_fault_number fault.now }
{
    match fault {
        VolumeFault::Rule(_, rule) => rule.number(),
        VolumeFault::Storage(_, below) => below.number(),
    }
}

// The offset of a fault of the volume, and the block that the fault below names.
fn volume_fault_places<R>(path: Option<usize>, fault: &VolumeFault<StorageFault<R>>) -> Places
    ensures { result ≡ within_path path (volume_fault_places fault.now) }
{
    match fault {
        VolumeFault::Rule(at, _) => Places {
            path,
            volume: Some(*at),
            storage: None,
        },
        VolumeFault::Storage(at, below) => Places {
            path,
            volume: Some(*at),
            storage: below.place(),
        },
    }
}

impl<R> CallRefusal<R> {
    /// The number of the rule that is broken, or of the storage fault at the bottom.
    pub fn number(&self) -> u8
        ensures { result ≡ refusal_number self.now }
    {
        match self {
            Refusal::Mount(rule) => rule.number(),
            Refusal::Volume(fault) => volume_fault_number(fault),
            Refusal::Path(PathFault::Rule(_, rule)) => rule.number(),
            Refusal::Path(PathFault::Volume(_, fault)) => volume_fault_number(fault),
        }
    }

    /// Its places; one that it has not is none.
    pub fn places(&self) -> Places
        ensures { result ≡ places_of self.now }
    {
        match self {
            Refusal::Mount(_) => Places {
                path: None,
                volume: None,
                storage: None,
            },
            Refusal::Volume(fault) => volume_fault_places(None, fault),
            Refusal::Path(PathFault::Rule(at, _)) => Places {
                path: Some(*at),
                volume: None,
                storage: None,
            },
            Refusal::Path(PathFault::Volume(at, fault)) => volume_fault_places(Some(*at), fault),
        }
    }
}

impl<F: fmt::Display> fmt::Display for Refusal<F> {
    ghost output = { λ refusal. refusal_text F.output refusal };

    fn fmt<W: fmt::Write>(&self, f: &mut fmt::Formatter<W>) -> fmt::Result {
        match self {
            Refusal::Mount(rule) => write!(f, "{rule}"),
            Refusal::Volume(fault) => write!(f, "{fault}"),
            Refusal::Path(fault) => write!(f, "{fault}"),
        }
    }
}
