// Why a block was not given.
ghost use Rattle.std.specs.Prelude.{◌≡◌, Some};
ghost use Rattle.layers.specs.declared.fault.StorageFault.TheVariants.{Refused};
ghost use Rattle.layers.specs.Fault.{area_of, data_place, level_number, number_of, place_of};
ghost use Rattle.layers.specs.Sentence.{fault_text, place_text};

use device::Area;
use std::fmt;

// The data, or a level of the tree, the lowest being 0.
#[derive(Clone, Copy, PartialEq, Eq, Debug, Drop)]
pub enum Level {
    Data,
    Tree(u8),
}

impl Level {
    // The area that the level lies in.
    pub fn area(self) -> Area
        ensures { result ≡ area_of self }
    {
        match self {
            Level::Data => Area::Data,
            Level::Tree(_) => Area::Tree,
        }
    }

    // 255 is the data.
    pub fn number(self) -> u8
        ensures { result ≡ level_number self }
    {
        match self {
            Level::Data => 255,
            Level::Tree(level) => level,
        }
    }
}

// A block of its area. Blocks of the tree are counted over all its levels.
#[derive(Clone, Copy, PartialEq, Eq, Debug, Drop)]
pub struct Place {
    pub level: Level,
    pub block: u32,
}

impl fmt::Display for Place {
    ghost output = { λ place. Some (place_text place) };

    fn fmt<W: fmt::Write>(&self, f: &mut fmt::Formatter<W>) -> fmt::Result {
        let block = self.block;
        match self.level {
            Level::Data => write!(f, "data block {block}"),
            Level::Tree(level) => write!(f, "tree block {block} on level {level}"),
        }
    }
}

impl Place {
    // Data block `k`.
    pub fn data(k: u32) -> Place
        ensures { result ≡ data_place k }
    {
        Place {
            level: Level::Data,
            block: k,
        }
    }
}

#[derive(Clone, Copy, PartialEq, Eq, Debug, Drop)]
pub enum StorageFault<R> {
    // The label is outside a limit, or another digest's.
    Label,
    // Asked for anything but a whole data block that there is; it names the block asked for.
    NoBlock(u32),
    // The device below refused the block, for this reason.
    Refused(Place, R),
    // The block has not the digest that the label or the block above it tells.
    Mismatch(Place),
}

impl<R> StorageFault<R> {
    /// The fault's number: 2, 10, 11 or 12.
    pub fn number(&self) -> u8
        ensures { result ≡ number_of self.now }
    {
        match self {
            StorageFault::Label => 2,
            StorageFault::NoBlock(_) => 12,
            StorageFault::Refused(..) => 10,
            StorageFault::Mismatch(_) => 11,
        }
    }

    // The block that it names.
    pub fn place(&self) -> Option<Place>
        ensures { result ≡ place_of self.now }
    {
        match self {
            StorageFault::Label => None,
            StorageFault::NoBlock(block) => Some(Place::data(*block)),
            StorageFault::Refused(place, _) => Some(*place),
            StorageFault::Mismatch(place) => Some(*place),
        }
    }
}

// A refusal below, put with its place.
impl<R> From<(R, Place)> for StorageFault<R> {
    ghost from_gives = { λ lower fault. fault ≡ Refused lower.1 lower.0 };

    fn from(refusal: (R, Place)) -> StorageFault<R> {
        StorageFault::Refused(refusal.1, refusal.0)
    }
}

impl<R: fmt::Display> fmt::Display for StorageFault<R> {
    ghost output = { λ fault. fault_text R.output fault };

    fn fmt<W: fmt::Write>(&self, f: &mut fmt::Formatter<W>) -> fmt::Result {
        let number = self.number();
        match self {
            StorageFault::Label => write!(
                f,
                "{number}: a label with a value outside its limit, or of another digest"
            ),
            StorageFault::NoBlock(block) => {
                write!(
                    f,
                    "{number}: {block} is no data block, or not asked for whole"
                )
            }
            StorageFault::Refused(place, below) => {
                write!(f, "{number}: {place} is refused ({below})")
            }
            StorageFault::Mismatch(place) => {
                write!(
                    f,
                    "{number}: {place} is not the one that the root digest stands for"
                )
            }
        }
    }
}
