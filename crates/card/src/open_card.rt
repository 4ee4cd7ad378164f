// A card for a command: its label, and as much of its image and tree as the label tells.
use crate::fault::Fault;
use geometry::Geometry;
use label_text::LabelText;
use media::Memory;
use std::fs::File;
use std::io;
use std::io::Read;
use text::with_digest;
use thiserror::Error;

// Why the files make no card.
#[derive(Debug, Drop, Error)]
pub enum NoCard {
    #[error(transparent)]
    Label(label_text::Fault),
    #[error("the label has a value outside its limit")]
    Limit,
    // So many bytes are wanting of those that the label tells.
    #[error("too short: {has} bytes, where the label tells of {wanted}")]
    Short { has: usize, wanted: usize },
}

// The names of a card's files.
#[derive(Drop)]
pub struct CardNames {
    pub label: String,
    pub image: String,
    pub tree: String,
}

#[derive(Drop)]
pub struct Card {
    pub label: LabelText,
    pub areas: Areas,
}

// The bytes of both areas of a card.
#[derive(Drop)]
pub struct Areas {
    pub image: Vec<u8>,
    pub tree: Vec<u8>,
}

// Whether a file may be shorter than the label tells.
#[derive(Clone, Copy, PartialEq, Eq)]
pub enum Extent {
    Whole,
    AnyLength,
}

impl Areas {
    pub fn read(
        rt: &HostRuntime,
        geometry: &Geometry,
        extent: Extent,
        image: String,
        tree: String,
    ) -> Result<Areas, Fault> {
        let length = geometry.blocks().saturating_mul(geometry.data_block());
        Ok(Areas {
            image: read_file(rt, extent, image, length)?,
            tree: read_file(rt, extent, tree, geometry.tree_len())?,
        })
    }

    pub fn memory(&self) -> Memory<'_> {
        Memory {
            data: self.image.as_slice(),
            tree: self.tree.as_slice(),
        }
    }
}

impl Card {
    pub fn read(rt: &HostRuntime, names: CardNames) -> Result<Card, Fault> {
        let (label, geometry) = read_label(rt, names.label)?;
        Ok(Card {
            label,
            areas: Areas::read(rt, &geometry, Extent::Whole, names.image, names.tree)?,
        })
    }
}

// A label's file is not read beyond so many bytes.
const LABEL_LIMIT: u64 = 65536;

// A label and the numbers that it tells, where they are within their limits.
pub fn read_label(rt: &HostRuntime, name: String) -> Result<(LabelText, Geometry), Fault> {
    let bytes = match read_at_most(rt, name.as_str(), LABEL_LIMIT) {
        Ok(bytes) => bytes,
        Err(error) => return Err(Fault::File(name, error)),
    };
    checked(bytes.as_slice()).map_err(|why| Fault::Card(name, why))
}

fn checked(text: &[u8]) -> Result<(LabelText, Geometry), NoCard> {
    let label = LabelText::read(text).map_err(NoCard::Label)?;
    let geometry = with_digest!(label.function(), digest => label.label().check(&digest));
    match geometry {
        Ok(geometry) => Ok((label, geometry)),
        Err(_) => Err(NoCard::Limit),
    }
}

// The first `length` bytes of a file, or those that it has.
fn read_file(
    rt: &HostRuntime,
    extent: Extent,
    name: String,
    length: usize,
) -> Result<Vec<u8>, Fault> {
    let bytes = match read_at_most(rt, name.as_str(), length as u64) {
        Ok(bytes) => bytes,
        Err(error) => return Err(Fault::File(name, error)),
    };
    if extent == Extent::Whole && bytes.len() < length {
        return Err(Fault::Card(
            name,
            NoCard::Short {
                has: bytes.len(),
                wanted: length,
            },
        ));
    }
    Ok(bytes)
}

fn read_at_most(rt: &HostRuntime, name: &str, limit: u64) -> io::Result<Vec<u8>> {
    let mut bytes = Vec::new(rt.alloc());
    File::open(rt, name)?.take(limit).read_to_end(&mut bytes)?;
    Ok(bytes)
}
