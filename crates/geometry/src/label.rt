// A label: what a card's owner tells of its tree.
ghost use Rattle.std.specs.Prelude.{◌≡◌, ◌++◌, Some, codes};
ghost use Rattle.std.specs.Fmt.{decimal};
ghost use Rattle.geometry.specs.Label.{Checked, number_of};

use crate::geometry::Geometry;
use digest::Digest;
use std::fmt;

/// Bytes of the longest salt.
pub const SALT_LIMIT: usize = 256;

/// A label, as a caller gives it: numbers of any value, and strings of any length.
#[derive(Clone, Copy)]
pub struct Label<'a> {
    /// The number of the digest function, or any other number, which is refused and not ruled out by a type.
    pub digest: u32,
    /// Bytes of a data block.
    pub data_block: u32,
    /// Bytes of a tree block.
    pub hash_block: u32,
    /// The number of data blocks.
    pub blocks: u32,
    /// What is digested before each block, of at most `SALT_LIMIT` bytes.
    pub salt: &'a [u8],
    /// The root digest.
    pub root: &'a [u8],
}

impl Label<'_> {
    /// The geometry that the label tells. Refused is a value outside its limit, another digest's number, or a root of another
    /// length than a digest.
    pub fn check<D: Digest>(&self, digest: &D) -> Result<Geometry, LabelFault>
        ensures { Checked D.NUMBER D.LEN self.now result }
    {
        let size = digest.output_len();
        if self.digest != digest.label_number()
            || self.salt.len() > SALT_LIMIT
            || self.root.len() != size
        {
            return Err(LabelFault::Limit);
        }
        let data_block = self.data_block as usize;
        let hash_block = self.hash_block as usize;
        Geometry::new(data_block, hash_block, self.blocks as usize, size).ok_or(LabelFault::Limit)
    }
}

/// Why a label is refused.
#[derive(Clone, Copy, PartialEq, Eq, Debug)]
pub enum LabelFault {
    /// A value outside its limit, another digest's number, or a root of another length.
    Limit = 2,
}

impl LabelFault {
    /// The fault's number, 2.
    pub fn number(self) -> u8
        ensures { result ≡ number_of self }
    {
        self as u8
    }
}

// By hand: the crates below `text` stand on std alone.
impl fmt::Display for LabelFault {
    ghost output = { λ fault. Some (decimal (number_of fault) ++ codes ": a label with a value outside its limit, or of another digest") };

    fn fmt<W: fmt::Write>(&self, f: &mut fmt::Formatter<W>) -> fmt::Result {
        match self {
            LabelFault::Limit => write!(
                f,
                "{}: a label with a value outside its limit, or of another digest",
                self.number()
            ),
        }
    }
}
