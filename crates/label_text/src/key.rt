// The lines of a label that are read.
ghost use Rattle.std.specs.Prelude.{◌≡◌, Some};
ghost use Rattle.label_text.specs.Key.{front_of, heading_of};

use std::fmt;

#[derive(Clone, Copy, PartialEq, Eq, Debug)]
pub enum Key {
    HashType,
    DataBlocks,
    DataBlockSize,
    HashBlockSize,
    HashAlgorithm,
    Salt,
    RootHash,
}

impl Key {
    // The key and its colon, as each line with it begins.
    pub(crate) fn front(self) -> &'static str
        ensures { result.now ≡ front_of self }
    {
        match self {
            Key::HashType => "Hash type:",
            Key::DataBlocks => "Data blocks:",
            Key::DataBlockSize => "Data block size:",
            Key::HashBlockSize => "Hash block size:",
            Key::HashAlgorithm => "Hash algorithm:",
            Key::Salt => "Salt:",
            Key::RootHash => "Root hash:",
        }
    }

    // The same with the blanks that veritysetup prints behind it.
    pub(crate) fn heading(self) -> &'static str
        ensures { result.now ≡ heading_of self }
    {
        match self {
            Key::HashType => "Hash type:       \t",
            Key::DataBlocks => "Data blocks:     \t",
            Key::DataBlockSize => "Data block size: \t",
            Key::HashBlockSize => "Hash block size: \t",
            Key::HashAlgorithm => "Hash algorithm:  \t",
            Key::Salt => "Salt:            \t",
            Key::RootHash => "Root hash:      \t",
        }
    }
}

impl fmt::Display for Key {
    ghost output = { λ key. Some (front_of key) };

    fn fmt<W: fmt::Write>(&self, f: &mut fmt::Formatter<W>) -> fmt::Result {
        write!(f, "{}", self.front())
    }
}
