// Why a tree was not built.
ghost use Rattle.std.specs.Prelude.{◌≡◌, ◌++◌, Some, codes};
ghost use Rattle.std.specs.Fmt.{decimal};
ghost use Rattle.builder.specs.Fault.{number_of, sentence_of};

use std::fmt;

/// Why nothing was built.
#[derive(Clone, Copy, PartialEq, Eq, Debug)]
pub enum BuildFault {
    /// A block size, the number of blocks or the salt is outside its limit.
    Limit = 2,
    /// The image is not whole blocks, or a buffer has not the length of what goes into it.
    Length = 3,
}

impl BuildFault {
    /// The fault's number, 2 or 3.
    pub fn number(self) -> u8
        ensures { result ≡ number_of self }
    {
        self as u8
    }

    fn sentence(self) -> &'static str
        ensures { result.now ≡ sentence_of self }
    {
        match self {
            BuildFault::Limit => "a block size, a number of blocks or a salt outside its limit",
            BuildFault::Length => "an image or a buffer of the wrong length",
        }
    }
}

// By hand: the crates below `text` stand on std alone.
impl fmt::Display for BuildFault {
    ghost output = { λ fault. Some (decimal (number_of fault) ++ (codes ": " ++ sentence_of fault)) };

    fn fmt<W: fmt::Write>(&self, f: &mut fmt::Formatter<W>) -> fmt::Result {
        write!(f, "{}: {}", self.number(), self.sentence())
    }
}
