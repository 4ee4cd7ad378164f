// The refusal of a digest.
ghost use Rattle.std.specs.Prelude.{◌≡◌, ◌++◌, Some, codes};
ghost use Rattle.std.specs.Fmt.{decimal};
ghost use Rattle.digest.specs.Answer.{number_of};

use std::fmt;

/// Why a digest was refused.
#[derive(Clone, Copy, PartialEq, Eq, Debug)]
pub enum Refusal {
    /// The buffer has not the digest's length, or the joined string is above the limit.
    Length = 3,
}

impl Refusal {
    /// The refusal's number, 3.
    pub fn number(self) -> u8
        ensures { result ≡ number_of self }
    {
        self as u8
    }
}

// By hand: the crates below `text` stand on std alone.
impl fmt::Display for Refusal {
    ghost output = { λ refusal. Some (decimal (number_of refusal) ++ codes ": a buffer or a message of the wrong length") };

    fn fmt<W: fmt::Write>(&self, f: &mut fmt::Formatter<W>) -> fmt::Result {
        match self {
            Refusal::Length => write!(
                f,
                "{}: a buffer or a message of the wrong length",
                self.number()
            ),
        }
    }
}
