// Why a question was refused, with its place.
ghost use Rattle.std.specs.Prelude.{◌≡◌, Some};
ghost use Rattle.media.specs.Fault.{outside_number, outside_text, spent_number, spent_text};

use device::Area;
use std::fmt;

/// The block does not lie whole in its area, or no byte was asked for.
#[derive(Clone, Copy, PartialEq, Eq, Debug)]
pub struct Outside {
    pub area: Area,
    pub block: u32,
}

impl Outside {
    /// The refusal's number, 8.
    pub fn number(&self) -> u8
        ensures { result ≡ outside_number self.now }
    {
        8
    }
}

impl fmt::Display for Outside {
    ghost output = { λ outside. Some (outside_text outside) };

    fn fmt<W: fmt::Write>(&self, f: &mut fmt::Formatter<W>) -> fmt::Result {
        let Outside { area, block } = self;
        let number = self.number();
        write!(
            f,
            "{number}: block {block} of the {area} area is not all there"
        )
    }
}

/// So many bytes are not left on the tape, or no byte was asked for.
#[derive(Clone, Copy, PartialEq, Eq, Debug)]
pub struct Spent {
    pub area: Area,
    pub block: u32,
}

impl Spent {
    /// The refusal's number, 9.
    pub fn number(&self) -> u8
        ensures { result ≡ spent_number self.now }
    {
        9
    }
}

impl fmt::Display for Spent {
    ghost output = { λ spent. Some (spent_text spent) };

    fn fmt<W: fmt::Write>(&self, f: &mut fmt::Formatter<W>) -> fmt::Result {
        let Spent { area, block } = self;
        let number = self.number();
        write!(
            f,
            "{number}: the tape has too few bytes left for block {block} of the {area} area"
        )
    }
}
