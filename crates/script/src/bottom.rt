// What a bottom device refused, in short.
ghost use Rattle.std.specs.Prelude.{◌≡◌, Some};
ghost use Rattle.media.specs.Fault.{outside_number, spent_number};
ghost use Rattle.script.specs.Code.{bottom_text};

use device::Area;
use media::{Outside, Spent};
use std::fmt;

/// A refusal by its number, and the block that was asked for.
#[derive(Clone, Copy, PartialEq, Eq, Debug)]
pub struct Bottom {
    pub number: u8,
    pub area: Area,
    pub block: u32,
}

impl fmt::Display for Bottom {
    ghost output = { λ bottom. Some (bottom_text bottom) };

    fn fmt<W: fmt::Write>(&self, f: &mut fmt::Formatter<W>) -> fmt::Result {
        let Bottom {
            number,
            area,
            block,
        } = self;
        write!(f, "{number}[{area} {block}]")
    }
}

/// A refusal of a bottom device, which has a number and names a block.
pub trait BottomRefusal {
    ghost use Rattle.script.specs.declared.bottom.Bottom.{Bottom};

    ghost bottom: { Self → Bottom };

    /// The refusal in short.
    fn bottom(&self) -> Bottom
        ensures { result ≡ bottom self.now };
}

impl BottomRefusal for Outside {
    ghost bottom = { λ r. record { number = outside_number r; area = r.area; block = r.block } };

    fn bottom(&self) -> Bottom {
        Bottom {
            number: self.number(),
            area: self.area,
            block: self.block,
        }
    }
}

impl BottomRefusal for Spent {
    ghost bottom = { λ r. record { number = spent_number r; area = r.area; block = r.block } };

    fn bottom(&self) -> Bottom {
        Bottom {
            number: self.number(),
            area: self.area,
            block: self.block,
        }
    }
}
