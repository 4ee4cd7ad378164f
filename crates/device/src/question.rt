// What is asked of a device.
ghost use Rattle.std.specs.Prelude.{Some};
ghost use Rattle.device.specs.Area.{area_name};

use std::fmt;

#[derive(Clone, Copy, PartialEq, Eq, Debug)]
pub enum Area {
    Data,
    Tree,
}

impl fmt::Display for Area {
    ghost output = { λ area. Some (area_name area) };

    fn fmt<W: fmt::Write>(&self, f: &mut fmt::Formatter<W>) -> fmt::Result {
        match self {
            Area::Data => write!(f, "data"),
            Area::Tree => write!(f, "tree"),
        }
    }
}

// Of a buffer to be filled its length counts.
#[derive(Clone, Copy, PartialEq, Eq, Debug)]
pub struct Question {
    pub area: Area,
    pub block: u32,
    pub length: usize,
}
