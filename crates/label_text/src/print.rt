// Printing a label.
use crate::key::Key;
use crate::label::LabelText;
use crate::line::{Line, Salt};
use geometry::Geometry;
use std::fmt;
use text::Digits;

impl LabelText {
    ghost use Rattle.geometry.specs.Of.{MadeOf};
    ghost use Rattle.label_text.specs.Label.{told};
    ghost use Rattle.label_text.specs.Printed.{tree_of};

    // The geometry of the label's tree, unless a number is outside its limit.
    fn geometry(&self) -> Option<Geometry>
        ensures { MadeOf (tree_of (told self.now)) result }
    {
        Geometry::new(
            self.data_block as usize,
            self.hash_block as usize,
            self.blocks as usize,
            self.function.size(),
        )
    }
}

// How many blocks the label's tree has, unless a number is outside its limit.
#[derive(Clone, Copy)]
struct TreeLine<'a>(&'a LabelText);

impl fmt::Display for TreeLine<'_> {
    ghost use Rattle.std.specs.Prelude.{◌≡◌, false, Ok, Some};
    ghost use Rattle.std.specs.Fmt.{DisplaysOnOk};
    ghost use Rattle.geometry.specs.Limits.{within};
    ghost use Rattle.label_text.specs.Label.{told};
    ghost use Rattle.label_text.specs.Printed.{tree_line, tree_of};

    ghost output = { λ line. Some (tree_line (tree_of (told line.0.now))) };

    // a line that is left out is no error of the writer
    fn fmt<W: fmt::Write>(&self, f: &mut fmt::Formatter<W>) -> fmt::Result
        ensures writes { DisplaysOnOk W.write_str_gives f.old result (Some (tree_line (tree_of (told self.now.0.now)))) f.new }
        ensures left_out { within (tree_of (told self.now.0.now)) ≡ false → result ≡ Ok tt }
    {
        match self.0.geometry() {
            Some(geometry) => write!(f, "Hash blocks:     \t{}\n", geometry.tree_blocks()),
            None => Ok(()),
        }
    }
}

impl fmt::Display for LabelText {
    ghost use Rattle.std.specs.Prelude.{Some};
    ghost use Rattle.label_text.specs.Label.{told};
    ghost use Rattle.label_text.specs.Printed.{text_of};

    ghost output = { λ label. Some (text_of (told label)) };

    fn fmt<W: fmt::Write>(&self, f: &mut fmt::Formatter<W>) -> fmt::Result {
        write!(
            f,
            "{}{}{}{}{}{}{}{}",
            Line(Key::HashType, "1"),
            Line(Key::DataBlocks, self.blocks),
            Line(Key::DataBlockSize, self.data_block),
            TreeLine(self),
            Line(Key::HashBlockSize, self.hash_block),
            Line(Key::HashAlgorithm, self.function),
            Line(Key::Salt, Salt(self.salt())),
            Line(Key::RootHash, Digits(self.root()))
        )
    }
}
