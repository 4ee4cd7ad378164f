// Lines as they are printed.
ghost use Rattle.std.specs.Prelude.{Some, codes};
ghost use Rattle.std.specs.Fmt.{◌++?◌};
ghost use Rattle.label_text.specs.Key.{heading_of};
ghost use Rattle.label_text.specs.Printed.{salt_text};

use crate::key::Key;
use std::fmt;
use text::Digits;

// The line of a key and its value.
#[derive(Clone, Copy)]
pub(crate) struct Line<V>(pub(crate) Key, pub(crate) V);

impl<V: fmt::Display> fmt::Display for Line<V> {
    ghost output = { λ line. Some (heading_of line.0) ++? (V.output line.1 ++? Some (codes "\n")) };

    fn fmt<W: fmt::Write>(&self, f: &mut fmt::Formatter<W>) -> fmt::Result {
        write!(f, "{}{}\n", self.0.heading(), self.1)
    }
}

// A salt of no byte is printed as `-`.
#[derive(Clone, Copy)]
pub(crate) struct Salt<'a>(pub(crate) &'a [u8]);

impl fmt::Display for Salt<'_> {
    ghost output = { λ salt. Some (salt_text salt.0.now) };

    fn fmt<W: fmt::Write>(&self, f: &mut fmt::Formatter<W>) -> fmt::Result {
        if self.0.is_empty() {
            write!(f, "-")
        } else {
            write!(f, "{}", Digits(self.0))
        }
    }
}
