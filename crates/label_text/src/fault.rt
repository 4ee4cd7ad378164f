// Why a text is no label.
ghost use Rattle.std.specs.Prelude.{Some};
ghost use Rattle.label_text.specs.Sentence.{fault_text};

use crate::key::Key;
use std::error::Error;
use std::fmt;

/// Why a text is no label: the line at fault, by its key.
#[derive(Clone, Copy, PartialEq, Eq, Debug)]
pub enum Fault {
    /// No line begins with the key.
    Missing(Key),
    /// More than one line begins with the key.
    Doubled(Key),
    /// What stands behind the key is no value of it.
    Malformed(Key),
}

impl fmt::Display for Fault {
    ghost output = { λ fault. Some (fault_text fault) };

    fn fmt<W: fmt::Write>(&self, f: &mut fmt::Formatter<W>) -> fmt::Result {
        match self {
            Fault::Missing(key) => write!(f, "no line of the label begins with '{key}'"),
            Fault::Doubled(key) => write!(f, "more than one line of the label begins with '{key}'"),
            Fault::Malformed(key) => write!(
                f,
                "the label's line that begins with '{key}' has a malformed value"
            ),
        }
    }
}

impl Error for Fault {}
