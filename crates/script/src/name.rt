// The names of the calls.
ghost use Rattle.std.specs.Prelude.{◌≡◌, Some};
ghost use Rattle.script.specs.Name.{name_text, named};

use std::fmt;

/// The name of a call, as a line begins.
#[derive(Clone, Copy, PartialEq, Eq, Debug)]
pub enum Name {
    Begin,
    Open,
    Read,
    Whole,
    List,
    Close,
}

impl Name {
    // The call that has this very name.
    pub(crate) fn of(word: &[u8]) -> Option<Name>
        ensures { result ≡ named word.now }
    {
        if word == b"begin".as_slice() {
            Some(Name::Begin)
        } else if word == b"open".as_slice() {
            Some(Name::Open)
        } else if word == b"read".as_slice() {
            Some(Name::Read)
        } else if word == b"whole".as_slice() {
            Some(Name::Whole)
        } else if word == b"list".as_slice() {
            Some(Name::List)
        } else if word == b"close".as_slice() {
            Some(Name::Close)
        } else {
            None
        }
    }
}

impl fmt::Display for Name {
    ghost output = { λ name. Some (name_text name) };

    fn fmt<W: fmt::Write>(&self, f: &mut fmt::Formatter<W>) -> fmt::Result {
        match self {
            Name::Begin => write!(f, "begin"),
            Name::Open => write!(f, "open"),
            Name::Read => write!(f, "read"),
            Name::Whole => write!(f, "whole"),
            Name::List => write!(f, "list"),
            Name::Close => write!(f, "close"),
        }
    }
}
