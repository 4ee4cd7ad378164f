// What is sought in a list of headers.
ghost use Rattle.std.specs.Prelude.{◌≡◌};
ghost use Rattle.reader.specs.Sought.{sought_value};
ghost use Rattle.volume.specs.Walk.{behind as behind_of, is_dots as is_dots_of, is_it as is_it_of};

// A name, or the entry of a number, counted from 0.
#[derive(Clone, Copy)]
pub(crate) enum Sought<'a> {
    Name(&'a [u8]),
    Index(usize),
}

impl Sought<'_> {
    // Whether an entry of this name is the one.
    pub(crate) fn is_it(&self, name: &[u8]) -> bool
        ensures { result ≡ is_it_of (sought_value self.now) name.now }
    {
        match self {
            Sought::Name(wanted) => name == *wanted,
            Sought::Index(index) => *index == 0,
        }
    }

    // What is sought behind an entry that is not.
    pub(crate) fn behind(&mut self)
        ensures { sought_value self.new ≡ behind_of (sought_value self.old) }
    {
        if let Sought::Index(index) = self {
            *index = index.saturating_sub(1);
        }
    }
}

// Whether an entry of this name is passed over.
pub(crate) fn is_dots(name: &[u8]) -> bool
    ensures { result ≡ is_dots_of name.now }
{
    name == b".".as_slice() || name == b"..".as_slice()
}
