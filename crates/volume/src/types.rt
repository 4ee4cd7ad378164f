// What a volume tells.
ghost use Rattle.std.specs.Prelude.{◌≡◌, if◌then◌else◌};
ghost use Rattle.volume.specs.Letter.{letter_of};

/// Bytes of a buffer for a name: at most 127, and a zero.
pub const NAME_SIZE: usize = 128;

/// The most bytes that are fetched for a header: its four words, and the longest name with its zero.
pub const HEADER_SIZE: usize = 16 + NAME_SIZE;

/// The size of the volume, and where its first header stands.
#[derive(Clone, Copy, PartialEq, Eq, Debug)]
pub struct Start {
    pub size: u32,
    pub root: u32,
}

/// What an entry is.
#[derive(Clone, Copy, PartialEq, Eq, Debug)]
pub enum Kind {
    HardLink,
    Directory,
    File,
    SymbolicLink,
    BlockDevice,
    CharDevice,
    Socket,
    Pipe,
}

impl Kind {
    /// The letter that stands for the kind, as in `ls -l`; a hard link's is `h`.
    pub fn letter(self) -> char
        ensures { result ≡ letter_of self }
    {
        match self {
            Kind::HardLink => 'h',
            Kind::Directory => 'd',
            Kind::File => '-',
            Kind::SymbolicLink => 'l',
            Kind::BlockDevice => 'b',
            Kind::CharDevice => 'c',
            Kind::Socket => 's',
            Kind::Pipe => 'p',
        }
    }
}

/// What a header tells of an entry beside its name.
#[derive(Clone, Copy, PartialEq, Eq, Debug)]
pub struct Entry {
    pub kind: Kind,
    pub executable: bool,
    pub size: u32,
}

impl Entry {
    /// `x` for what may be executed, else `-`.
    pub fn executable_letter(self) -> char
        ensures { result ≡ (if self.executable then 120 else 45) }
    {
        if self.executable { 'x' } else { '-' }
    }
}
