// Files that are open.
ghost use Rattle.std.specs.Prelude.{◌≡◌, ◌<◌, ◌+◌, false, nat_lt};

use volume::Start;

/// A file that is open: where its data stand on the volume. Only `open` makes one, and it cannot be let go: it is handed to
/// `whole` or `close`.
#[derive(PartialEq, Eq, Debug)]
pub struct Handle {
    pub(crate) start: u32,
    pub(crate) size: u32,
}

impl Handle {
    /// The offset of its first byte on the volume.
    pub fn start(&self) -> u32
        ensures { result ≡ self.now.start }
    {
        self.start
    }

    /// How many bytes it has.
    pub fn size(&self) -> u32
        ensures { result ≡ self.now.size }
    {
        self.size
    }

    // Whether it reaches past the volume's end.
    pub(crate) fn is_outside(&self, start: &Start) -> bool
        ensures value { result ≡ nat_lt start.now.size (self.now.start + self.now.size) }
        ensures room { result ≡ false → self.now.start + self.now.size < 4294967296 }
    {
        u64::from(start.size) < u64::from(self.start) + u64::from(self.size)
    }

    // Ends it.
    pub(crate) fn spend(self) {
        let Handle { start: _, size: _ } = self;
    }
}
