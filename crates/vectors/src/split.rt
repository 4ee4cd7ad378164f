// Where a message is split between the two arguments of a digest.
ghost use Rattle.std.specs.Prelude.{◌≡◌, ◌++◌};

#[derive(Clone, Copy)]
pub enum Split {
    Start,
    Middle,
    LastByte,
    End,
}

impl Split {
    pub const ALL: [Split; 4] = [Split::Start, Split::Middle, Split::LastByte, Split::End];

    // The bytes before the split, and those after it.
    pub fn parts(self, bytes: &[u8]) -> (&[u8], &[u8])
        ensures { result.0.now ++ result.1.now ≡ bytes.now }
    {
        let len = bytes.len();
        let at = match self {
            Split::Start => 0,
            Split::Middle => len / 2,
            Split::LastByte => len.saturating_sub(1),
            Split::End => len,
        };
        bytes.split_at(at)
    }
}
