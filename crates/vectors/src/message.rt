// The messages that are hashed.
ghost use Rattle.std.specs.Prelude.{◌≡◌, ◌+◌, ◌*◌, ◌%◌, IfOk, map};
ghost use Rattle.std.specs.List.{range_with_len};

use std::alloc::{AllocError, Global};
use std::fmt;

const BITS_448: &[u8] = b"abcdbcdecdefdefgefghfghighijhijkijkljklmklmnlmnomnopnopq";

const BITS_896: &[u8] =
    b"abcdefghbcdefghicdefghijdefghijkefghijklfghijklmghijklmnhijklmnoijklmnopjklmnopqklmnopqrlmnopqrsmnopqrstnopqrstu";

#[derive(Clone, Copy)]
pub enum Message {
    Empty,
    Abc,
    Bits448,
    Bits896,
    // So many bytes, of which byte i is (7 i + 3) mod 251.
    Pattern(usize),
}

impl Message {
    // The examples of the standard, then the lengths at the ends of a block, of the padding and of the limit.
    pub const ALL: [Message; 19] = [
        Message::Empty,
        Message::Abc,
        Message::Bits448,
        Message::Bits896,
        Message::Pattern(0),
        Message::Pattern(1),
        Message::Pattern(55),
        Message::Pattern(56),
        Message::Pattern(63),
        Message::Pattern(64),
        Message::Pattern(65),
        Message::Pattern(111),
        Message::Pattern(112),
        Message::Pattern(119),
        Message::Pattern(127),
        Message::Pattern(128),
        Message::Pattern(129),
        Message::Pattern(4351),
        Message::Pattern(4352),
    ];

    pub fn bytes(self, heap: Global) -> Result<Vec<u8>, AllocError> {
        match self {
            Message::Empty => Ok(Vec::new(heap)),
            Message::Abc => b"abc".to_vec(heap),
            Message::Bits448 => BITS_448.to_vec(heap),
            Message::Bits896 => BITS_896.to_vec(heap),
            Message::Pattern(len) => pattern(heap, len),
        }
    }
}

pub fn pattern(heap: Global, len: usize) -> Result<Vec<u8>, AllocError>
    ensures { IfOk result (λ bytes. bytes.items ≡ map (λ i. (7 * (i % 251) + 3) % 251) (range_with_len 0 len)) }
{
    (0..len).map(pattern_byte).collect(heap)
}

// (7 i + 3) mod 251, for an `i` of any size.
fn pattern_byte(i: usize) -> u8
    ensures { result ≡ (7 * (i % 251) + 3) % 251 }
{
    ((7 * (i % 251) + 3) % 251) as u8
}

impl fmt::Display for Message {
    fn fmt<W: fmt::Write>(&self, f: &mut fmt::Formatter<W>) -> fmt::Result {
        match self {
            Message::Empty => write!(f, "empty"),
            Message::Abc => write!(f, "abc"),
            Message::Bits448 => write!(f, "448-bit"),
            Message::Bits896 => write!(f, "896-bit"),
            Message::Pattern(len) => write!(f, "pattern-{len}"),
        }
    }
}
