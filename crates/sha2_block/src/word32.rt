// Words of 32 bits.
ghost use Rattle.sha2_block.specs.Variant.{words32};
ghost use Rattle.std.proofs.Common.{inl, lit≤, refl};

use crate::bits::Bits;
use crate::word::Word;

impl Bits for u32 {
    ghost value = { λ x. x };

    ghost ands = { λ x y. (tt, λ r e. e) };

    ghost xors = { λ x y. (tt, λ r e. e) };
}

impl Word for u32 {
    ghost value = { λ x. x };

    ghost variant = { words32 };

    ghost bits = { inl refl };

    ghost turns = { (lit≤ tt, lit≤ tt, refl) };

    ghost constants = { refl };

    // What the trait asks of each word, a line each: these are the two types' own sizes and operations of std.
    fn size() -> usize {
        4
    }

    fn rounds() -> usize {
        64
    }

    fn plus(self, other: u32) -> u32 {
        self.wrapping_add(other)
    }

    // Σ and σ are the standard's lines, with this word's numbers. One text for both words would have the numbers
    // as constants, and laws that tie them to the variant.
    fn big_sigma0(self) -> u32 {
        self.rotate_right(2) ^ self.rotate_right(13) ^ self.rotate_right(22)
    }

    fn big_sigma1(self) -> u32 {
        // by 6, 11 and 25: each rotation goes on from the one inside it
        (self ^ (self ^ self.rotate_right(14)).rotate_right(5)).rotate_right(6)
    }

    fn small_sigma0(self) -> u32 {
        self.rotate_right(7) ^ self.rotate_right(18) ^ (self >> 3)
    }

    fn small_sigma1(self) -> u32 {
        self.rotate_right(17) ^ self.rotate_right(19) ^ (self >> 10)
    }

    // Equal to the standard's form below 2^32 alone, so one text would want that bound from each word, in place of
    // this. In the standard's form, as one text, it was slower.
    fn choice(self, y: u32, z: u32) -> u32 {
        z ^ (self & (y ^ z))
    }

    fn majority(self, y: u32, z: u32) -> u32 {
        self.most(y, z)
    }

    fn upper(k: u64) -> u32 {
        (k >> 32) as u32
    }

    fn read(bytes: &[u8]) -> u32 {
        match bytes {
            [a, b, c, d, ..] => u32::from_be_bytes([*a, *b, *c, *d]),
            _ => 0,
        }
    }

    fn write(self, out: &mut [u8]) {
        if let Some(front) = out.first_chunk_mut() {
            *front = self.to_be_bytes();
        }
    }
}
