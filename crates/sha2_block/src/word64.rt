// Words of 64 bits.
ghost use Rattle.sha2_block.specs.Variant.{words64};
ghost use Rattle.std.proofs.Common.{inr, lit≤, refl};

use crate::bits::Bits;
use crate::word::Word;

impl Bits for u64 {
    ghost value = { λ x. x };

    ghost ands = { λ x y. (tt, λ r e. e) };

    ghost xors = { λ x y. (tt, λ r e. e) };
}

impl Word for u64 {
    ghost value = { λ x. x };

    ghost variant = { words64 };

    ghost bits = { inr refl };

    ghost turns = { (lit≤ tt, lit≤ tt, refl) };

    ghost constants = { refl };

    // What the trait asks of each word, a line each: these are the two types' own sizes and operations of std.
    fn size() -> usize {
        8
    }

    fn rounds() -> usize {
        80
    }

    fn plus(self, other: u64) -> u64 {
        self.wrapping_add(other)
    }

    // Σ and σ are the standard's lines, with this word's numbers. One text for both words would have the numbers
    // as constants, and laws that tie them to the variant.
    fn big_sigma0(self) -> u64 {
        self.rotate_right(28) ^ self.rotate_right(34) ^ self.rotate_right(39)
    }

    fn big_sigma1(self) -> u64 {
        // by 14, 18 and 41: each rotation goes on from the one inside it
        (self ^ (self ^ self.rotate_right(23)).rotate_right(4)).rotate_right(14)
    }

    fn small_sigma0(self) -> u64 {
        self.rotate_right(1) ^ self.rotate_right(8) ^ (self >> 7)
    }

    fn small_sigma1(self) -> u64 {
        self.rotate_right(19) ^ self.rotate_right(61) ^ (self >> 6)
    }

    // Equal to the standard's form below 2^64 alone, so one text would want that bound from each word, in place of
    // this. In the standard's form, as one text, it was slower.
    fn choice(self, y: u64, z: u64) -> u64 {
        z ^ (self & (y ^ z))
    }

    fn majority(self, y: u64, z: u64) -> u64 {
        self.most(y, z)
    }

    fn upper(k: u64) -> u64 {
        k
    }

    fn read(bytes: &[u8]) -> u64 {
        match bytes {
            [a, b, c, d, e, f, g, h, ..] => u64::from_be_bytes([*a, *b, *c, *d, *e, *f, *g, *h]),
            _ => 0,
        }
    }

    fn write(self, out: &mut [u8]) {
        if let Some(front) = out.first_chunk_mut() {
            *front = self.to_be_bytes();
        }
    }
}
