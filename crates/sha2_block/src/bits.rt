// The standard's functions on words that are one text for every word with `&` and `^`.
ghost use Rattle.std.specs.Prelude.{◌≡◌, ℕ, bit_and, bit_xor};
ghost use Rattle.sha2_block.specs.Words.{majority as most};

use std::ops::{BitAnd, BitXor};

// What has `&` and `^` of its bits. A `Word` need not: a caller's own may give its functions otherwise.
pub(crate) trait Bits: Copy + BitAnd<Self, Output = Self> + BitXor<Self, Output = Self> {
    ghost value: { Self → ℕ };

    ghost ands: { (x y : Self) → Self.can_bitand x y × ((r : Self) → Self.bitand_gives x y r → value r ≡ bit_and (value x) (value y)) };

    ghost xors: { (x y : Self) → Self.can_bitxor x y × ((r : Self) → Self.bitxor_gives x y r → value r ≡ bit_xor (value x) (value y)) };

    final fn most(self, y: Self, z: Self) -> Self
        ensures { value result ≡ most (value self) (value y) (value z) }
    {
        y ^ ((self ^ y) & (y ^ z))
    }
}
