// What the block step asks of a word.
ghost use Rattle.std.specs.Prelude.{◌≡◌, ℕ, ◌/◌, ◌%◌, ◌≤◌, ◌⊎◌, ◌++◌, map, length, take, drop, if◌then◌else◌, nat_le};
ghost use Rattle.constants.specs.Rule.{round_constants};
ghost use Rattle.sha2_block.specs.Bytes.{big_endian, number};
ghost use Rattle.sha2_block.specs.Variant.{Variant, upper as upper_bits};
ghost use Rattle.sha2_block.specs.Words.{plus as sum, big_sigma0, big_sigma1, small_sigma0, small_sigma1, choice as chosen, majority as most};

pub trait Word: Copy {
    ghost value: { Self → ℕ };

    ghost variant: { Variant };

    // How many bytes a word has.
    fn size() -> usize
        ensures { result ≡ variant.bits / 8 };

    // How many rounds a block step has.
    fn rounds() -> usize
        ensures { result ≡ variant.rounds };

    fn plus(self, other: Self) -> Self
        ensures { value result ≡ sum variant (value self) (value other) };

    fn big_sigma0(self) -> Self
        ensures { value result ≡ big_sigma0 variant (value self) };

    fn big_sigma1(self) -> Self
        ensures { value result ≡ big_sigma1 variant (value self) };

    fn small_sigma0(self) -> Self
        ensures { value result ≡ small_sigma0 variant (value self) };

    fn small_sigma1(self) -> Self
        ensures { value result ≡ small_sigma1 variant (value self) };

    // The bits of `y` where this word has 1, else those of `z`.
    fn choice(self, y: Self, z: Self) -> Self
        ensures { value result ≡ chosen variant (value self) (value y) (value z) };

    fn majority(self, y: Self, z: Self) -> Self
        ensures { value result ≡ most (value self) (value y) (value z) };

    // The upper bits of a constant of 64 bits.
    fn upper(k: u64) -> Self
        ensures { value result ≡ upper_bits variant.bits k };

    // The word that the first bytes spell, or 0 where they are too few.
    fn read(bytes: &[u8]) -> Self
        ensures { value result ≡ (if nat_le (variant.bits / 8) (length bytes.now) then number (take (variant.bits / 8) bytes.now) else 0) };

    // Writes the word's bytes over the first ones of `out`, unless they are too few.
    fn write(self, out: &mut [u8])
        ensures { out.new ≡ (if nat_le (variant.bits / 8) (length out.old) then big_endian (variant.bits / 8) (value self) ++ drop (variant.bits / 8) out.old else out.old) };

    ghost bits: { (variant.bits ≡ 32) ⊎ (variant.bits ≡ 64) };

    ghost turns: { (16 ≤ variant.rounds) × (variant.rounds ≤ 80) × (variant.rounds % 16 ≡ 0) };

    ghost constants: { variant.constants ≡ map (upper_bits variant.bits) round_constants };
}
