// The interface of a digest, and the two that the standard gives.
ghost use Rattle.std.specs.Prelude.{◌≡◌, ℕ, ◌⊎◌, List, length};
ghost use Rattle.digest.specs.Answer.{answer as answer_of, written};
ghost use Rattle.digest.specs.Hash.{sha256, sha512, hash, state_bytes};
ghost use Rattle.std.proofs.Common.{inl, inr, refl};

use crate::answer::answer;
use crate::refusal::Refusal;

/// A digest: one fixed function from a string to `LEN` bytes, asked by the two parts of the string.
pub trait Digest {
    /// Bytes of a digest, 32 or 64.
    const LEN: usize;

    /// The number by which a label names the function.
    const NUMBER: u32;

    ghost LEN: { ℕ };

    ghost NUMBER: { ℕ };

    ghost meaning: { List ℕ → List ℕ };

    /// Bytes of a digest.
    final fn output_len(&self) -> usize
        ensures { result ≡ LEN }
    {
        Self::LEN
    }

    /// The number by which a label names the function.
    final fn label_number(&self) -> u32
        ensures { result ≡ NUMBER }
    {
        Self::NUMBER
    }

    /// Writes the digest of `first` joined to `second` into `out`. Refused (3) exactly if `out` has not `LEN` bytes or the
    /// joined string is longer than `LIMIT`; then `out` is all zeros.
    fn digest(&self, first: &[u8], second: &[u8], out: &mut [u8]) -> Result<(), Refusal>
        ensures answer { result ≡ answer_of LEN first.now second.now out.old }
        ensures bytes { out.new ≡ written LEN meaning first.now second.now out.old };

    ghost sizes: { (LEN ≡ 32) ⊎ (LEN ≡ 64) };

    ghost lengths: { (m : List ℕ) → length (meaning m) ≡ LEN };
}

/// SHA-256 of FIPS 180-4.
#[derive(Clone, Copy)]
pub struct Sha256;

impl Digest for Sha256 {
    const LEN: usize = 32;

    const NUMBER: u32 = 1;

    ghost LEN = { 32 };

    ghost NUMBER = { 1 };

    ghost meaning = { sha256 };

    ghost sizes = { inl refl };

    ghost lengths = { unfold sha256 hash state_bytes in λ m. refl };

    #[tactic(auto, unfolding(crate::specs::Hash::sha256))]
    fn digest(&self, first: &[u8], second: &[u8], out: &mut [u8]) -> Result<(), Refusal> {
        answer::<u32>(Self::LEN, first, second, out)
    }
}

/// SHA-512 of FIPS 180-4.
#[derive(Clone, Copy)]
pub struct Sha512;

impl Digest for Sha512 {
    const LEN: usize = 64;

    const NUMBER: u32 = 2;

    ghost LEN = { 64 };

    ghost NUMBER = { 2 };

    ghost meaning = { sha512 };

    ghost sizes = { inr refl };

    ghost lengths = { unfold sha512 hash state_bytes in λ m. refl };

    #[tactic(auto, unfolding(crate::specs::Hash::sha512))]
    fn digest(&self, first: &[u8], second: &[u8], out: &mut [u8]) -> Result<(), Refusal> {
        answer::<u64>(Self::LEN, first, second, out)
    }
}
