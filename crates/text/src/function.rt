// The digest functions that a program can name.
//
// A further one is a variant of `Function`, its place in `Function::all` and a line of `with_digest`; the check fails
// where one of these is missing.
ghost use Rattle.std.specs.Prelude.{◌≡◌, Some, codes};
ghost use Rattle.std.specs.Result.{result_ok};
ghost use Rattle.text.specs.Name.{name_of, named};
ghost use Rattle.text.specs.Sum.{digest_within, given};

use crate::bytes::Bytes;
use digest::{Digest, Refusal};
use std::error::Error;
use std::fmt;
use std::str::FromStr;

/// A digest function.
#[derive(Clone, Copy, PartialEq, Eq, Debug)]
pub enum Function {
    Sha256,
    Sha512,
}

/// Gives the digest that a function names to what is generic over it, as `with_digest!(function, digest => read(digest, card))`.
/// In `with_digest!(function, digest, name => ..)` the function's own name stands beside it.
#[macro_export]
macro_rules! with_digest {
    ($function:expr, $digest:ident => $call:expr) => {
        $crate::with_digest!($function, $digest, _name => $call)
    };
    ($function:expr, $digest:ident, $name:ident => $call:expr) => {
        match $function {
            $crate::Function::Sha256 => { let ($digest, $name) = ($crate::Sha256, "sha256"); $call }
            $crate::Function::Sha512 => { let ($digest, $name) = ($crate::Sha512, "sha512"); $call }
        }
    };
}

impl Function {
    ghost use Rattle.std.specs.Prelude.{◌≡◌, ◌-◌, Some, slice_get};
    ghost use Rattle.text.specs.Name.{functions, name_of, named};
    ghost use Rattle.text.specs.Sum.{given, digest_within, label_number, size_of, sum_of};

    /// Each function once, in the order of their numbers in a label.
    pub fn all() -> &'static [Function]
        ensures list { result.now ≡ functions }
        ensures order { (f : _) → slice_get result.now (label_number f - 1) ≡ Some f }
    {
        &[Function::Sha256, Function::Sha512]
    }

    /// The function's name, `sha256` or `sha512`.
    pub fn name(self) -> &'static str
        ensures { result.now ≡ name_of self }
    {
        with_digest!(self, _digest, name => name)
    }

    /// The function that has this very name.
    pub fn named(name: &[u8]) -> Option<Function>
        ensures { result ≡ named name.now }
    {
        Function::all()
            .iter()
            .copied()
            .find(|function| name == function.name().as_bytes())
    }

    /// How many bytes a digest has, 32 or 64.
    pub fn size(self) -> usize
        ensures { result ≡ size_of self }
    {
        with_digest!(self, digest => digest.output_len())
    }

    /// The function's number in a label, 1 or 2.
    pub fn label_number(self) -> u32
        ensures { result ≡ label_number self }
    {
        with_digest!(self, digest => digest.label_number())
    }

    /// The digest of `first` joined to `second`. Refused (3) exactly if the joined string has more than 4,352 bytes.
    pub fn sum(self, first: &[u8], second: &[u8]) -> Result<Bytes<64>, Refusal>
        ensures { given result ≡ digest_within (sum_of self) first.now second.now }
    {
        with_digest!(self, digest => digest_of(&digest, first, second))
    }
}

fn digest_of<D: Digest>(digest: &D, first: &[u8], second: &[u8]) -> Result<Bytes<64>, Refusal>
    ensures { given result ≡ digest_within D.meaning first.now second.now }
{
    let len = digest.output_len();
    let mut buffer = [0; 64];
    digest.digest(first, second, &mut buffer[..len])?;
    Ok(Bytes { buffer, len })
}

impl fmt::Display for Function {
    ghost output = { λ function. Some (name_of function) };

    fn fmt<W: fmt::Write>(&self, f: &mut fmt::Formatter<W>) -> fmt::Result {
        f.write_str(self.name())
    }
}

/// The text names no function.
#[derive(Clone, Copy, PartialEq, Eq, Debug)]
pub struct UnknownFunction;

impl fmt::Display for UnknownFunction {
    ghost output = { λ unknown. Some (codes "unknown digest function") };

    fn fmt<W: fmt::Write>(&self, f: &mut fmt::Formatter<W>) -> fmt::Result {
        write!(f, "unknown digest function")
    }
}

impl Error for UnknownFunction {}

impl FromStr for Function {
    type Err = UnknownFunction;

    ghost from_str_gives = { λ text r. result_ok r ≡ named text };

    fn from_str(text: &str) -> Result<Function, UnknownFunction> {
        Function::named(text.as_bytes()).ok_or(UnknownFunction)
    }
}
