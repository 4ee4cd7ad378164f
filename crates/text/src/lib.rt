// Digest functions by name, numbers in decimal, and bytes in hexadecimal. Nothing here uses a heap.
#![tactic(auto)]

mod bytes;
mod decimal;
mod digits;
mod function;
mod hex_text;
mod laws;
#[cfg(test)]
mod tests;

pub use bytes::Bytes;
pub use decimal::{number, wide_number};
// for `with_digest`
pub use digest::{Sha256, Sha512};
pub use digits::Digits;
pub use function::{Function, UnknownFunction};
pub use hex_text::HexText;
pub use laws::{digits_stand, numbers_stand};
