// The digests: the interface, SHA-256 and SHA-512.
#![tactic(auto)]

mod answer;
mod hash;
mod laws;
mod message;
mod padded;
mod refusal;
mod sha;

pub use laws::{padding_stands, split_stands};
pub use message::LIMIT;
pub use refusal::Refusal;
pub use sha::{Digest, Sha256, Sha512};
