// SHA-2's words and block step, one text for words of 32 and of 64 bits.
#![tactic(auto)]

mod bits;
mod block;
mod word;
mod word32;
mod word64;

pub use block::{State, Words, compress, schedule_stands};
pub use word::Word;
