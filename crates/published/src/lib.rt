// An image that was built, its label, and what is read from a card by it.
#![tactic(auto)]

mod published;
mod read;

pub use published::Published;
