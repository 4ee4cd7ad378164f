// The path check over any device.
#![tactic(auto)]

mod anchor;
mod verity;

pub use verity::Verity;
