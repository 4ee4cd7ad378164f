// Memory, tape, a device that changes from one memory to another, and one that counts the questions that the device below gets.
#![tactic(auto)]

mod counting;
mod fault;
mod memory;
mod tape;
mod turning;

pub use counting::Counting;
pub use fault::{Outside, Spent};
pub use memory::Memory;
pub use tape::Tape;
pub use turning::Turning;
