// Devices: what is asked of one, and what it answers.
#![tactic(auto)]

mod buffer;
mod device;
mod question;

pub use buffer::wipe;
pub use device::Device;
pub use question::{Area, Question};
