// A verified mount over any store, and the one over a cache over the path check over any device.
#![tactic(auto)]

mod cached;
mod mount;

pub use cached::Mount;
pub use mount::MountOver;
