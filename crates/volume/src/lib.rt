// The rules of a romfs volume.
#![tactic(auto)]

mod fault;
mod laws;
mod types;

pub use fault::{PathFault, PathRule, VolumeFault, VolumeRule};
pub use laws::steps_suffice;
pub use types::{Entry, HEADER_SIZE, Kind, NAME_SIZE, Start};
