// Writing the tree and the root of an image.
#![tactic(auto)]

mod above;
mod base;
mod fault;
mod hash;
mod job;
mod make;
mod source;

pub use above::{above_stands, build_above};
pub use base::Base;
pub use fault::BuildFault;
pub use hash::{hash_blocks, parts_stand};
pub use make::build;
pub use source::Source;
