// The numbers of a tree, which agree with one another, and the label that tells them.
#![tactic(auto)]

mod geometry;
mod label;
mod spread;

pub use geometry::{BLOCK_LIMIT, Geometry};
pub use label::{Label, LabelFault, SALT_LIMIT};
