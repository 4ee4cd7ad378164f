// The hash tree over an image.
#![tactic(auto)]

mod laws;

pub use laws::{levels_stand, paths_stand, places_stand, slots_stand, tree_binds};
