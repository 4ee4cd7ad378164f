// A cache of four rows over any device.
#![tactic(auto)]

mod cache;
mod row;
mod rows;

pub use cache::Cache;
