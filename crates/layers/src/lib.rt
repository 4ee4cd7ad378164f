// The rules of the two layers, as programs of questions, what holds of them, and the interface of a store.
#![tactic(auto)]

mod fault;
mod laws;
mod store;

pub use fault::{Level, Place, StorageFault};
pub use laws::{answers_judged, cache_stands, honest_accepted, paths_stop};
pub use store::{RefusalBelow, Store};
