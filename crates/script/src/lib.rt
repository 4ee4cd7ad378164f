// A script of calls, a line each, and the lines that answer it.
#![tactic(auto)]

mod bottom;
mod call;
mod code;
mod name;
mod reply;
#[cfg(test)]
mod tests;

pub use bottom::{Bottom, BottomRefusal};
pub use call::{Call, PathWord};
pub use code::Code;
pub use name::Name;
pub use reply::Reply;
