// The volume's rules over any device.
#![tactic(auto)]

mod block;
mod component;
mod fetch;
mod front;
mod handle;
mod header;
mod nth;
mod paths;
mod position;
mod reading;
mod romfs;
mod sought;
mod start;
mod state;
mod using;
mod walk;
mod words;

pub use handle::Handle;
pub use nth::Nth;
pub use position::Position;
pub use state::State;
