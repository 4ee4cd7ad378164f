// A label's file: read into a label or a fault, and printed as it is read.
#![tactic(auto)]

mod fault;
mod key;
mod label;
mod laws;
mod line;
mod lines;
mod print;
#[cfg(test)]
mod tests;
mod values;

pub use fault::Fault;
pub use key::Key;
pub use label::LabelText;
pub use laws::{label_reads, printed_reads};
