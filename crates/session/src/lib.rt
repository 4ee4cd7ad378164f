// A script of calls over a mount: read from standard input, answered on standard output.
#![tactic(auto)]

mod answers;

pub use answers::Session;
