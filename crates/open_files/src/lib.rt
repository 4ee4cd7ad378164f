// A mount with its open files, each told by a number.
#![tactic(auto)]

mod faults;
mod files;
mod own;
mod reading;

pub use faults::{FileFault, NotOpen, OpenFault, Opened};
pub use files::OpenFiles;
pub use reading::{ContentsFault, Listed, contents, entry_at};
