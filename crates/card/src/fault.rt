// Why the program ends with status 1.
use crate::build::NoTree;
use crate::command::Misuse;
use crate::open_card::NoCard;
use calls::CallRefusal;
use media::Outside;
use std::alloc::AllocError;
use std::io;
use thiserror::Error;

#[derive(Debug, Drop, Error)]
pub enum Fault {
    // The words of the command line make no command.
    #[error("{0}; 'card help' tells the usage")]
    Misuse(#[from] Misuse),
    #[error("some files have no sum")]
    Files,
    // The image has no tree.
    #[error(transparent)]
    Tree(#[from] NoTree),
    // The file is not what a card has.
    #[error("{0:?}: {1}")]
    Card(String, NoCard),
    // A call was refused.
    #[error("refused: {0}")]
    Refused(CallRefusal<Outside>),
    // Some block or file of a card was refused.
    #[error("the card is not sound")]
    Unsound,
    // A file could not be read or written. Its name is quoted, so that it stays on the line.
    #[error("{0:?}: {1}")]
    File(String, io::Error),
    // The arguments could not be read, or a line not written.
    #[error(transparent)]
    Io(#[from] io::Error),
    #[error("out of memory")]
    Memory(#[from(alloc)] AllocError),
}

impl Fault {
    // That it was this file that could not be read.
    pub fn of_file(self, name: String) -> Fault {
        match self {
            Fault::Io(error) => Fault::File(name, error),
            fault => fault,
        }
    }
}
