// What an open tells, and why a call on an open file has no answer.
ghost use Rattle.open_files.specs.Sentence.{file_fault_text, open_fault_text};

use calls::CallRefusal;
use std::fmt;

/// What an accepted open tells: the file's number, the offset of its first byte, and how many bytes it has.
#[derive(Clone, Copy, PartialEq, Eq, Debug)]
pub struct Opened {
    pub number: usize,
    pub start: u32,
    pub size: u32,
}

/// Why no file was opened.
#[derive(Debug, Drop)]
pub enum OpenFault<R> {
    /// The mount's refusal.
    Refused(CallRefusal<R>),
    /// There is no memory to keep one more file; the mount was not called.
    Memory,
}

impl<R: fmt::Display> fmt::Display for OpenFault<R> {
    ghost output = { λ fault. open_fault_text R.output fault };

    fn fmt<W: fmt::Write>(&self, f: &mut fmt::Formatter<W>) -> fmt::Result {
        match self {
            OpenFault::Refused(refusal) => write!(f, "{refusal}"),
            OpenFault::Memory => write!(f, "out of memory"),
        }
    }
}

/// No file of this number is open; the mount was not called.
#[derive(Clone, Copy, PartialEq, Eq, Debug)]
pub struct NotOpen;

/// Why a call on an open file was not answered.
#[derive(Debug, Drop)]
pub enum FileFault<R> {
    /// The mount's refusal.
    Refused(CallRefusal<R>),
    /// No file of this number is open; the mount was not called.
    NotOpen,
}

impl<R: fmt::Display> fmt::Display for FileFault<R> {
    ghost output = { λ fault. file_fault_text R.output fault };

    fn fmt<W: fmt::Write>(&self, f: &mut fmt::Formatter<W>) -> fmt::Result {
        match self {
            FileFault::Refused(refusal) => write!(f, "{refusal}"),
            FileFault::NotOpen => write!(f, "no such file is open"),
        }
    }
}
