// The expected digests: a line for each digest and message, as `sha256 abc ba78..`.
use crate::message::Message;
use std::alloc::{AllocError, Global};
use std::{fmt, fs, io};
use text::{Digits, Function};

#[derive(Drop)]
pub struct Expected {
    text: String,
}

// Two words to print, and so no `bool`.
#[derive(Clone, Copy)]
pub enum Verdict {
    Right,
    Wrong,
}

impl Expected {
    pub fn read(rt: &HostRuntime) -> io::Result<Expected> {
        let text = fs::read_to_string(rt, "expected.txt")?;
        Ok(Expected { text })
    }

    // Right, if the file has exactly this digest for the message.
    pub fn verdict(
        &self,
        heap: Global,
        function: Function,
        message: Message,
        found: Digits<'_>,
    ) -> Result<Verdict, AllocError> {
        let wanted = format!(in heap; "{function} {message} {found}")?;
        let is_there = self.text.lines().any(|line| line == wanted.as_str());
        Ok(if is_there {
            Verdict::Right
        } else {
            Verdict::Wrong
        })
    }
}

impl fmt::Display for Verdict {
    fn fmt<W: fmt::Write>(&self, f: &mut fmt::Formatter<W>) -> fmt::Result {
        match self {
            Verdict::Right => write!(f, "ok"),
            Verdict::Wrong => write!(f, "WRONG"),
        }
    }
}
