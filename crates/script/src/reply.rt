// The lines that answer a script.
ghost use Rattle.std.specs.Prelude.{Some};
ghost use Rattle.std.specs.Fmt.{WritesOnOk};
ghost use Rattle.script.specs.Reply.{listed_text, reply_text};

use crate::bottom::BottomRefusal;
use crate::code::Code;
use crate::name::Name;
use calls::CallRefusal;
use std::fmt;
use text::Digits;
use volume::{Entry, Start};

/// What a line of a script came to. A buffer is shown whole, after a refusal too.
#[derive(Clone, Copy)]
pub enum Reply<'a, R> {
    Begun(Start),
    Opened {
        handle: usize,
        start: u32,
        size: u32,
    },
    Read {
        count: usize,
        buf: &'a [u8],
    },
    Whole {
        buf: &'a [u8],
    },
    Listed {
        entry: Entry,
        buf: &'a [u8],
    },
    Closed,
    Refused {
        call: Name,
        refusal: CallRefusal<R>,
        buf: Option<&'a [u8]>,
    },
    /// The handle is spent, or never was.
    NoHandle {
        call: Name,
        handle: usize,
    },
    /// There is no memory for the buffer.
    NoMemory {
        call: Name,
    },
    /// The line asks for no call.
    Unknown(&'a str),
}

impl<R: BottomRefusal> fmt::Display for Reply<'_, R> {
    ghost output = { λ reply. Some (reply_text R.bottom reply) };

    fn fmt<W: fmt::Write>(&self, f: &mut fmt::Formatter<W>) -> fmt::Result {
        match self {
            Reply::Begun(start) => write!(f, "begin ok {} {}", start.size, start.root),
            Reply::Opened {
                handle,
                start,
                size,
            } => write!(f, "open ok {handle} {start} {size}"),
            Reply::Read { count, buf } => write!(f, "read ok {count} {}", Digits(buf)),
            Reply::Whole { buf } => write!(f, "whole ok {}", Digits(buf)),
            Reply::Listed { entry, buf } => write_entry(f, entry, buf),
            Reply::Closed => write!(f, "close ok"),
            Reply::Refused { call, refusal, buf } => match buf {
                Some(buf) => write!(f, "{call} refused {} buf {}", Code(refusal), Digits(buf)),
                None => write!(f, "{call} refused {}", Code(refusal)),
            },
            Reply::NoHandle { call, handle } => write!(f, "{call} no handle {handle}"),
            Reply::NoMemory { call } => write!(f, "{call} no memory"),
            Reply::Unknown(line) => write!(f, "unknown line: {line}"),
        }
    }
}

fn write_entry<W: fmt::Write>(f: &mut fmt::Formatter<W>, entry: &Entry, buf: &[u8]) -> fmt::Result
    ensures { WritesOnOk W.write_str_gives f.old result (listed_text entry.now buf.now) f.new }
{
    let kind = entry.kind.letter();
    let executable = entry.executable_letter();
    let size = entry.size;
    write!(f, "list ok {kind} {executable} {size} {}", Digits(buf))
}
