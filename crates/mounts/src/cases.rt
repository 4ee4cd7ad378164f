// The cases, what is wanted of each, and what comes of it.
use crate::card::Card;
use crate::ending::end;
use crate::volume_bytes::{SUM, chain, volume_with};
use calls::CallRefusal;
use layers::Store;
use mount::MountOver;
use reader::Handle;
use std::fmt;

#[derive(Clone, Copy, PartialEq, Eq, Debug)]
pub enum Case {
    Begin,
    Open(&'static str),
    ReadAt(usize),
    BrokenSum,
    Chain(u8),
}

#[derive(Clone, Copy, PartialEq, Eq, Debug)]
pub enum Outcome {
    Started { size: u32, root: u32 },
    Opened { start: u32, size: u32 },
    Read { count: usize, buffer: [u8; 4] },
    Refused(u8),
}

impl Outcome {
    fn refused<R>(refusal: &CallRefusal<R>) -> Outcome {
        Outcome::Refused(refusal.number())
    }

    fn opened(handle: &Handle) -> Outcome {
        Outcome::Opened {
            start: handle.start(),
            size: handle.size(),
        }
    }
}

fn begin<S: Store>(mount: &mut MountOver<S>) -> Outcome {
    match mount.begin() {
        Ok(start) => Outcome::Started {
            size: start.size,
            root: start.root,
        },
        Err(refusal) => Outcome::refused(&refusal),
    }
}

fn open<S: Store>(mount: &mut MountOver<S>, path: &str) -> Outcome {
    let _ = begin(mount);
    match mount.open(path.as_bytes()) {
        Ok(handle) => {
            let outcome = Outcome::opened(&handle);
            end(mount, handle);
            outcome
        }
        Err(refusal) => Outcome::refused(&refusal),
    }
}

// Reads four bytes of `a` from an offset on.
fn read_at<S: Store>(mount: &mut MountOver<S>, offset: usize) -> Outcome {
    let _ = begin(mount);
    match mount.open(b"a") {
        Ok(handle) => {
            let mut buffer = [170; 4];
            let answer = mount.read(&handle, offset, &mut buffer);
            end(mount, handle);
            match answer {
                Ok(count) => Outcome::Read { count, buffer },
                Err(refusal) => Outcome::refused(&refusal),
            }
        }
        Err(refusal) => Outcome::refused(&refusal),
    }
}

impl Case {
    pub const ALL: [Case; 11] = [
        Case::Begin,
        Case::Open("a"),
        Case::ReadAt(1),
        Case::ReadAt(3),
        Case::ReadAt(4),
        Case::Open("A"),
        Case::Open("a/"),
        Case::Open("a/b"),
        Case::BrokenSum,
        Case::Chain(8),
        Case::Chain(9),
    ];

    pub fn run(self) -> anyhow::Result<Outcome> {
        let image = match self {
            Case::BrokenSum => volume_with(SUM + 1),
            Case::Chain(links) => chain(links),
            _ => volume_with(SUM),
        };
        let card = Card::of(image)?;
        let mut mount = card.mount();
        Ok(match self {
            Case::Begin | Case::BrokenSum => begin(&mut mount),
            Case::Open(path) => open(&mut mount, path),
            Case::ReadAt(f) => read_at(&mut mount, f),
            Case::Chain(_) => open(&mut mount, "a"),
        })
    }

    pub fn wanted(self) -> Outcome {
        match self {
            Case::Begin => Outcome::Started { size: 80, root: 32 },
            Case::Open("a") => Outcome::Opened { start: 64, size: 3 },
            Case::ReadAt(1) => Outcome::Read {
                count: 2,
                buffer: [0x67, 0x67, 0, 0],
            },
            Case::ReadAt(3) => Outcome::Read {
                count: 0,
                buffer: [0; 4],
            },
            Case::ReadAt(_) => Outcome::Refused(51),
            Case::Open("A") => Outcome::Refused(41),
            Case::Open("a/") => Outcome::Refused(40),
            Case::Open(_) => Outcome::Refused(42),
            Case::BrokenSum => Outcome::Refused(22),
            Case::Chain(8) => Outcome::Opened {
                start: 320,
                size: 0,
            },
            Case::Chain(_) => Outcome::Refused(36),
        }
    }
}

impl fmt::Display for Case {
    fn fmt<W: fmt::Write>(&self, f: &mut fmt::Formatter<W>) -> fmt::Result {
        match self {
            Case::Begin => write!(f, "begin"),
            Case::Open(path) => write!(f, "open {path}"),
            Case::ReadAt(offset) => write!(f, "read 4 bytes of a at {offset}"),
            Case::BrokenSum => write!(f, "begin, with the sum one higher"),
            Case::Chain(links) => write!(f, "open a, {links} links from its file"),
        }
    }
}

impl fmt::Display for Outcome {
    fn fmt<W: fmt::Write>(&self, f: &mut fmt::Formatter<W>) -> fmt::Result {
        match self {
            Outcome::Started { size, root } => write!(f, "size {size}, first header at {root}"),
            Outcome::Opened { start, size } => write!(f, "{size} bytes at {start}"),
            Outcome::Read { count, buffer } => write!(f, "{count} bytes, buffer {buffer:?}"),
            Outcome::Refused(number) => write!(f, "refused, {number}"),
        }
    }
}
