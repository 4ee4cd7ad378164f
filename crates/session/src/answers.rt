// Each line of a script is put to the mount, and answered by a line.
use hex::FromHexError;
use layers::{RefusalBelow, Store};
use open_files::{FileFault, NotOpen, OpenFault, OpenFiles};
use script::{BottomRefusal, Call, Name, PathWord, Reply};
use std::alloc::{AllocError, Global};
use std::io::{BufRead, BufReader};
use std::{io, str};

// A longer buffer is not made.
const BUFFER_LIMIT: usize = 268435456;

// A script's runtime, and the mount that it calls.
pub struct Session<'a, S: Store> {
    pub rt: &'a HostRuntime,
    pub files: OpenFiles<S>,
}

// A buffer for a call, if there is memory for it.
fn buffer(heap: Global, length: usize) -> Option<Vec<u8>> {
    if length > BUFFER_LIMIT {
        return None;
    }
    vec![in heap; 0u8; length].ok()
}

// The bytes of a path.
fn path_bytes(heap: Global, path: PathWord<'_>) -> Result<Vec<u8>, AllocError> {
    match path {
        PathWord::Plain(bytes) => bytes.to_vec(heap),
        // the digits are pairs
        PathWord::Hex(digits) => match hex::decode(heap, digits.text()) {
            Err(FromHexError::OutOfMemory) => Err(AllocError),
            found => Ok(found.unwrap_or(Vec::new(heap))),
        },
    }
}

impl<S: Store> Session<'_, S>
where
    RefusalBelow<S>: BottomRefusal,
{
    // Prints the line of a reply.
    fn say(&self, reply: &Reply<'_, RefusalBelow<S>>) -> io::Result<()> {
        println!(self.rt; "{reply}")
    }

    fn begin(&mut self) -> io::Result<()> {
        match self.files.begin() {
            Ok(start) => self.say(&Reply::Begun(start)),
            Err(refusal) => self.say(&Reply::Refused {
                call: Name::Begin,
                refusal,
                buf: None,
            }),
        }
    }

    fn open(&mut self, path: PathWord<'_>) -> io::Result<()> {
        let path = path_bytes(self.rt.alloc(), path)?;
        match self.files.open(path.as_slice()) {
            Ok(opened) => self.say(&Reply::Opened {
                handle: opened.number,
                start: opened.start,
                size: opened.size,
            }),
            Err(OpenFault::Refused(refusal)) => self.say(&Reply::Refused {
                call: Name::Open,
                refusal,
                buf: None,
            }),
            Err(OpenFault::Memory) => self.say(&Reply::NoMemory { call: Name::Open }),
        }
    }

    // What a call on a file was refused for.
    fn refuse(
        &self,
        call: Name,
        handle: usize,
        fault: FileFault<RefusalBelow<S>>,
        buf: &[u8],
    ) -> io::Result<()> {
        match fault {
            FileFault::NotOpen => self.say(&Reply::NoHandle { call, handle }),
            FileFault::Refused(refusal) => self.say(&Reply::Refused {
                call,
                refusal,
                buf: Some(buf),
            }),
        }
    }

    fn read(&mut self, handle: usize, offset: usize, length: usize) -> io::Result<()> {
        let Some(mut buf) = buffer(self.rt.alloc(), length) else {
            return self.say(&Reply::NoMemory { call: Name::Read });
        };
        let answer = self.files.read(handle, offset, buf.as_mut_slice());
        let buf = buf.as_slice();
        match answer {
            Ok(count) => self.say(&Reply::Read { count, buf }),
            Err(fault) => self.refuse(Name::Read, handle, fault, buf),
        }
    }

    fn whole(&mut self, handle: usize, length: usize) -> io::Result<()> {
        let Some(mut buf) = buffer(self.rt.alloc(), length) else {
            return self.say(&Reply::NoMemory { call: Name::Whole });
        };
        let answer = self.files.whole(handle, buf.as_mut_slice());
        let buf = buf.as_slice();
        match answer {
            Ok(()) => self.say(&Reply::Whole { buf }),
            Err(fault) => self.refuse(Name::Whole, handle, fault, buf),
        }
    }

    fn list(&mut self, index: usize, length: usize, path: PathWord<'_>) -> io::Result<()> {
        let Some(mut buf) = buffer(self.rt.alloc(), length) else {
            return self.say(&Reply::NoMemory { call: Name::List });
        };
        let path = path_bytes(self.rt.alloc(), path)?;
        let answer = self.files.list(path.as_slice(), index, buf.as_mut_slice());
        let buf = buf.as_slice();
        match answer {
            Ok(entry) => self.say(&Reply::Listed { entry, buf }),
            Err(refusal) => self.say(&Reply::Refused {
                call: Name::List,
                refusal,
                buf: Some(buf),
            }),
        }
    }

    fn close(&mut self, handle: usize) -> io::Result<()> {
        match self.files.close(handle) {
            Ok(()) => self.say(&Reply::Closed),
            Err(NotOpen) => self.say(&Reply::NoHandle {
                call: Name::Close,
                handle,
            }),
        }
    }

    fn answer(&mut self, line: &str) -> io::Result<()> {
        match Call::parse(line) {
            None => self.say(&Reply::Unknown(line)),
            Some(Call::Begin) => self.begin(),
            Some(Call::Open { path }) => self.open(path),
            Some(
                Call::Read {
                    handle,
                    offset,
                    length,
                },
            ) => self.read(handle, offset, length),
            Some(Call::Whole { handle, length }) => self.whole(handle, length),
            Some(
                Call::List {
                    index,
                    length,
                    path,
                },
            ) => self.list(index, length, path),
            Some(Call::Close { handle }) => self.close(handle),
        }
    }

    // Answers the lines of standard input, to its end.
    pub fn answer_all(&mut self) -> io::Result<()> {
        let heap = self.rt.alloc();
        let mut lines = BufReader::new(heap, self.rt.reader())?;
        let mut line = Vec::new(heap);
        for _ in 0..u64::MAX {
            line.clear();
            if lines.read_until(b'\n', &mut line)? == 0 {
                break;
            }
            let bytes = line.as_slice();
            match str::from_utf8(bytes.strip_suffix(b"\n").unwrap_or(bytes)) {
                Ok(text) => self.answer(text)?,
                Err(_) => self.say(&Reply::Unknown("not UTF-8"))?,
            }
        }
        Ok(())
    }
}
