// The command `check`: every data block, and every file of the card.
use crate::fault::Fault;
use crate::open_card::Card;
use calls::Refusal;
use device::{Area, Device};
use digest::Digest;
use layers::{Place, RefusalBelow, Store};
use mount::{Mount, MountOver};
use open_files::{ContentsFault, Listed, contents, entry_at};
use std::alloc::{AllocError, Global};
use std::collections::BTreeSet;
use std::fmt;
use text::with_digest;
use verity::Verity;
use volume::{Kind, PathFault, PathRule};

#[derive(Clone, Copy)]
struct Count {
    sound: u64,
    refused: u64,
}

const NONE: Count = Count {
    sound: 0,
    refused: 0,
};

impl Count {
    fn add(&mut self, sound: bool) {
        let more = if sound {
            &mut self.sound
        } else {
            &mut self.refused
        };
        *more = more.saturating_add(1);
    }
}

// What was found so far, and the blocks that were named, by level and number.
#[derive(Drop)]
struct Report {
    blocks: Count,
    files: Count,
    // Directories that could not be listed to their end.
    directories: Count,
    named: BTreeSet<(u8, u32)>,
}

impl Report {
    // Whether a fault is to be named: each block is named once.
    fn is_new(&mut self, place: Option<Place>) -> Result<bool, AllocError> {
        match place {
            Some(place) => Ok(self.named.insert((place.level.number(), place.block))?),
            None => Ok(true),
        }
    }

    fn is_sound(&self) -> bool {
        self.blocks.refused == 0 && self.files.refused == 0 && self.directories.refused == 0
    }
}

// A line of progress after so many blocks.
const STEP: u32 = 8192;

fn check_blocks<H: Digest + Drop>(
    rt: &HostRuntime,
    digest: H,
    card: &Card,
    report: &mut Report,
) -> Result<(), Fault> {
    let label = card.label.label();
    let mut check = Verity::new(digest, &label, card.areas.memory());
    let mut buf = vec![in rt.alloc(); 0u8; label.data_block as usize]?;
    for k in 0..label.blocks {
        if k % STEP == 0 {
            eprintln!(rt; "card: block {k} of {}", label.blocks)?;
        }
        let answer = check.ask(Area::Data, k, buf.as_mut_slice());
        report.blocks.add(answer.is_ok());
        if let Err(fault) = answer {
            if report.is_new(fault.place())? {
                eprintln!(rt; "card: {fault}")?;
            }
        }
    }
    Ok(())
}

// The directories that are still to be listed, and the mount that they are of.
#[derive(Drop)]
struct Walk<S: Store> {
    mount: MountOver<S>,
    left: Vec<Vec<u8>>,
}

// The path of an entry of a directory.
fn join(heap: Global, directory: &[u8], name: &[u8]) -> Result<Vec<u8>, AllocError> {
    let mut path = directory.to_vec(heap)?;
    if !path.is_empty() {
        path.push(b'/')?;
    }
    path.extend_from_slice(name)?;
    Ok(path)
}

impl<S: Store> Walk<S>
where
    RefusalBelow<S>: fmt::Display,
{
    // Names what is refused at a path, unless its block was named before.
    fn refuse(
        &mut self,
        rt: &HostRuntime,
        report: &mut Report,
        path: &[u8],
        why: Refusal<S::Refusal>,
    ) -> Result<(), Fault> {
        if report.is_new(why.places().storage)? {
            let name = String::from_utf8_lossy(rt.alloc(), path)?;
            eprintln!(rt; "card: {name:?}: {why}")?;
        }
        Ok(())
    }

    // Reads a file. A link that leads to no file is none.
    fn check_file(
        &mut self,
        rt: &HostRuntime,
        report: &mut Report,
        path: &[u8],
    ) -> Result<(), Fault> {
        match contents(rt.alloc(), &mut self.mount, path) {
            Ok(_) => report.files.add(true),
            Err(ContentsFault::Refused(Refusal::Path(PathFault::Rule(_, PathRule::NotFile)))) => {}
            Err(ContentsFault::Refused(why)) => {
                report.files.add(false);
                self.refuse(rt, report, path, why)?;
            }
            Err(ContentsFault::Memory) => return Err(Fault::from(AllocError)),
        }
        Ok(())
    }

    fn check_entry(
        &mut self,
        rt: &HostRuntime,
        report: &mut Report,
        directory: &[u8],
        listed: &Listed,
    ) -> Result<(), Fault> {
        let path = join(rt.alloc(), directory, listed.name())?;
        match listed.entry.kind {
            Kind::Directory => self.left.push(path)?,
            Kind::File | Kind::HardLink => self.check_file(rt, report, path.as_slice())?,
            _ => {}
        }
        Ok(())
    }

    fn check_directory(
        &mut self,
        rt: &HostRuntime,
        report: &mut Report,
        path: &[u8],
    ) -> Result<(), Fault> {
        for index in 0..usize::MAX {
            match entry_at(&mut self.mount, path, index) {
                Ok(Some(listed)) => self.check_entry(rt, report, path, &listed)?,
                Ok(None) => break,
                Err(why) => {
                    report.directories.add(false);
                    return self.refuse(rt, report, path, why);
                }
            }
        }
        report.directories.add(true);
        Ok(())
    }
}

fn check_files<H: Digest + Drop>(
    rt: &HostRuntime,
    digest: H,
    card: &Card,
    report: &mut Report,
) -> Result<(), Fault> {
    let mut walk = Walk {
        mount: Mount::new(digest, &card.label.label(), card.areas.memory()),
        left: vec![in rt.alloc(); Vec::new(rt.alloc())]?,
    };
    if let Err(why) = walk.mount.begin() {
        report.directories.add(false);
        return walk.refuse(rt, report, b"", why);
    }
    for _ in 0..u64::MAX {
        let Some(path) = walk.left.pop() else {
            break;
        };
        walk.check_directory(rt, report, path.as_slice())?;
    }
    Ok(())
}

fn check<H: Digest + Drop + Copy>(
    rt: &HostRuntime,
    digest: H,
    card: &Card,
) -> Result<Report, Fault> {
    let mut report = Report {
        blocks: NONE,
        files: NONE,
        directories: NONE,
        named: BTreeSet::new(rt.alloc()),
    };
    check_blocks(rt, digest, card, &mut report)?;
    check_files(rt, digest, card, &mut report)?;
    Ok(report)
}

pub fn check_card(rt: &HostRuntime, card: &Card) -> Result<(), Fault> {
    let report = with_digest!(card.label.function(), digest => check(rt, digest, card)?);
    println!(rt;
        "blocks: {} sound, {} refused",
        report.blocks.sound, report.blocks.refused
    )?;
    println!(rt;
        "directories: {} listed, {} refused",
        report.directories.sound, report.directories.refused
    )?;
    println!(rt;
        "files: {} read, {} refused",
        report.files.sound, report.files.refused
    )?;
    if report.is_sound() {
        Ok(())
    } else {
        Err(Fault::Unsound)
    }
}
