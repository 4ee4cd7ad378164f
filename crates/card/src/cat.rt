// The command `cat`: a file's bytes, if all of them are verified.
use crate::fault::Fault;
use crate::open_card::Card;
use digest::Digest;
use mount::Mount;
use open_files::{ContentsFault, contents};
use std::alloc::AllocError;
use std::io;
use std::io::Write;
use text::with_digest;

// The whole file, before any byte of it is printed.
fn read<H: Digest + Drop>(
    rt: &HostRuntime,
    digest: H,
    card: &Card,
    path: &str,
) -> Result<Vec<u8>, Fault> {
    let mut mount = Mount::new(digest, &card.label.label(), card.areas.memory());
    mount.begin().map_err(Fault::Refused)?;
    match contents(rt.alloc(), &mut mount, path.as_bytes()) {
        Ok(bytes) => Ok(bytes),
        Err(ContentsFault::Refused(fault)) => Err(Fault::Refused(fault)),
        Err(ContentsFault::Memory) => Err(Fault::Memory(AllocError)),
    }
}

pub fn print_file(rt: &HostRuntime, card: &Card, path: &str) -> Result<(), Fault> {
    let bytes = with_digest!(card.label.function(), digest => read(rt, digest, card, path)?);
    let mut out = io::writer(rt);
    out.write_all(bytes.as_slice())?;
    out.flush()?;
    Ok(())
}
