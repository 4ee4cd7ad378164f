// The command `ls`: a line for each entry of a directory.
use crate::fault::Fault;
use crate::open_card::Card;
use digest::Digest;
use mount::Mount;
use open_files::{Listed, entry_at};
use std::{io, str};
use text::with_digest;

fn print_entry(rt: &HostRuntime, listed: &Listed) -> io::Result<()> {
    let entry = listed.entry;
    let kind = entry.kind.letter();
    let executable = entry.executable_letter();
    // a name that the card gives is printable ASCII
    let name = str::from_utf8(listed.name()).unwrap_or("?");
    println!(rt; "{kind} {executable} {:>10} {name}", entry.size)
}

fn list<H: Digest + Drop>(
    rt: &HostRuntime,
    digest: H,
    card: &Card,
    path: &str,
) -> Result<(), Fault> {
    let mut mount = Mount::new(digest, &card.label.label(), card.areas.memory());
    mount.begin().map_err(Fault::Refused)?;
    for index in 0..usize::MAX {
        match entry_at(&mut mount, path.as_bytes(), index).map_err(Fault::Refused)? {
            Some(listed) => print_entry(rt, &listed)?,
            None => break,
        }
    }
    Ok(())
}

pub fn print_list(rt: &HostRuntime, card: &Card, path: &str) -> Result<(), Fault> {
    with_digest!(card.label.function(), digest => list(rt, digest, card, path))
}
