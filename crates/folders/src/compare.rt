// The card against what is expected of it.
use crate::card::Card;
use crate::expected::Expected;
use crate::walk::find_all;
use anyhow::{Context, anyhow, ensure};
use digest::Digest;
use layers::{RefusalBelow, Store};
use mount::{Mount, MountOver};
use open_files::{ContentsFault, contents};
use sha2::{Digest as Hasher, Sha256};
use std::alloc::Global;
use std::fmt;
use volume::{Kind, PathRule};

// By the kit's library, which takes a message of any length.
fn sha256_of(bytes: &[u8]) -> [u8; 32] {
    let mut hasher = Sha256::new();
    hasher.update(bytes);
    hasher.finalize()
}

// That the path leads to something else than a file.
fn is_no_file<R>(why: &ContentsFault<R>) -> bool {
    match why {
        ContentsFault::Refused(refusal) => refusal.number() == PathRule::NotFile.number(),
        ContentsFault::Memory => false,
    }
}

// The contents of a file; and that everything else is no file.
fn compare_contents<S: Store>(
    heap: Global,
    mount: &mut MountOver<S>,
    expected: &Expected<'_>,
) -> anyhow::Result<()>
where
    RefusalBelow<S>: fmt::Display,
{
    let path = expected.path;
    match contents(heap, mount, path.as_bytes()) {
        Ok(bytes) => {
            let digest = hex::encode(heap, sha256_of(bytes.as_slice()).as_slice())?;
            ensure!(
                expected.is_file(bytes.len(), digest.as_str()),
                "another file: {path}"
            );
        }
        Err(why) => {
            let right = is_no_file(&why) && expected.kind != Kind::File;
            ensure!(right, "{path}: {why}");
        }
    }
    Ok(())
}

pub fn compare_all<H: Digest + Drop>(
    rt: &HostRuntime,
    digest: H,
    card: &Card,
) -> anyhow::Result<()> {
    let heap = rt.alloc();
    let mut mount = Mount::new(digest, &card.label.label(), card.memory());
    let start = mount.begin().map_err(|why| anyhow!("{why}"))?;
    let mut found = find_all(heap, &mut mount)?;
    let mut files = 0u32;
    let mut others = 0u32;
    for line in card.expected.as_str().lines() {
        if line.starts_with('#') {
            continue;
        }
        let expected = Expected::parse(line)?;
        let entry = found
            .entries
            .remove(expected.path.as_bytes())
            .context(line)?;
        expected.check(&entry)?;
        compare_contents(heap, &mut mount, &expected)?;
        let more = if expected.kind == Kind::File {
            &mut files
        } else {
            &mut others
        };
        *more = more.saturating_add(1);
    }
    ensure!(
        found.entries.is_empty(),
        "{}: an entry that is not expected",
        card.name
    );
    println!(rt;
        "{}: a volume of {} bytes; {files} files and {others} other entries are the folder's",
        card.name, start.size
    )?;
    Ok(())
}
