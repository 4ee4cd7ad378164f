// A line that tells what an entry is: path, kind, executable bit, size and the contents' digest, with tabs between.
use anyhow::{Context, bail, ensure};
use volume::{Entry, Kind};

#[derive(Clone, Copy)]
pub struct Expected<'a> {
    pub path: &'a str,
    pub kind: Kind,
    // The folder had more than one name for it, so that the card may have a hard link here.
    linked: bool,
    executable: bool,
    size: u32,
    // Of the contents, if it is a file.
    digest: &'a str,
}

fn kind_of(name: &str) -> anyhow::Result<Kind> {
    Ok(match name {
        "file" => Kind::File,
        "directory" => Kind::Directory,
        "symlink" => Kind::SymbolicLink,
        "block" => Kind::BlockDevice,
        "char" => Kind::CharDevice,
        "socket" => Kind::Socket,
        "pipe" => Kind::Pipe,
        _ => bail!("no kind: {name}"),
    })
}

impl<'a> Expected<'a> {
    pub fn parse(line: &'a str) -> anyhow::Result<Expected<'a>> {
        let mut words = line.split('\t');
        let path = words.next().context("no path")?;
        let kind = words.next().context("no kind")?;
        let executable = words.next().context("no bit")?;
        let size = words.next().context("no size")?;
        let digest = words.next().context("no digest")?;
        let leads_to = kind.strip_prefix("link to ");
        Ok(Expected {
            path,
            kind: kind_of(leads_to.unwrap_or(kind))?,
            linked: leads_to.is_some(),
            executable: executable == "x",
            size: size.parse::<u32>()?,
            digest,
        })
    }

    // Whether this is the entry of the list. A link has a bit and a size of its own.
    pub fn check(&self, entry: &Entry) -> anyhow::Result<()> {
        if self.linked && entry.kind == Kind::HardLink {
            return Ok(());
        }
        ensure!(entry.kind == self.kind, "another kind: {}", self.path);
        ensure!(
            entry.executable == self.executable,
            "another bit: {}",
            self.path
        );
        ensure!(entry.size == self.size, "another size: {}", self.path);
        Ok(())
    }

    // Whether it is a file of this length, whose contents have this digest.
    pub fn is_file(&self, length: usize, digest: &str) -> bool {
        self.kind == Kind::File && length == self.size as usize && digest == self.digest
    }
}
