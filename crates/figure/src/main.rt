// From a card's label to a figure: the example of docs/USING.md.
#![tactic(auto)]

mod ending;

use anyhow::anyhow;
use calls::Refusal;
use digest::Sha256;
use ending::end;
use label_text::LabelText;
use layers::Store;
use media::Memory;
use mount::{Mount, MountOver};
use std::{fs, str};

// The front of a file: as many bytes as there are and the buffer takes, or a refusal and zeros.
fn read_front<S: Store>(
    mount: &mut MountOver<S>,
    path: &[u8],
    buf: &mut [u8],
) -> Result<usize, Refusal<S::Refusal>> {
    buf.fill(0);
    mount.begin()?;
    let file = mount.open(path)?;
    let answer = mount.read(&file, 0, buf);
    end(mount, file);
    answer
}

fn run(rt: &HostRuntime) -> anyhow::Result<()> {
    let label = fs::read(rt, "foods.label")?;
    let image = fs::read(rt, "foods.image")?;
    let tree = fs::read(rt, "foods.tree")?;
    let told = LabelText::read(label.as_slice())?;
    let card = Memory {
        data: image.as_slice(),
        tree: tree.as_slice(),
    };
    let mut mount = Mount::new(Sha256, &told.label(), card);
    let mut row = [0; 64];
    match read_front(&mut mount, b"foods/oats", &mut row) {
        Ok(_count) => print!(rt; "{}", str::from_utf8(&row)?.trim_end_matches('\0'))?,
        Err(refusal) => return Err(anyhow!("no figure: {refusal}")),
    }
    Ok(())
}

fn main(rt: HostRuntime) -> anyhow::Result<()> {
    run(&rt)
}
