// A card and what is expected of it: the files stand in data/.
use anyhow::anyhow;
use label_text::LabelText;
use media::Memory;
use std::fs;

#[derive(Drop)]
pub struct Card {
    pub name: &'static str,
    pub label: LabelText,
    // A line for each entry.
    pub expected: String,
    image: Vec<u8>,
    tree: Vec<u8>,
}

impl Card {
    pub fn read(rt: &HostRuntime, name: &'static str) -> anyhow::Result<Card> {
        let heap = rt.alloc();
        let label = fs::read(rt, format!(in heap; "{name}.label")?)?;
        Ok(Card {
            name,
            label: LabelText::read(label.as_slice()).map_err(|fault| anyhow!("{name}: {fault}"))?,
            expected: fs::read_to_string(rt, format!(in heap; "{name}.expect")?)?,
            image: fs::read(rt, format!(in heap; "{name}.image")?)?,
            tree: fs::read(rt, format!(in heap; "{name}.tree")?)?,
        })
    }

    pub fn memory(&self) -> Memory<'_> {
        Memory {
            data: self.image.as_slice(),
            tree: self.tree.as_slice(),
        }
    }
}
