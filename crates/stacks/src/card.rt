// A card that veritysetup made: its files stand in data/.
use label_text::LabelText;
use media::Memory;
use std::fs;

#[derive(Drop)]
pub struct Card {
    pub name: &'static str,
    pub label: LabelText,
    pub image: Vec<u8>,
    pub tree: Vec<u8>,
}

impl Card {
    pub fn read(rt: &HostRuntime, name: &'static str) -> anyhow::Result<Card> {
        let heap = rt.alloc();
        let text = fs::read(rt, format!(in heap; "{name}.label")?)?;
        Ok(Card {
            name,
            label: LabelText::read(text.as_slice())?,
            image: fs::read(rt, format!(in heap; "{name}.image")?)?,
            tree: fs::read(rt, format!(in heap; "{name}.tree")?)?,
        })
    }

    pub fn memory(&self) -> Memory<'_> {
        Memory {
            data: self.image.as_slice(),
            tree: self.tree.as_slice(),
        }
    }

    // Data block `k`, or nothing where there is none.
    pub fn block(&self, k: usize) -> &[u8] {
        block_of(
            self.image.as_slice(),
            k,
            self.label.label().data_block as usize,
        )
    }

    // Block `k` of the tree, or nothing where there is none.
    pub fn tree_block(&self, k: usize) -> &[u8] {
        block_of(
            self.tree.as_slice(),
            k,
            self.label.label().hash_block as usize,
        )
    }
}

// Block `k` of a row of blocks of `length` bytes.
fn block_of(bytes: &[u8], k: usize, length: usize) -> &[u8] {
    k.checked_mul(length)
        .and_then(|start| bytes.get(start..)?.get(..length))
        .unwrap_or(&[])
}
