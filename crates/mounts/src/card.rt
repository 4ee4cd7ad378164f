// A card of a volume in one block.
use crate::volume_bytes::BLOCK;
use anyhow::anyhow;
use builder::{Source, build};
use digest::{Digest, Sha256};
use geometry::Label;
use media::Memory;
use mount::Mount;

#[derive(Drop)]
pub struct Card {
    image: [u8; BLOCK],
    root: [u8; 32],
}

impl Card {
    // One data block has no tree: the root is its digest.
    pub fn of(image: [u8; BLOCK]) -> anyhow::Result<Card> {
        let mut root = [0; 32];
        let source = Source {
            image: &image,
            data_block: BLOCK,
            hash_block: BLOCK,
            salt: b"",
        };
        build(&Sha256, &source, &mut [], &mut root).map_err(|fault| anyhow!("{fault}"))?;
        Ok(Card { image, root })
    }

    pub fn label(&self) -> Label<'_> {
        Label {
            digest: Sha256.label_number(),
            data_block: BLOCK as u32,
            hash_block: BLOCK as u32,
            blocks: 1,
            salt: b"",
            root: &self.root,
        }
    }

    pub fn memory(&self) -> Memory<'_> {
        Memory {
            data: &self.image,
            tree: &[],
        }
    }

    pub fn mount(&self) -> Mount<Sha256, Memory<'_>> {
        Mount::new(Sha256, &self.label(), self.memory())
    }
}
