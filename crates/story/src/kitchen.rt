// The card's two editions, and the tree over the newer one.
use anyhow::{Context, anyhow};
use builder::Source;
use digest::{Digest, Sha256};
use media::Memory;
use published::Published;
use std::fs;
use text::Digits;

const BLOCK: usize = 512;

const SALT: &[u8] = b"ward kitchen";

#[derive(Drop)]
pub struct Kitchen {
    image: Vec<u8>,
    // the same files, with an earlier figure in one table
    older: Vec<u8>,
}

impl Kitchen {
    pub fn read(rt: &HostRuntime) -> anyhow::Result<Kitchen> {
        Ok(Kitchen {
            image: fs::read(rt, "foods.image")?,
            older: fs::read(rt, "older.image")?,
        })
    }

    fn source(&self) -> Source<'_> {
        Source {
            image: self.image.as_slice(),
            data_block: BLOCK,
            hash_block: BLOCK,
            salt: SALT,
        }
    }

    // Room for the tree.
    pub fn empty_tree(&self, rt: &HostRuntime) -> anyhow::Result<Vec<u8>> {
        let geometry = self
            .source()
            .geometry(Sha256.output_len())
            .context("no tree over this image")?;
        Ok(vec![in rt.alloc(); 0u8; geometry.tree_len()]?)
    }

    // Builds the tree over the image, and prints the root digest.
    pub fn build(
        &self,
        rt: &HostRuntime,
        tree: &mut Vec<u8>,
    ) -> anyhow::Result<Published<'_, Sha256>> {
        let published = Published::build(Sha256, &self.source(), tree.as_mut_slice()).map_err(
            |fault| anyhow!("{fault}"),
        )?;
        let label = published.label();
        println!(rt;
            "built: {} bytes of image in {} blocks, {} bytes of tree",
            self.image.len(),
            label.blocks,
            tree.len()
        )?;
        println!(rt; "the root digest for the sleeve: {}", Digits(label.root))?;
        Ok(published)
    }

    pub fn card<'a>(&'a self, tree: &'a Vec<u8>) -> Memory<'a> {
        Memory {
            data: self.image.as_slice(),
            tree: tree.as_slice(),
        }
    }

    // The same card with the older pages.
    pub fn older_card<'a>(&'a self, tree: &'a Vec<u8>) -> Memory<'a> {
        Memory {
            data: self.older.as_slice(),
            tree: tree.as_slice(),
        }
    }
}
