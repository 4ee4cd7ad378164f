// Cards of several blocks: the levels of their trees, and the blocks on the path of the last block.
use crate::ending::end;
use crate::volume_bytes::{BLOCK, filled_front};
use anyhow::anyhow;
use builder::{Source, build};
use device::Area;
use digest::{Digest, Sha256};
use geometry::{Geometry, Label};
use layers::{RefusalBelow, Store};
use media::{Counting, Memory};
use mount::{Mount, MountOver};
use std::alloc::Global;

// Bytes of a tree block.
const TREE_BLOCK: usize = 4096;

// A card whose volume is one file that fills it.
#[derive(Drop)]
struct Card {
    geometry: Geometry,
    image: Vec<u8>,
    tree: Vec<u8>,
    root: [u8; 32],
}

// Turns a bit of a byte.
fn turn(bytes: &mut [u8], at: usize) {
    if let Some(byte) = bytes.get_mut(at) {
        *byte ^= 1;
    }
}

impl Card {
    fn of(heap: Global, blocks: u16) -> anyhow::Result<Card> {
        let size = blocks as usize * BLOCK;
        let mut image = filled_front(size as u32).to_vec(heap)?;
        image.resize(size, 0)?;
        let source = Source {
            image: image.as_slice(),
            data_block: BLOCK,
            hash_block: TREE_BLOCK,
            salt: b"",
        };
        let Some(geometry) = source.geometry(Sha256.output_len()) else {
            return Err(anyhow!("no tree over {blocks} blocks"));
        };
        let mut tree = vec![in heap; 0u8; geometry.tree_len()]?;
        let mut root = [0; 32];
        build(&Sha256, &source, tree.as_mut_slice(), &mut root).map_err(|fault| anyhow!(
            "{fault}"
        ))?;
        Ok(Card {
            geometry,
            image,
            tree,
            root,
        })
    }

    fn label(&self) -> Label<'_> {
        Label {
            digest: Sha256.label_number(),
            data_block: BLOCK as u32,
            hash_block: TREE_BLOCK as u32,
            blocks: self.geometry.blocks() as u32,
            salt: b"",
            root: &self.root,
        }
    }

    fn spoil(&mut self, area: Area, block: usize) {
        match area {
            Area::Data => turn(self.image.as_mut_slice(), block.saturating_mul(BLOCK)),
            Area::Tree => turn(self.tree.as_mut_slice(), block.saturating_mul(TREE_BLOCK)),
        }
    }

    // Reads the last byte, and tells how many questions that and all before it took.
    fn read_last(&self) -> anyhow::Result<u64> {
        let memory = Memory {
            data: self.image.as_slice(),
            tree: self.tree.as_slice(),
        };
        let mut mount = Mount::new(Sha256, &self.label(), Counting::new(memory));
        read_last_byte(&mut mount)?;
        Ok(mount.into_device().asked())
    }
}

fn read_last_byte<S: Store>(mount: &mut MountOver<S>) -> anyhow::Result<()>
where
    RefusalBelow<S>: std::fmt::Display,
{
    mount.begin().map_err(|refusal| anyhow!("{refusal}"))?;
    let file = mount.open(b"a").map_err(|refusal| anyhow!("{refusal}"))?;
    let last = (file.size() as usize).saturating_sub(1);
    let answer = mount.read(&file, last, &mut [0]);
    end(mount, file);
    match answer {
        Ok(_count) => Ok(()),
        Err(refusal) => Err(anyhow!("{refusal}")),
    }
}

// The blocks of the card of 129 that are turned, one at a time.
const SPOILT: [(Area, usize); 4] = [
    (Area::Tree, 0),
    (Area::Tree, 1),
    (Area::Tree, 2),
    (Area::Data, 128),
];

pub fn print_all(rt: &HostRuntime) -> anyhow::Result<()> {
    let heap = rt.alloc();
    for blocks in [1, 128, 129] {
        let card = Card::of(heap, blocks)?;
        let asked = card.read_last()?;
        let (levels, above) = (card.geometry.levels(), card.geometry.tree_blocks());
        println!(rt;
            "{blocks} blocks: {levels} levels, {above} tree blocks, {asked} questions to begin and to read the last byte"
        )?;
    }
    for (area, block) in SPOILT {
        let mut card = Card::of(heap, 129)?;
        card.spoil(area, block);
        match card.read_last() {
            Ok(_asked) => println!(rt; "129 blocks, {area} block {block} turned: read")?,
            Err(why) => println!(rt; "129 blocks, {area} block {block} turned: {why}")?,
        }
    }
    Ok(())
}
