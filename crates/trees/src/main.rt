// Builds the trees of some cards again, and compares each tree and root with what veritysetup made.
#![tactic(auto)]

mod card;
mod outcome;

use anyhow::{anyhow, ensure};
use builder::{Base, Source, build, build_above, hash_blocks};
use card::Card;
use digest::Digest;
use outcome::Outcome;
use std::alloc::Global;
use std::fs;
use text::with_digest;

// Few enough that some cards are of several parts, of which the last is shorter.
const BLOCKS_OF_A_PART: usize = 100;

// The digests of the image's blocks, a part of it at a time.
fn digests_of<D: Digest>(heap: Global, digest: &D, source: &Source<'_>) -> anyhow::Result<Vec<u8>> {
    let mut digests = Vec::new(heap);
    let len = source.data_block.saturating_mul(BLOCKS_OF_A_PART).max(1);
    for image in source.image.chunks(len) {
        let part = Source {
            image,
            data_block: source.data_block,
            hash_block: source.hash_block,
            salt: source.salt,
        };
        let size = digest.output_len();
        let blocks = part.geometry(size).map_or(0, |g| g.blocks());
        let mut some = vec![in heap; 0u8; blocks * size]?;
        hash_blocks(digest, &part, some.as_mut_slice()).map_err(|fault| anyhow!("{fault}"))?;
        digests.extend_from_slice(some.as_slice())?;
    }
    Ok(digests)
}

// From the whole image, and again from the digests of its blocks. The same, where both are.
fn rebuild<D: Digest>(rt: &HostRuntime, digest: &D, card: &Card) -> anyhow::Result<Outcome> {
    let heap = rt.alloc();
    let name = card.name;
    let image = fs::read(rt, format!(in heap; "{name}.image")?)?;
    let made = fs::read(rt, format!(in heap; "{name}.tree")?)?;
    let mut tree = vec![in heap; 0u8; made.len()]?;
    let mut root = vec![in heap; 0u8; digest.output_len()]?;
    let source = Source {
        image: image.as_slice(),
        data_block: card.data_block,
        hash_block: card.hash_block,
        salt: card.salt,
    };
    if let Err(fault) = build(digest, &source, tree.as_mut_slice(), root.as_mut_slice()) {
        return Ok(Outcome::Refused(fault));
    }
    let outcome = Outcome::of(tree.as_slice(), made.as_slice(), root.as_slice(), card.root);
    if outcome != Outcome::Same {
        return Ok(outcome);
    }
    let digests = digests_of(heap, digest, &source)?;
    let base = Base {
        digests: digests.as_slice(),
        data_block: card.data_block,
        hash_block: card.hash_block,
        salt: card.salt,
    };
    let above = build_above(digest, &base, tree.as_mut_slice(), root.as_mut_slice());
    Ok(match above {
        Ok(()) => Outcome::of(tree.as_slice(), made.as_slice(), root.as_slice(), card.root),
        Err(fault) => Outcome::Refused(fault),
    })
}

// Prints what became of the card's tree and root; whether they are as they were.
fn compare(rt: &HostRuntime, card: &Card) -> anyhow::Result<bool> {
    let outcome = with_digest!(card.function, digest => rebuild(rt, &digest, card)?);
    if let Outcome::Refused(fault) = outcome {
        println!(rt; "{}: refused: {fault}", card.name)?;
    }
    println!(rt;
        "{}: data blocks of {}, tree blocks of {}, {} bytes of salt: tree and root {outcome}",
        card.name,
        card.data_block,
        card.hash_block,
        card.salt.len()
    )?;
    Ok(outcome == Outcome::Same)
}

fn run(rt: &HostRuntime) -> anyhow::Result<()> {
    // every card is built and printed, whatever came of the one before
    let mut all = true;
    for card in Card::ALL {
        all &= compare(rt, &card)?;
    }
    ensure!(all, "a tree or a root differs");
    Ok(())
}

fn main(rt: HostRuntime) -> anyhow::Result<()> {
    run(&rt)
}
