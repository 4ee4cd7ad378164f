// A card that gives another page of itself once block 100 was read.
use crate::card::Card;
use crate::outcome::ask;
use anyhow::Context;
use cache::Cache;
use digest::Sha512;
use media::{Memory, Turning};
use verity::Verity;

// Reading a block asks for a block of each of three levels and for the block.
const QUESTIONS: u64 = 4;

// The bytes with one of them changed.
fn changed(rt: &HostRuntime, bytes: &[u8], at: usize) -> anyhow::Result<Vec<u8>> {
    let mut copy = bytes.to_vec(rt.alloc())?;
    let byte = copy.get_mut(at).context("no such byte")?;
    *byte ^= 1;
    Ok(copy)
}

// Without a cache the block is refused when it is read again. With one a kept block is given, and another is refused.
fn turn(rt: &HostRuntime, card: &Card, second: Memory<'_>, what: &str) -> anyhow::Result<()> {
    let turning = Turning {
        first: card.memory(),
        second,
        left: QUESTIONS,
    };
    let label = card.label.label();
    let mut buf = vec![in rt.alloc(); 0u8; label.data_block as usize]?;
    let mut check = Verity::new(Sha512, &label, turning);
    for when in ["first", "then"] {
        let outcome = ask(&mut check, 100, buf.as_mut_slice(), card.block(100));
        println!(rt; "{what}: {when} block 100 is {outcome}")?;
    }
    let mut mount = Cache::new(Verity::new(Sha512, &label, turning));
    for k in [99u32, 99, 100] {
        let outcome = ask(&mut mount, k, buf.as_mut_slice(), card.block(k as usize));
        println!(rt; "{what}, with a cache: block {k} is {outcome}")?;
    }
    Ok(())
}

pub fn turn_all(rt: &HostRuntime, card: &Card) -> anyhow::Result<()> {
    let image = changed(rt, card.image.as_slice(), 100 * 512 + 7)?;
    let other_data = Memory {
        data: image.as_slice(),
        ..card.memory()
    };
    turn(rt, card, other_data, "data block 100 changed")?;
    // above data blocks 64 to 127
    let tree = changed(rt, card.tree.as_slice(), 2 * 512 + 7)?;
    let other_tree = Memory {
        tree: tree.as_slice(),
        ..card.memory()
    };
    turn(rt, card, other_tree, "tree block 2 changed")
}
