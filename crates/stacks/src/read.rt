// Reads every block of a card through the cache over the path check.
use crate::card::Card;
use crate::outcome::{Outcome, ask};
use anyhow::{anyhow, ensure};
use cache::Cache;
use digest::Digest;
use verity::Verity;

pub fn read_all<H: Digest + Drop>(rt: &HostRuntime, digest: H, card: &Card) -> anyhow::Result<()> {
    let label = card.label.label();
    let geometry = label.check(&digest).map_err(|fault| anyhow!("{fault}"))?;
    let mut mount = Cache::new(Verity::new(digest, &label, card.memory()));
    let mut buf = vec![in rt.alloc(); 0u8; geometry.data_block()]?;
    for k in 0..label.blocks {
        let outcome = ask(&mut mount, k, buf.as_mut_slice(), card.block(k as usize));
        let right = matches!(outcome, Outcome::Right);
        ensure!(right, "{}: block {k} is {outcome}", card.name);
    }
    println!(rt;
        "{}: {} data blocks are the image's, through {} levels with digests of {} bytes",
        card.name,
        label.blocks,
        geometry.levels(),
        geometry.slot()
    )?;
    Ok(())
}
