// The worked cases of the volume's rules, run on a mount over memory.
#![tactic(auto)]

mod card;
mod cases;
mod ending;
mod levels;
mod using;
mod volume_bytes;

use anyhow::{anyhow, ensure};
use card::Card;
use cases::Case;
use digest::Sha256;
use std::str;
use using::list_first;
use volume::NAME_SIZE;
use volume_bytes::{SUM, volume_with};

// The name of the first entry, by a function that is proved to keep the law.
fn print_first(rt: &HostRuntime) -> anyhow::Result<()> {
    let card = Card::of(volume_with(SUM))?;
    let mut name = [0; NAME_SIZE];
    let (_memory, answer) = list_first(Sha256, &card.label(), card.memory(), &mut name);
    let _entry = answer.map_err(|refusal| anyhow!("{refusal}"))?;
    println!(rt;
        "first entry: {}",
        str::from_utf8(&name)?.trim_end_matches('\0')
    )?;
    Ok(())
}

fn run(rt: &HostRuntime) -> anyhow::Result<()> {
    // every case is run and printed, whatever came of the one before
    let mut all = true;
    for case in Case::ALL {
        let outcome = case.run()?;
        all &= outcome == case.wanted();
        println!(rt; "{case}: {outcome}")?;
    }
    ensure!(all, "an answer is not the worked one");
    levels::print_all(rt)?;
    print_first(rt)
}

fn main(rt: HostRuntime) -> anyhow::Result<()> {
    run(&rt)
}
