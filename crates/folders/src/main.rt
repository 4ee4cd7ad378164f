// Mounts real cards, lists every directory and reads every file, and compares with what was read off the folders that
// the cards were made of.
#![tactic(auto)]

mod card;
mod compare;
mod expected;
mod walk;

use card::Card;
use text::with_digest;

// Cards that genromfs and veritysetup made.
const CARDS: [&str; 4] = ["small1k", "mixed", "mixed512", "many"];

fn run(rt: &HostRuntime) -> anyhow::Result<()> {
    for name in CARDS {
        let card = Card::read(rt, name)?;
        with_digest!(card.label.function(), digest => compare::compare_all(rt, digest, &card)?);
    }
    Ok(())
}

fn main(rt: HostRuntime) -> anyhow::Result<()> {
    run(&rt)
}
