// Mounts real cards, a card that turns and a tape, and prints what the path check and the cache give.
#![tactic(auto)]

mod card;
mod outcome;
mod read;
mod tape;
#[cfg(test)]
mod tests;
mod turn;

use card::Card;
use text::with_digest;

// Cards that veritysetup made.
const CARDS: [&str; 5] = ["small1k", "mixed", "mixed512", "plain", "many"];

fn run(rt: &HostRuntime) -> anyhow::Result<()> {
    for name in CARDS {
        let card = Card::read(rt, name)?;
        with_digest!(card.label.function(), digest => read::read_all(rt, digest, &card)?);
    }
    let many = Card::read(rt, "many")?;
    turn::turn_all(rt, &many)?;
    tape::run_all(rt, &many)
}

fn main(rt: HostRuntime) -> anyhow::Result<()> {
    run(&rt)
}
