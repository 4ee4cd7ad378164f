// The path of block 100 from a tape.
use crate::card::Card;
use crate::outcome::ask;
use digest::Sha512;
use media::Tape;
use verity::Verity;

// The blocks of levels 2, 1 and 0 above data block 100: of 8 slots each, behind 0, 1 and 6 blocks of the levels above.
const PATH: [usize; 3] = [0, 1 + 100 / 64, 6 + 100 / 8];

fn run(rt: &HostRuntime, card: &Card, bytes: &[u8]) -> anyhow::Result<()> {
    let label = card.label.label();
    let mut buf = vec![in rt.alloc(); 0u8; label.data_block as usize]?;
    let mut check = Verity::new(Sha512, &label, Tape::new(bytes));
    let outcome = ask(&mut check, 100, buf.as_mut_slice(), card.block(100));
    let used = check.into_below().used();
    println!(rt;
        "tape of {} bytes: block 100 is {outcome}; {used} bytes are used",
        bytes.len()
    )?;
    Ok(())
}

// The whole path, one byte less, and no byte.
pub fn run_all(rt: &HostRuntime, card: &Card) -> anyhow::Result<()> {
    let mut path = Vec::new(rt.alloc());
    for block in PATH {
        path.extend_from_slice(card.tree_block(block))?;
    }
    path.extend_from_slice(card.block(100))?;
    let whole = path.as_slice();
    run(rt, card, whole)?;
    run(rt, card, whole.split_last().map_or(whole, |(_, rest)| rest))?;
    run(rt, card, &[])
}
