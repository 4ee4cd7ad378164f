// A kitchen's card, from its image to the page that it must not give: built, mounted by its root digest, read in the
// morning, and read again once it gives an older page.
#![tactic(auto)]

mod kitchen;
mod reading;

use anyhow::anyhow;
use digest::Sha256;
use kitchen::Kitchen;
use media::{Counting, Memory, Turning};
use open_files::OpenFiles;
use published::Published;
use reading::TABLE;

// So many questions the card answers by its own pages: those until noon. Then it answers by the older ones.
const SOUND: u64 = 26;

// A file is read from the new card before it leaves the publisher, by a call that begins, opens, reads and closes.
fn proof_read(
    rt: &HostRuntime,
    published: &Published<'_, Sha256>,
    card: Memory<'_>,
) -> anyhow::Result<()> {
    let mut buf = vec![in rt.alloc(); 0u8; 4096]?;
    let (_card, answer) = published.read(card, TABLE.as_bytes(), 0, buf.as_mut_slice());
    let count = answer.map_err(|refusal| anyhow!("{TABLE}: {refusal}"))?;
    println!(rt; "read from the new card: {count} bytes of {TABLE}")?;
    Ok(())
}

fn run(rt: &HostRuntime) -> anyhow::Result<()> {
    let kitchen = Kitchen::read(rt)?;
    let mut tree = kitchen.empty_tree(rt)?;
    let published = kitchen.build(rt, &mut tree)?;
    proof_read(rt, &published, kitchen.card(&tree))?;
    let card = Turning {
        first: kitchen.card(&tree),
        second: kitchen.older_card(&tree),
        left: SOUND,
    };
    let mount = published.mount(Counting::new(card));
    let mut files = OpenFiles::new(rt.alloc(), mount);
    let outcome = reading::read_all(rt, &mut files);
    let card = files.into_device();
    println!(rt;
        "the card was asked {} questions, and answered {SOUND} before it turned",
        card.asked()
    )?;
    if card.into_below().left != 0 {
        return Err(anyhow!("the card did not turn"));
    }
    outcome
}

fn main(rt: HostRuntime) -> anyhow::Result<()> {
    run(&rt)
}
