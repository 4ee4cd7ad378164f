// Runs both digests on the example messages of FIPS 180-4 and at the lengths where padding changes.
// Each digest is compared with the value in expected.txt, which another implementation computed.
#![tactic(auto)]

mod expected;
mod message;
mod split;
mod tally;
#[cfg(test)]
mod tests;

use anyhow::{anyhow, ensure};
use expected::{Expected, Verdict};
use message::Message;
use split::Split;
use tally::Tally;
use text::{Digits, Function};

// One line for each way that the message is split between the two arguments.
fn run_message(
    rt: &HostRuntime,
    expected: &Expected,
    function: Function,
    message: Message,
    tally: &mut Tally,
) -> anyhow::Result<()> {
    let heap = rt.alloc();
    let bytes = message.bytes(heap)?;
    for split in Split::ALL {
        let (first, second) = split.parts(bytes.as_slice());
        let sum = function.sum(first, second).map_err(|why| anyhow!("{why}"))?;
        let found = Digits(sum.as_slice());
        let verdict = expected.verdict(heap, function, message, found)?;
        tally.count(verdict);
        println!(rt;
            "{function} {message} {}+{} {found} {verdict}",
            first.len(),
            second.len()
        )?;
    }
    Ok(())
}

fn run(rt: &HostRuntime) -> anyhow::Result<()> {
    let expected = Expected::read(rt)?;
    let mut tally = Tally::default();
    for function in Function::all() {
        for message in Message::ALL {
            run_message(rt, &expected, *function, message, &mut tally)?;
        }
    }
    rt.println(&tally)?;
    ensure!(tally.all_right(), "a digest is wrong");
    Ok(())
}

fn main(rt: HostRuntime) -> anyhow::Result<()> {
    run(&rt)
}
