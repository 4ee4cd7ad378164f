// What a script is run over: a card, a card that turns, or a tape.
use crate::fault::Fault;
use crate::open_card::{Areas, Card, CardNames, Extent, read_label};
use device::Device;
use digest::Digest;
use label_text::LabelText;
use media::{Counting, Tape, Turning};
use mount::Mount;
use open_files::OpenFiles;
use script::BottomRefusal;
use session::Session;
use std::fs;
use text::with_digest;

#[derive(Drop)]
pub enum Run {
    Card(CardNames),
    // The second pair answers from the question with this number on, counted from 0.
    Turn {
        number: u64,
        card: CardNames,
        image: String,
        tree: String,
    },
    Tape {
        tape: String,
        label: String,
    },
}

// Answers the script, closes what is open, and tells how many questions were asked.
fn answer_all<H: Digest + Drop, D: Device + Drop>(
    rt: &HostRuntime,
    digest: H,
    label: &LabelText,
    bottom: D,
) -> Result<(), Fault>
where
    D::Refusal: BottomRefusal,
{
    let mount = Mount::new(digest, &label.label(), Counting::new(bottom));
    let mut session = Session {
        rt,
        files: OpenFiles::new(rt.alloc(), mount),
    };
    let outcome = session.answer_all();
    let Session { rt: _, files } = session;
    let device = files.into_device();
    eprintln!(rt; "questions: {}", device.asked())?;
    Ok(outcome?)
}

fn run_over<D: Device + Drop>(rt: &HostRuntime, label: &LabelText, bottom: D) -> Result<(), Fault>
where
    D::Refusal: BottomRefusal,
{
    with_digest!(label.function(), digest => answer_all(rt, digest, label, bottom))
}

fn run_turning(
    rt: &HostRuntime,
    left: u64,
    names: CardNames,
    image: String,
    tree: String,
) -> Result<(), Fault> {
    let (label, geometry) = read_label(rt, names.label)?;
    let first = Areas::read(rt, &geometry, Extent::Whole, names.image, names.tree)?;
    let second = Areas::read(rt, &geometry, Extent::AnyLength, image, tree)?;
    let turning = Turning {
        first: first.memory(),
        second: second.memory(),
        left,
    };
    run_over(rt, &label, turning)
}

fn run_tape(rt: &HostRuntime, tape: String, label: String) -> Result<(), Fault> {
    let (label, _) = read_label(rt, label)?;
    let bytes = fs::read(rt, tape.as_str()).map_err(|error| Fault::File(tape, error))?;
    run_over(rt, &label, Tape::new(bytes.as_slice()))
}

pub fn run_script(rt: &HostRuntime, run: Run) -> Result<(), Fault> {
    match run {
        Run::Card(names) => {
            let card = Card::read(rt, names)?;
            run_over(rt, &card.label, card.areas.memory())
        }
        Run::Turn {
            number,
            card,
            image,
            tree,
        } => run_turning(rt, number, card, image, tree),
        Run::Tape { tape, label } => run_tape(rt, tape, label),
    }
}
