// The words behind `ls`, `cat`, `check` and `run`.
use crate::command::{Command, Misuse, spelled};
use crate::fault::Fault;
use crate::open_card::CardNames;
use crate::scripts::Run;
use std::alloc::Global;
use std::env::Args;

// The three files of a card.
fn card(words: &mut Args) -> Option<CardNames> {
    Some(CardNames {
        label: words.next()?,
        image: words.next()?,
        tree: words.next()?,
    })
}

// The empty path is the root's.
pub fn parse_list(heap: Global, mut words: Args) -> Result<Command, Fault> {
    let card = card(&mut words).ok_or(Misuse::ListWords)?;
    let path = words.next().unwrap_or(String::new(heap));
    match words.next() {
        None => Ok(Command::List { card, path }),
        Some(_) => Err(Fault::from(Misuse::ListWords)),
    }
}

pub fn parse_cat(mut words: Args) -> Result<Command, Misuse> {
    let card = card(&mut words).ok_or(Misuse::CatWords)?;
    match (words.next(), words.next()) {
        (Some(path), None) => Ok(Command::Cat { card, path }),
        _ => Err(Misuse::CatWords),
    }
}

pub fn parse_check(mut words: Args) -> Result<Command, Misuse> {
    let card = card(&mut words).ok_or(Misuse::CheckWords)?;
    match words.next() {
        None => Ok(Command::Check(card)),
        Some(_) => Err(Misuse::CheckWords),
    }
}

fn parse_turn(words: &mut Args) -> Result<Run, Misuse> {
    let number = spelled(words.next().ok_or(Misuse::RunWords)?, Misuse::BadNumber)?;
    let card = card(words).ok_or(Misuse::RunWords)?;
    match (words.next(), words.next()) {
        (Some(image), Some(tree)) => Ok(Run::Turn {
            number,
            card,
            image,
            tree,
        }),
        _ => Err(Misuse::RunWords),
    }
}

fn parse_tape(words: &mut Args) -> Result<Run, Misuse> {
    match (words.next(), words.next()) {
        (Some(tape), Some(label)) => Ok(Run::Tape { tape, label }),
        _ => Err(Misuse::RunWords),
    }
}

pub fn parse_run(mut words: Args) -> Result<Run, Misuse> {
    let first = words.next().ok_or(Misuse::RunWords)?;
    let run = match first.as_str() {
        "--turn" => parse_turn(&mut words)?,
        "--tape" => parse_tape(&mut words)?,
        _ => Run::Card(CardNames {
            label: first,
            image: words.next().ok_or(Misuse::RunWords)?,
            tree: words.next().ok_or(Misuse::RunWords)?,
        }),
    };
    match words.next() {
        None => Ok(run),
        Some(_) => Err(Misuse::RunWords),
    }
}
