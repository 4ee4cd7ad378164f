// The command line program.
#![tactic(auto)]

mod build;
mod cat;
mod check;
mod command;
mod fault;
mod list;
mod open_card;
mod options;
mod scripts;
mod sum;
mod words;

use command::{Command, Misuse};
use fault::Fault;
use open_card::Card;
use std::io::ErrorKind;
use std::process::ExitCode;
use std::{env, io};

const USAGE: &str =
    "usage: card sum sha256|sha512 FILE...\n       card build [--hash sha256|sha512] [--data-block-size D] [--hash-block-size E] [--salt HEX|-] IMAGE TREE\n       card ls LABEL IMAGE TREE [PATH]\n       card cat LABEL IMAGE TREE PATH\n       card check LABEL IMAGE TREE\n       card run LABEL IMAGE TREE\n       card run --turn N LABEL IMAGE TREE IMAGE2 TREE2\n       card run --tape TAPE LABEL\n       card help";

fn run(rt: &HostRuntime) -> Result<(), Fault> {
    let mut words = env::args(rt).map_err(|error| match error.kind() {
        ErrorKind::InvalidData => Fault::from(Misuse::NotText),
        _ => Fault::Io(error),
    })?;
    let _program = words.next();
    match Command::parse(rt.alloc(), words)? {
        Command::Sum { function, files } => sum::print_sums(rt, function, files.as_slice()),
        Command::Build(asked) => build::build_tree(rt, asked),
        Command::List { card, path } => {
            list::print_list(rt, &Card::read(rt, card)?, path.as_str())
        }
        Command::Cat { card, path } => cat::print_file(rt, &Card::read(rt, card)?, path.as_str()),
        Command::Check(card) => check::check_card(rt, &Card::read(rt, card)?),
        Command::Run(run) => scripts::run_script(rt, run),
        Command::Help => Ok(println!(rt; "{}", USAGE)?),
    }
}

fn main(rt: HostRuntime) -> io::Result<ExitCode> {
    match run(&rt) {
        Ok(()) => return Ok(ExitCode::SUCCESS),
        // each of these files has its line already
        Err(Fault::Files) => {}
        Err(fault) => eprintln!(rt; "card: {fault}")?,
    }
    Ok(ExitCode::FAILURE)
}
