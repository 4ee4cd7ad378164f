// What the words of the command line ask for.
ghost use Rattle.std.specs.Prelude.{IfOk, Ok, string_bytes};

use crate::fault::Fault;
use crate::open_card::CardNames;
use crate::options::{Build, parse_build};
use crate::scripts::Run;
use crate::words::{parse_cat, parse_check, parse_list, parse_run};
use geometry::SALT_LIMIT;
use std::alloc::Global;
use std::env::Args;
use std::str::FromStr;
use text::Function;
use thiserror::Error;

#[derive(Drop)]
pub enum Command {
    Sum {
        function: Function,
        files: Vec<String>,
    },
    Build(Build),
    List {
        card: CardNames,
        path: String,
    },
    Cat {
        card: CardNames,
        path: String,
    },
    Check(CardNames),
    Run(Run),
    Help,
}

// Words that the caller chose are quoted, so that each misuse stays on one line.
#[derive(Debug, Drop, Error)]
pub enum Misuse {
    #[error("a word of the command line is not UTF-8")]
    NotText,
    #[error("no command")]
    NoCommand,
    #[error("unknown command: {0:?}")]
    UnknownCommand(String),
    #[error("no digest is named")]
    NoDigest,
    #[error("unknown digest: {0:?}")]
    UnknownDigest(String),
    #[error("no file is named")]
    NoFile,
    #[error("unknown option: {0:?}")]
    UnknownOption(String),
    #[error("no value after {0}")]
    NoValue(String),
    #[error("not a number: {0:?}")]
    BadNumber(String),
    #[error("not a block size: {0}, where 512, 1024, 2048 and 4096 are")]
    BlockSize(usize),
    #[error("not a salt in hexadecimal: {0:?}")]
    BadSalt(String),
    #[error("a salt of {0} bytes, where the limit is {limit}", limit = SALT_LIMIT)]
    LongSalt(usize),
    #[error("build takes an image and a tree")]
    TwoFiles,
    #[error("ls takes a label, an image, a tree and at most one path")]
    ListWords,
    #[error("cat takes a label, an image, a tree and a path")]
    CatWords,
    #[error("check takes a label, an image and a tree")]
    CheckWords,
    #[error("run takes a label, an image and a tree, or --turn or --tape with its words")]
    RunWords,
    #[error("help takes no more words")]
    HelpAlone,
}

impl Command {
    // `words` are those after the program's own name.
    pub fn parse(heap: Global, mut words: Args) -> Result<Command, Fault> {
        let name = words.next().ok_or(Misuse::NoCommand)?;
        match name.as_str() {
            "sum" => parse_sum(heap, words),
            "build" => Ok(Command::Build(parse_build(heap, words)?)),
            "ls" => parse_list(heap, words),
            "cat" => Ok(parse_cat(words)?),
            "check" => Ok(parse_check(words)?),
            "run" => Ok(Command::Run(parse_run(words)?)),
            "help" | "--help" => parse_help(words),
            _ => Err(Fault::from(Misuse::UnknownCommand(name))),
        }
    }
}

fn parse_help(mut words: Args) -> Result<Command, Fault> {
    match words.next() {
        None => Ok(Command::Help),
        Some(_) => Err(Fault::from(Misuse::HelpAlone)),
    }
}

fn parse_sum(heap: Global, mut words: Args) -> Result<Command, Fault> {
    let name = words.next().ok_or(Misuse::NoDigest)?;
    let function = spelled(name, Misuse::UnknownDigest)?;
    let files = words.collect::<Vec<String>>(heap)?;
    if files.is_empty() {
        return Err(Fault::from(Misuse::NoFile));
    }
    Ok(Command::Sum { function, files })
}

// The value that a text spells, and for any other text the misuse that it is.
pub(crate) fn spelled<T: FromStr, F: FnOnce(String) -> Misuse + Drop>(
    text: String,
    misuse: F,
) -> Result<T, Misuse>
where
    T::Err: Drop,
    requires { F.IsAlwaysCallable misuse }
    ensures { IfOk result (λ value. T.from_str_gives (string_bytes text) (Ok value)) }
{
    text.as_str().parse::<T>().map_err(|_| misuse(text))
}
