// The command `sum`: a line for each file, with its digest and its name.
ghost use Rattle.std.specs.Prelude.{◌≡◌, ◌≤◌, IfOk, Some, length};
ghost use Rattle.text.specs.Bytes.{bytes_of};
ghost use Rattle.text.specs.Hex.{hex_of};
ghost use Rattle.text.specs.Sum.{sum_of};

use crate::fault::Fault;
use digest::{LIMIT, Refusal};
use std::fs::File;
use std::io::Read;
use std::{fmt, io};
use text::{Bytes, Digits, Function};
use thiserror::Error;

// Why a file has no sum.
#[derive(Debug, Drop, Error)]
enum NoSum {
    #[error("too long: {0} bytes, where the limit is {limit}", limit = LIMIT)]
    TooLong(u64),
    // Longer than the limit, and of no known length.
    #[error("too long: more than the limit of {limit} bytes", limit = LIMIT)]
    Endless,
    #[error(transparent)]
    Io(#[from] io::Error),
    #[error("refused: {0}")]
    Refused(Refusal),
}

// A file that is no longer than a digest takes. Reads at most one byte above the limit, so that one with
// no end is refused too.
fn read_whole(rt: &HostRuntime, name: &str) -> Result<Vec<u8>, NoSum>
    ensures { IfOk result (λ bytes. length bytes.items ≤ 4352) }
{
    let file = File::open(rt, name)?;
    let meta = file.metadata()?;
    let mut bytes = Vec::new(rt.alloc());
    file.take(LIMIT as u64 + 1).read_to_end(&mut bytes)?;
    if bytes.len() <= LIMIT {
        Ok(bytes)
    } else if meta.is_file() && meta.len() > LIMIT as u64 {
        Err(NoSum::TooLong(meta.len()))
    } else {
        Err(NoSum::Endless)
    }
}

// The digest of a file's bytes, which prints as its digits.
#[derive(Clone, Copy)]
struct FileSum(Bytes<64>);

impl fmt::Display for FileSum {
    ghost output = { λ sum. Some (hex_of (bytes_of sum.0)) };

    fn fmt<W: fmt::Write>(&self, f: &mut fmt::Formatter<W>) -> fmt::Result {
        write!(f, "{}", Digits(self.0.as_slice()))
    }
}

fn digest_of(function: Function, bytes: &[u8]) -> Result<FileSum, Refusal>
    ensures { IfOk result (λ sum. bytes_of sum.0 ≡ sum_of function bytes.now) }
{
    Ok(FileSum(function.sum(b"", bytes)?))
}

fn sum(rt: &HostRuntime, function: Function, name: &str) -> Result<FileSum, NoSum> {
    let bytes = read_whole(rt, name)?;
    digest_of(function, bytes.as_slice()).map_err(NoSum::Refused)
}

// Prints the sum of each file that has one, and for each other file a line on standard error.
pub fn print_sums(rt: &HostRuntime, function: Function, files: &[String]) -> Result<(), Fault> {
    let mut outcome = Ok(());
    for name in files {
        match sum(rt, function, name.as_str()) {
            Ok(sum) => println!(rt; "{sum}  {name}")?,
            Err(why) => {
                eprintln!(rt; "card: {name:?}: {why}")?;
                outcome = Err(Fault::Files);
            }
        }
    }
    outcome
}
