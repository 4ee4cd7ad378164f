// A table is read in the morning, other files at noon, and the table again after lunch.
use anyhow::{Context, anyhow, ensure};
use layers::{RefusalBelow, Store};
use open_files::{OpenFiles, Opened};
use std::{fmt, str};

pub const TABLE: &str = "foods/selenium.csv";

const OTHERS: [&str; 4] = [
    "foods/iron.csv",
    "foods/zinc.csv",
    "foods/iodine.csv",
    "menus/monday.txt",
];

// The food whose lines are printed.
const FOOD: &str = "oats";

fn open<S: Store>(files: &mut OpenFiles<S>, path: &str) -> anyhow::Result<Opened>
where
    RefusalBelow<S>: fmt::Display,
{
    files
        .open(path.as_bytes())
        .map_err(|fault| anyhow!("{path}: {fault}"))
}

// Prints a file's lines on the food, or why it is refused, with not one byte of it.
fn print<S: Store>(
    rt: &HostRuntime,
    files: &mut OpenFiles<S>,
    path: &str,
    file: &Opened,
) -> anyhow::Result<()>
where
    RefusalBelow<S>: fmt::Display,
{
    let mut buf = vec![in rt.alloc(); b'?'; file.size as usize]?;
    match files.read(file.number, 0, buf.as_mut_slice()) {
        Ok(count) => {
            println!(rt; "{path}: {count} bytes, each from a verified block")?;
            let text = str::from_utf8(buf.as_slice()).context("no text")?;
            for line in text.lines().filter(|line| line.contains(FOOD)) {
                println!(rt; "    {line}")?;
            }
        }
        Err(fault) => {
            ensure!(
                buf.as_slice().iter().all(|byte| *byte == 0),
                "a byte of a refused page is left"
            );
            println!(rt;
                "{path}: refused, and all {} bytes of the buffer are zeros",
                buf.len()
            )?;
            println!(rt; "    {fault}")?;
        }
    }
    Ok(())
}

pub fn read_all<S: Store>(rt: &HostRuntime, files: &mut OpenFiles<S>) -> anyhow::Result<()>
where
    RefusalBelow<S>: fmt::Display,
{
    let start = files.begin().map_err(|fault| anyhow!("{fault}"))?;
    println!(rt;
        "mounted by the root digest: a volume of {} bytes",
        start.size
    )?;
    println!(rt; "in the morning")?;
    let table = open(files, TABLE)?;
    print(rt, files, TABLE, &table)?;
    println!(rt; "at noon")?;
    for path in OTHERS {
        let file = open(files, path)?;
        print(rt, files, path, &file)?;
    }
    println!(rt; "after lunch the card gives an older page of the table")?;
    print(rt, files, TABLE, &table)
}
