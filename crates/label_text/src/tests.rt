// The labels of five cards as veritysetup printed them, and faults of each line.
mod cards;

use crate::{Fault, Key, LabelText};
use cards::CARDS;
use std::alloc::{AllocError, Global};
use std::test::Fail;
use text::Function;

// FIPS 180-4's digest of "abc" stands for a root.
const LINES: [(Key, &str); 7] = [
    (Key::HashType, "Hash type: 1"),
    (Key::DataBlocks, "Data blocks: 14"),
    (Key::DataBlockSize, "Data block size: 512"),
    (Key::HashBlockSize, "Hash block size:\t1024"),
    (Key::HashAlgorithm, "Hash algorithm:sha256"),
    (Key::Salt, "Salt: \t 00fFa9"),
    (
        Key::RootHash,
        "Root hash: BA7816bf8f01cfea414140de5dae2223b00361a396177a9cb410ff61f20015ad",
    ),
];

// The lines, with another text in place of one.
fn with(heap: Global, key: Key, text: &str) -> Result<String, AllocError> {
    let mut lines = String::new(heap);
    for (each, line) in LINES {
        lines.push_str(if each == key { text } else { line })?;
        lines.push_str("\n")?;
    }
    Ok(lines)
}

fn read(text: &String) -> Result<LabelText, Fault> {
    LabelText::read(text.as_bytes())
}

// Whether veritysetup's line is one that is printed of a label.
fn is_printed(line: &str) -> bool {
    !["VERITY", "UUID:", "Hash device size:"]
        .iter()
        .any(|front| line.starts_with(*front))
}

#[test]
fn prints_what_veritysetup_printed(rt: HostRuntime) -> Result<(), Fail> {
    let heap = rt.alloc();
    for text in CARDS {
        let mut want = String::new(heap);
        for line in text.lines() {
            if is_printed(line) {
                want.push_str(line)?;
                want.push_str("\n")?;
            }
        }
        let printed = match LabelText::read(text.as_bytes()) {
            Ok(label) => format!(in heap; "{label}")?,
            Err(fault) => format!(in heap; "{fault}")?,
        };
        assert_eq!(rt; printed.as_str(), want.as_str());
    }
    Ok(())
}

#[test]
fn reads_lines_in_any_order(rt: HostRuntime) -> Result<(), Fail> {
    let heap = rt.alloc();
    let mut text = String::from_str(heap, "Data blocks 15\nData  blocks: 15\n Salt: 00\n")?;
    for (_, line) in LINES.iter().rev() {
        text.push_str("\n")?;
        text.push_str(*line)?;
    }
    let found = read(&text);
    assert!(rt;
        found.is_ok_and(|label| {
            let told = label.label();
            label.function() == Function::Sha256
                && (told.digest, told.blocks, told.data_block, told.hash_block)
                    == (1, 14, 512, 1024)
                && told.salt == b"\x00\xff\xa9".as_slice()
                && told.root.len() == 32
                && told.root.starts_with(b"\xba\x78\x16\xbf")
        })
    );
    Ok(())
}

#[test]
fn names_the_line(rt: HostRuntime) -> Result<(), Fail> {
    let heap = rt.alloc();
    for (key, line) in LINES {
        let missing = with(heap, key, "")?;
        assert_eq!(rt; read(&missing).err(), Some(Fault::Missing(key)));
        let doubled = with(heap, key, format!(in heap; "{line}\n{line}")?.as_str())?;
        assert_eq!(rt; read(&doubled).err(), Some(Fault::Doubled(key)));
        for value in ["", "x", " 1 ", " +1", "-1", " sha 256"] {
            let malformed = with(heap, key, format!(in heap; "{key}{value}")?.as_str())?;
            assert_eq!(rt; read(&malformed).err(), Some(Fault::Malformed(key)));
        }
    }
    Ok(())
}

// A label that no mount takes is printed all the same, without the line of the tree's size.
#[test]
fn prints_a_label_outside_the_limits(rt: HostRuntime) -> Result<(), Fail> {
    let heap = rt.alloc();
    let text = with(heap, Key::DataBlocks, "Data blocks: 0")?;
    let printed = match read(&text) {
        Ok(label) => format!(in heap; "{label}")?,
        Err(fault) => format!(in heap; "{fault}")?,
    };
    let lines = printed.as_str().lines();
    assert!(rt; lines.count() == 7);
    assert!(rt;
        printed.as_str().contains(
            "Data blocks:     \t0\nData block size: \t512\nHash block size: \t1024\n"
        )
    );
    Ok(())
}

#[test]
fn prints_a_fault(rt: HostRuntime) -> Result<(), Fail> {
    let fault = Fault::Missing(Key::Salt);
    assert_eq!(rt;
        format!(in rt.alloc(); "{fault}")?.as_str(),
        "no line of the label begins with 'Salt:'"
    );
    Ok(())
}

#[test]
fn reads_up_to_the_limits(rt: HostRuntime) -> Result<(), Fail> {
    let heap = rt.alloc();
    let most = with(heap, Key::DataBlocks, "Data blocks: 4294967295")?;
    assert!(rt; read(&most).is_ok_and(|label| label.label().blocks == u32::MAX));
    let above = with(heap, Key::DataBlocks, "Data blocks: 4294967296")?;
    assert_eq!(rt; read(&above).err(), Some(Fault::Malformed(Key::DataBlocks)));
    let mut salt = String::from_str(heap, "Salt: ")?;
    for _ in 0..256 {
        salt.push_str("5a")?;
    }
    let longest = with(heap, Key::Salt, salt.as_str())?;
    assert!(rt; read(&longest).is_ok_and(|label| label.salt().len() == 256));
    salt.push_str("5a")?;
    let too_long = with(heap, Key::Salt, salt.as_str())?;
    assert_eq!(rt; read(&too_long).err(), Some(Fault::Malformed(Key::Salt)));
    let other = with(heap, Key::HashAlgorithm, "Hash algorithm: sha512")?;
    assert_eq!(rt; read(&other).err(), Some(Fault::Malformed(Key::RootHash)));
    Ok(())
}
