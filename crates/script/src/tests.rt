// A line of each form, and a line that answers it.
use crate::{Call, Name, PathWord, Reply};
use device::{Area, Device};
use layers::{Level, Place, StorageFault};
use media::{Counting, Memory, Outside};
use std::test::Fail;
use text::HexText;
use volume::{Entry, Kind, PathFault, VolumeFault};

#[test]
fn reads_lines(rt: HostRuntime) {
    let plain = |path| PathWord::Plain(path);
    for (line, call) in [
        ("begin", Some(Call::Begin)),
        (
            "open dir/a b",
            Some(Call::Open {
                path: plain(b"dir/a b".as_slice()),
            }),
        ),
        (
            "open =2F00",
            HexText::new(b"2F00").map(|digits| Call::Open {
                path: PathWord::Hex(digits),
            }),
        ),
        (
            "read 0 18446744073709551615 7",
            Some(Call::Read {
                handle: 0,
                offset: usize::MAX,
                length: 7,
            }),
        ),
        (
            "whole 12 0",
            Some(Call::Whole {
                handle: 12,
                length: 0,
            }),
        ),
        (
            "list 3 128",
            Some(Call::List {
                index: 3,
                length: 128,
                path: plain(b"".as_slice()),
            }),
        ),
        ("close 4", Some(Call::Close { handle: 4 })),
        ("begin now", None),
        ("open =2g", None),
        ("read 0 1 2 3", None),
        ("whole +1 0", None),
        ("close 18446744073709551616", None),
    ] {
        assert_eq!(rt; Call::parse(line), call, "{line}");
    }
}

#[test]
fn answers_by_lines(rt: HostRuntime) -> Result<(), Fail> {
    let entry = Entry {
        kind: Kind::Directory,
        executable: true,
        size: 0,
    };
    let outside = Outside {
        area: Area::Tree,
        block: 0,
    };
    let top = Place {
        level: Level::Tree(2),
        block: 0,
    };
    let storage = StorageFault::Refused(top, outside);
    let refusal = calls::Refusal::Path(PathFault::Volume(3, VolumeFault::Storage(96, storage)));
    let buf = b"gg\0".as_slice();
    for (reply, line) in [
        (Reply::Listed { entry, buf }, "list ok d x 0 676700"),
        (
            Reply::Refused {
                call: Name::List,
                refusal,
                buf: Some(b"\0\0".as_slice()),
            },
            "list refused path@3(volume@96(10[level 2 block 0](8[tree 0]))) buf 0000",
        ),
    ] {
        let found = format!(in rt.alloc(); "{reply}")?;
        assert_eq!(rt; found.as_str(), line);
    }
    let sentence = format!(in rt.alloc(); "{refusal}")?;
    assert_eq!(rt;
        sentence.as_str(),
        "10: tree block 0 on level 2 is refused (8: block 0 of the tree area is not all there), reading from byte 96 of the volume on, for byte 3 of the path"
    );
    Ok(())
}

#[test]
fn each_question_counts(rt: HostRuntime) {
    let mut counted = Counting::new(Memory {
        data: b"d",
        tree: b"",
    });
    let mut one = [0; 1];
    assert_eq!(rt; counted.ask(Area::Data, 0, &mut one), Ok(()));
    assert_eq!(rt; one, *b"d");
    let none = Outside {
        area: Area::Data,
        block: 1,
    };
    assert_eq!(rt; counted.ask(Area::Data, 1, &mut one), Err(none));
    assert_eq!(rt; counted.asked(), 2);
}
