// What each device refuses, with its number and place, and what is asked below.
use cache::Cache;
use device::{Area, Device};
use digest::{Sha256, Sha512};
use geometry::Label;
use layers::{Level, Place, StorageFault};
use media::{Memory, Outside, Spent, Tape, Turning};
use std::alloc::{AllocError, Global};
use std::test::Fail;
use verity::Verity;

// Of two data blocks, 512 times `a` and 512 times `b`, with the salt `salt`. Python's hashlib computed the digests.
const DIGESTS: &[u8] =
    b"\xf4\x21\xf7\xb6\x1a\x3d\x1e\x5a\xec\x41\x39\x53\x83\x19\x55\x09\x6c\x07\xd6\xca\x51\xe9\xda\x90\x4f\x22\x4a\x87\x78\x31\x53\xd5\x91\xc1\x86\x66\xbf\xa0\x3d\x85\x66\xdf\xc2\x7f\x58\xf5\x42\xd7\x4a\x2c\x3d\x64\x88\xc0\xbf\x0c\x9d\xef\x7a\xe7\x82\xf9\x1c\xe7";

const ROOT: &[u8] =
    b"\x4f\xc8\x4a\xc1\x43\xc3\x4d\xb7\xac\x0c\xba\x21\x2a\xed\xd0\xbe\xc8\x4b\x3a\x6e\x83\x38\xa9\xfd\x9e\xc4\xc6\xe9\x34\x6e\x36\x4b";

fn data(heap: Global) -> Result<Vec<u8>, AllocError> {
    let mut bytes = vec![in heap; b'a'; 512]?;
    bytes.resize(1024, b'b')?;
    Ok(bytes)
}

fn tree(heap: Global) -> Result<Vec<u8>, AllocError> {
    let mut bytes = DIGESTS.to_vec(heap)?;
    bytes.resize(512, 0)?;
    Ok(bytes)
}

fn label() -> Label<'static> {
    Label {
        digest: 1,
        data_block: 512,
        hash_block: 512,
        blocks: 2,
        salt: b"salt",
        root: ROOT,
    }
}

// Why a question is refused, if that leaves zeros in the buffer.
fn refusal<D: Device>(
    device: &mut D,
    area: Area,
    block: u32,
    buf: &mut [u8],
) -> Option<D::Refusal> {
    buf.fill(170);
    let fault = device.ask(area, block, buf).err()?;
    buf.iter().all(|byte| *byte == 0).then_some(fault)
}

#[test]
fn memory_refuses(rt: HostRuntime) -> Result<(), Fail> {
    let data = data(rt.alloc())?;
    let mut memory = Memory {
        data: data.as_slice(),
        tree: b"tree",
    };
    for (area, block, length) in [
        (Area::Data, 2, 512usize),
        (Area::Data, 1, 513),
        (Area::Data, 0, 1025),
        (Area::Data, 1024, 1),
        (Area::Data, u32::MAX, 2000),
        (Area::Data, 0, 0),
        (Area::Data, u32::MAX, 0),
        (Area::Tree, 1, 4),
    ] {
        let mut buf = vec![in rt.alloc(); 0u8; length]?;
        let fault = refusal(&mut memory, area, block, buf.as_mut_slice());
        assert_eq!(rt; fault, Some(Outside { area, block }), "{block} of {length}");
    }
    let mut last = [0; 2];
    assert_eq!(rt; memory.ask(Area::Tree, 1, &mut last), Ok(()));
    assert_eq!(rt; last, *b"ee");
    assert_eq!(rt;
        (Outside {
            area: Area::Data,
            block: 0
        })
        .number(),
        8
    );
    Ok(())
}

#[test]
fn tape_goes_on(rt: HostRuntime) {
    let mut tape = Tape::new(b"abcdef");
    let mut two = [0; 2];
    assert_eq!(rt; tape.ask(Area::Tree, u32::MAX, &mut two), Ok(()));
    assert_eq!(rt; two, *b"ab");
    let spent = Spent {
        area: Area::Data,
        block: 7,
    };
    assert_eq!(rt; refusal(&mut tape, Area::Data, 7, &mut []), Some(spent));
    assert_eq!(rt; refusal(&mut tape, Area::Data, 7, &mut [0; 5]), Some(spent));
    assert_eq!(rt; spent.number(), 9);
    assert_eq!(rt; tape.used(), 2);
    let mut rest = [0; 4];
    assert_eq!(rt; tape.ask(Area::Data, 0, &mut rest), Ok(()));
    assert_eq!(rt; rest, *b"cdef");
    assert_eq!(rt; tape.used(), 6);
}

#[test]
fn card_turns(rt: HostRuntime) {
    let first = Memory {
        data: b"a",
        tree: b"",
    };
    let second = Memory {
        data: b"b",
        tree: b"",
    };
    let mut card = Turning {
        first,
        second,
        left: 2,
    };
    let mut one = [0; 1];
    // a refused question counts too
    for (block, answer, byte) in [
        (1, false, 0),
        (0, true, b'a'),
        (0, true, b'b'),
        (0, true, b'b'),
    ] {
        assert_eq!(rt; card.ask(Area::Data, block, &mut one).is_ok(), answer);
        assert_eq!(rt; one, [byte]);
    }
}

// Why a question to the path check is refused, and how many are asked below for it.
fn checked(
    label: &Label<'_>,
    memory: Memory<'_>,
    area: Area,
    block: u32,
    buf: &mut [u8],
) -> (Option<StorageFault<Outside>>, u64) {
    let turning = Turning {
        first: memory,
        second: memory,
        left: 100,
    };
    let mut check = Verity::new(Sha256, label, turning);
    let fault = refusal(&mut check, area, block, buf);
    (fault, 100u64.saturating_sub(check.into_below().left))
}

#[test]
fn bad_labels_are_refused(rt: HostRuntime) -> Result<(), Fail> {
    let (data, tree) = (data(rt.alloc())?, tree(rt.alloc())?);
    let memory = Memory {
        data: data.as_slice(),
        tree: tree.as_slice(),
    };
    let good = label();
    let bad = [
        Label { digest: 2, ..good },
        Label { blocks: 0, ..good },
        Label {
            data_block: 513,
            ..good
        },
        Label {
            salt: &[0; 257],
            ..good
        },
        Label { root: b"", ..good },
    ];
    for label in bad {
        for (area, block) in [(Area::Data, 0), (Area::Tree, u32::MAX)] {
            let (fault, asked) = checked(&label, memory, area, block, &mut [0; 512]);
            assert_eq!(rt; fault, Some(StorageFault::Label));
            assert_eq!(rt; asked, 0);
        }
    }
    assert_eq!(rt; StorageFault::<Outside>::Label.number(), 2);
    assert_eq!(rt; StorageFault::<Outside>::Label.place(), None);
    Ok(())
}

#[test]
fn only_data_blocks_are_given(rt: HostRuntime) -> Result<(), Fail> {
    let (data, tree) = (data(rt.alloc())?, tree(rt.alloc())?);
    let memory = Memory {
        data: data.as_slice(),
        tree: tree.as_slice(),
    };
    for (area, block, length) in [
        (Area::Tree, 0, 512usize),
        (Area::Data, 2, 512),
        (Area::Data, u32::MAX, 512),
        (Area::Data, 0, 511),
        (Area::Data, 0, 1024),
        (Area::Data, 0, 0),
    ] {
        let mut buf = vec![in rt.alloc(); 0u8; length]?;
        let (fault, asked) = checked(&label(), memory, area, block, buf.as_mut_slice());
        assert_eq!(rt; fault, Some(StorageFault::NoBlock(block)));
        assert_eq!(rt; asked, 0);
    }
    let fault = StorageFault::<Outside>::NoBlock(7);
    assert_eq!(rt; fault.number(), 12);
    assert_eq!(rt;
        fault.place(),
        Some(Place {
            level: Level::Data,
            block: 7
        })
    );
    assert_eq!(rt; Level::Data.number(), 255);
    let (fault, asked) = checked(&label(), memory, Area::Data, 1, &mut [0; 512]);
    assert_eq!(rt; fault, None);
    assert_eq!(rt; asked, 2);
    Ok(())
}

#[test]
fn faults_name_their_block(rt: HostRuntime) -> Result<(), Fail> {
    let (data, tree) = (data(rt.alloc())?, tree(rt.alloc())?);
    let (data, tree) = (data.as_slice(), tree.as_slice());
    let top = Place {
        level: Level::Tree(0),
        block: 0,
    };
    let last = Place {
        level: Level::Data,
        block: 1,
    };
    let no_tree = Outside {
        area: Area::Tree,
        block: 0,
    };
    let no_data = Outside {
        area: Area::Data,
        block: 1,
    };
    let zeros = [0u8; 1024];
    for (data, tree, fault, asked) in [
        (data, b"".as_slice(), StorageFault::Refused(top, no_tree), 1),
        (data, &zeros[..512], StorageFault::Mismatch(top), 1),
        (
            b"".as_slice(),
            tree,
            StorageFault::Refused(last, no_data),
            2,
        ),
        (zeros.as_slice(), tree, StorageFault::Mismatch(last), 2),
    ] {
        let memory = Memory { data, tree };
        let found = checked(&label(), memory, Area::Data, 1, &mut [0; 512]);
        assert_eq!(rt; found, (Some(fault), asked));
    }
    assert_eq!(rt; StorageFault::Refused(top, no_tree).number(), 10);
    assert_eq!(rt; StorageFault::<Outside>::Mismatch(last).number(), 11);
    assert_eq!(rt; StorageFault::<Outside>::Mismatch(last).place(), Some(last));
    Ok(())
}

// The other digest's label number, and its length.
#[test]
fn another_digest_is_refused(rt: HostRuntime) {
    let memory = Memory {
        data: b"",
        tree: b"",
    };
    let mut check = Verity::new(Sha512, &label(), memory);
    let fault = refusal(&mut check, Area::Data, 0, &mut [0; 512]);
    assert_eq!(rt; fault, Some(StorageFault::Label));
}

// How many of the questions, of these blocks and lengths, the cache puts to the device below.
fn asked(heap: Global, area: Area, questions: &[(u32, usize)]) -> Result<u64, AllocError> {
    let bytes = vec![in heap; 7u8; 8194]?;
    let memory = Memory {
        data: bytes.as_slice(),
        tree: bytes.as_slice(),
    };
    let mut mount = Cache::new(Turning {
        first: memory,
        second: memory,
        left: 100,
    });
    for (block, length) in questions {
        let mut buf = vec![in heap; 0u8; *length]?;
        let _ = mount.ask(area, *block, buf.as_mut_slice());
    }
    Ok(100u64.saturating_sub(mount.into_below().left))
}

#[test]
fn four_rows_in_turn(rt: HostRuntime) -> Result<(), Fail> {
    for (blocks, want) in [
        ([0u32, 1, 2, 3, 3, 2, 1, 0], 4u64),
        // the fifth block takes the first's row, and no other's
        ([0, 1, 2, 3, 4, 1, 2, 3], 5),
        ([0, 1, 2, 3, 4, 0, 2, 3], 6),
        ([0, 1, 2, 3, 4, 0, 1, 3], 7),
        // a hit does not move the turn: block 4 takes the row of block 0
        ([0, 1, 2, 3, 0, 0, 4, 0], 6),
        ([0, 1, 2, 3, 0, 0, 4, 1], 5),
        // nor does a refusal, which is not kept
        ([9999, 0, 1, 2, 9999, 3, 0, 9999], 7),
    ] {
        let questions = blocks.map(|block| (block, 1));
        let found = asked(rt.alloc(), Area::Data, &questions)?;
        assert_eq!(rt; found, want, "{blocks:?}");
    }
    Ok(())
}

#[test]
fn another_length_is_another_question(rt: HostRuntime) -> Result<(), Fail> {
    let heap = rt.alloc();
    assert_eq!(rt;
        asked(heap, Area::Tree, &[(0, 1), (0, 2), (0, 1), (0, 2)])?,
        2
    );
    // the longest answer that is kept
    assert_eq!(rt; asked(heap, Area::Data, &[(0, 4096), (0, 4096)])?, 1);
    assert_eq!(rt; asked(heap, Area::Data, &[(0, 4097), (0, 4097)])?, 2);
    // a longer one moves no turn: after it blocks 0 to 3 still have the rows
    let long = [(0, 4097), (0, 1), (1, 1), (0, 4097), (2, 1), (3, 1), (0, 1)];
    assert_eq!(rt; asked(heap, Area::Data, &long)?, 6);
    Ok(())
}

#[test]
fn another_area_is_another_question(rt: HostRuntime) {
    let memory = Memory {
        data: b"d",
        tree: b"t",
    };
    let mut mount = Cache::new(memory);
    let mut one = [0; 1];
    for (area, byte) in [
        (Area::Data, b'd'),
        (Area::Tree, b't'),
        (Area::Data, b'd'),
        (Area::Tree, b't'),
    ] {
        assert_eq!(rt; mount.ask(area, 0, &mut one), Ok(()));
        assert_eq!(rt; one, [byte]);
    }
    let none = Outside {
        area: Area::Tree,
        block: 1,
    };
    assert_eq!(rt; refusal(&mut mount, Area::Tree, 1, &mut one), Some(none));
}
