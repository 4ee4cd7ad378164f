// What the digests refuse, and what they leave in the buffer then.
use crate::message::pattern;
use digest::{Digest, LIMIT, Refusal, Sha256, Sha512};
use std::test::Fail;

// Whether the call is refused, with the buffer all zeros.
fn refused<D: Digest>(digest: &D, first: &[u8], second: &[u8], out: &mut [u8]) -> bool {
    out.fill(7);
    digest.digest(first, second, out) == Err(Refusal::Length) && all_zeros(out)
}

fn all_zeros(bytes: &[u8]) -> bool {
    bytes.iter().all(|byte| *byte == 0)
}

#[test]
fn refuses_long_messages(rt: HostRuntime) -> Result<(), Fail> {
    let bytes = pattern(rt.alloc(), LIMIT + 1)?;
    for at in [0usize, 1, 64, 2176, 4352, 4353] {
        assert!(rt; at <= bytes.len());
        let (first, second) = bytes.as_slice().split_at(at);
        assert!(rt; refused(&Sha256, first, second, &mut [0; 32]));
        assert!(rt; refused(&Sha512, first, second, &mut [0; 64]));
    }
    Ok(())
}

#[test]
fn refuses_other_buffers(rt: HostRuntime) {
    assert!(rt; refused(&Sha256, b"a", b"bc", &mut [0; 0]));
    assert!(rt; refused(&Sha256, b"a", b"bc", &mut [0; 31]));
    assert!(rt; refused(&Sha256, b"a", b"bc", &mut [0; 33]));
    assert!(rt; refused(&Sha256, b"a", b"bc", &mut [0; 64]));
    assert!(rt; refused(&Sha512, b"a", b"bc", &mut [0; 32]));
}

#[test]
fn accepts_the_limit(rt: HostRuntime) -> Result<(), Fail> {
    let bytes = pattern(rt.alloc(), LIMIT)?;
    assert!(rt; bytes.len() == LIMIT);
    let (first, second) = bytes.as_slice().split_at(1);
    let mut short = [0u8; 32];
    let mut long = [0u8; 64];
    assert!(rt; Sha256.digest(first, second, &mut short).is_ok());
    assert!(rt; Sha512.digest(first, second, &mut long).is_ok());
    assert!(rt; !all_zeros(&short) && !all_zeros(&long));
    Ok(())
}
