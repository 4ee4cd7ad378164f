// Names, digits and digests as others write them.
use crate::{Bytes, Digits, Function, UnknownFunction};
use digest::Refusal;
use std::test::Fail;

#[test]
fn reads_the_names_it_prints(rt: HostRuntime) -> Result<(), Fail> {
    for function in Function::all() {
        let name = format!(in rt.alloc(); "{function}")?;
        assert_eq!(rt; name.as_str().parse::<Function>(), Ok(*function));
    }
    for name in ["", "sha256 ", "SHA256", "sha384", "sha5120"] {
        assert_eq!(rt; name.parse::<Function>(), Err(UnknownFunction));
    }
    Ok(())
}

#[test]
fn reads_digits_of_both_cases(rt: HostRuntime) -> Result<(), Fail> {
    let bytes = Bytes::<3>::from_hex(b"00fFa9");
    assert!(rt; bytes.is_some_and(|bytes| bytes.as_slice() == b"\x00\xff\xa9".as_slice()));
    let printed = format!(in rt.alloc(); "{}", Digits(b"\x00\xff\xa9"))?;
    assert_eq!(rt; printed.as_str(), "00ffa9");
    for text in ["0", "0g", "zz", "00f", "00000000"] {
        assert!(rt; Bytes::<3>::from_hex(text.as_bytes()).is_none());
    }
    Ok(())
}

// FIPS 180-4's example, in two parts; and one byte above the limit.
#[test]
fn joins_the_parts(rt: HostRuntime) -> Result<(), Fail> {
    let found = Function::Sha256.sum(b"a", b"bc").ok();
    let printed = match &found {
        Some(sum) => format!(in rt.alloc(); "{}", Digits(sum.as_slice()))?,
        None => String::new(rt.alloc()),
    };
    assert_eq!(rt;
        printed.as_str(),
        "ba7816bf8f01cfea414140de5dae2223b00361a396177a9cb410ff61f20015ad"
    );
    let refused = Function::Sha512.sum(&[0; 4352], b"a");
    assert_eq!(rt; refused.err(), Some(Refusal::Length));
    Ok(())
}
