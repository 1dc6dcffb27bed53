//! Tests reading numbers, bytes and keys.
use rb_grammar::{read_bytes, read_element, read_int};
use rb_tree::key_ok;
use std::alloc::{AllocError, Global};
use std::test::Fail;

fn units(alloc: Global, text: &str) -> Result<Vec<u16>, AllocError> {
    let mut units = Vec::new(alloc);
    for byte in text.as_bytes() {
        units.push(*byte as u16)?;
    }
    Ok(units)
}

/// Texts of integers, each with the number, or with `none`.
const INTS: &str = "\
1|1
268435455|268435455
-134217728|134217728
010|8
0x10|16
268435456|none
-134217729|none
09|none
x|none
|none";

/// Checks a row of `INTS`. Returns None if the row can't be read.
fn is_int(alloc: Global, row: &str) -> Option<bool> {
    let (text, number) = row.split_once('|')?;
    let found = read_int(&units(alloc, text).ok()?);
    if number == "none" {
        return Some(found.is_none());
    }
    Some(found == Some(number.parse().ok()?))
}

#[test]
fn reads_ints(rt: HostRuntime) -> Result<(), Fail> {
    for row in INTS.lines() {
        assert!(rt; is_int(rt.alloc(), row) == Some(true), "{row}");
    }
    let nines = vec![in rt.alloc(); b'9' as u16; 1_000_000]?;
    assert!(rt; read_int(&nines).is_none() && read_element(&nines).is_none());
    Ok(())
}

/// Texts of elements of vectors, each with the number, or with `none`.
const ELEMENTS: &str = "\
1|1
-1|-1
4294967295|-1
0x80000000|-2147483648
-2147483648|-2147483648
4294967296|none
-2147483649|none";

/// Checks a row of `ELEMENTS`. Returns None if the row can't be read.
fn is_element(alloc: Global, row: &str) -> Option<bool> {
    let (text, number) = row.split_once('|')?;
    let found = read_element(&units(alloc, text).ok()?);
    if number == "none" {
        return Some(found.is_none());
    }
    Some(found == Some(number.parse().ok()?))
}

#[test]
fn reads_elements(rt: HostRuntime) {
    for row in ELEMENTS.lines() {
        assert!(rt; is_element(rt.alloc(), row) == Some(true), "{row}");
    }
}

/// Checks whether a text spells these bytes.
fn spells(alloc: Global, text: &str, bytes: &[u8]) -> Result<bool, Fail> {
    Ok(match read_bytes(alloc, &units(alloc, text)?)? {
        Some(found) => found.as_slice() == bytes,
        None => false,
    })
}

/// Checks whether a text is refused as bytes.
fn spells_nothing(alloc: Global, text: &str) -> Result<bool, Fail> {
    Ok(read_bytes(alloc, &units(alloc, text)?)?.is_none())
}

#[test]
fn reads_bytes_and_keys(rt: HostRuntime) -> Result<(), Fail> {
    let alloc = rt.alloc();
    assert!(rt; spells(alloc, "00 ff 7F", &[0, 255, 127])?);
    assert!(rt; spells(alloc, "0 0", &[0])?);
    assert!(rt; spells(alloc, " ", &[])?);
    assert!(rt; spells_nothing(alloc, "0")?);
    assert!(rt; key_ok(b"a b~"));
    assert!(rt; !key_ok(b""));
    Ok(())
}
