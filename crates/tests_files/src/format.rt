use crate::samples::{ONE_STRING, ONE_STRING_WITHOUT_FALLBACK, Sample, bytes_of};
use rb_format::{
    Attributes, FileFault, Header, ItemKind, half, has_valid_indexes, item_kind, item_offset,
    item_type, key_at, word,
};
use std::alloc::Global;

fn is_header(file: &[u8], minor: u8, fault: Option<FileFault>) -> bool {
    match Header::read(file) {
        Ok(header) => fault.is_none() && header.size == 32 && header.minor == minor,
        Err(found) => fault == Some(found),
    }
}

/// Checks the header of the sample with one string and another minor version.
fn is_minor(alloc: Global, minor: u8, fault: Option<FileFault>) -> bool {
    let words = ONE_STRING.words;
    match bytes_of(alloc, Sample { minor, words }) {
        Some(file) => is_header(file.as_slice(), minor, fault),
        None => false,
    }
}

fn are_minors(alloc: Global) -> bool {
    for minor in [1, 2, 3, 255] {
        if !is_minor(alloc, minor, None) {
            return false;
        }
    }
    is_minor(alloc, 0, Some(FileFault::FormatVersion))
}

#[test]
fn minor_versions_are_read(rt: HostRuntime) {
    assert!(rt; are_minors(rt.alloc()));
}

/// Minor versions, and the attributes of data with the flag.
const VERSIONS: [(u8, u32); 3] = [(1, 0), (2, 1), (3, 1)];

/// Checks whether data has the flag in each minor version but the first.
fn has_flag(body: &[u8]) -> bool {
    if !has_valid_indexes(body) {
        return false;
    }
    for (minor, bits) in VERSIONS {
        if Attributes::of(minor, body) != (Attributes { bits }) {
            return false;
        }
    }
    true
}

fn is_flagged(file: Option<Vec<u8>>) -> bool {
    match file {
        Some(file) => has_flag(file.get(32..).unwrap_or(&[])),
        None => false,
    }
}

/// Attributes, each with its flag and whether it has pool bits.
const BITS: [(u32, bool, bool); 7] = [
    (0, false, false),
    (1, true, false),
    (2, false, true),
    (3, true, true),
    (4, false, true),
    (5, true, true),
    (8, false, false),
];

fn are_bits() -> bool {
    for (bits, no_fallback, has_pool) in BITS {
        let attributes = Attributes { bits };
        if (attributes.no_fallback(), attributes.has_pool()) != (no_fallback, has_pool) {
            return false;
        }
    }
    true
}

#[test]
fn attributes_are_read(rt: HostRuntime) {
    let file = bytes_of(rt.alloc(), ONE_STRING_WITHOUT_FALLBACK);
    assert!(rt; is_flagged(file) && are_bits());
}

const WORDS: [(usize, Option<u32>); 4] = [
    (0, Some(0x2000_0009)),
    (7, Some(1)),
    (10, Some(7)),
    (11, None),
];

const HALVES: [(usize, Option<u16>); 4] = [
    (16, Some(98)),
    (19, Some(24)),
    (21, Some(0)),
    (22, None),
];

fn has_numbers(body: &[u8]) -> bool {
    for (i, number) in WORDS {
        if word(body, i) != number {
            return false;
        }
    }
    for (i, number) in HALVES {
        if half(body, i) != number {
            return false;
        }
    }
    true
}

/// Checks whether there is a key at byte 24 alone, of these four.
fn has_key(body: &[u8]) -> bool {
    key_at(body, 24) == Some(&b"a"[..])
        && key_at(body, 23).is_none()
        && key_at(body, 25).is_none()
        && key_at(body, 28).is_none()
}

fn has_fields(file: &[u8]) -> bool {
    let body = file.get(32..).unwrap_or(&[]);
    has_numbers(body)
        && has_key(body)
        && is_header(file, 1, None)
        && is_header(file.get(..31).unwrap_or(&[]), 1, Some(FileFault::Header))
}

fn is_one_string(file: Option<Vec<u8>>) -> bool {
    match file {
        Some(file) => has_fields(file.as_slice()),
        None => false,
    }
}

/// Checks what the word of a table at word 9 says.
fn is_table_word(word: u32) -> bool {
    item_type(word) == 2 && item_offset(word) == 9 && item_kind(word) == Some(ItemKind::Table)
}

#[test]
fn fields_are_read(rt: HostRuntime) {
    let file = bytes_of(rt.alloc(), ONE_STRING);
    assert!(rt; is_one_string(file) && is_table_word(0x2000_0009));
}
