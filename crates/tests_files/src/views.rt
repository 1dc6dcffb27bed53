use crate::samples::{EVERY_TYPE, bytes_of, file_of_alias};
use rb_tree::{Kind, Node};
use rb_validator::{Bundle, accept};
use rb_views::{Ints, Item, Table, Units, root};
use std::alloc::Global;

fn bundle(alloc: Global, file: Option<Vec<u8>>) -> Option<Bundle> {
    match accept(alloc, file?) {
        Ok(bundle) => Some(bundle),
        Err(_) => None,
    }
}

fn is_text(units: Option<Units<'_>>, text: &[u16]) -> bool {
    let Some(units) = units else {
        return false;
    };
    for i in 0..units.len() {
        if text.get(i) != Some(&units.at(i)) {
            return false;
        }
    }
    units.len() == text.len()
}

fn are_numbers(ints: Option<Ints<'_>>, numbers: &[i32]) -> bool {
    match ints {
        Some(ints) => ints.len() == 2 && [ints.at(0), ints.at(1)].as_slice() == numbers,
        None => false,
    }
}

/// Checks whether an item has the call that gives this kind's value, and none of the others.
fn is_only(item: Item<'_>, kind: Kind) -> bool {
    let there = [
        item.text().is_some(),
        item.alias().is_some(),
        item.binary().is_some(),
        item.int().is_some(),
        item.uint().is_some(),
        item.ints().is_some(),
        item.array().is_some(),
        item.table().is_some(),
    ];
    let wanted = [
        kind == Kind::String,
        kind == Kind::Alias,
        kind == Kind::Binary,
        kind == Kind::Int,
        kind == Kind::Int,
        kind == Kind::Ints,
        kind == Kind::Array,
        kind == Kind::Table,
    ];
    there == wanted
}

/// The keys of the file with an item of each type.
const KINDS: [(&[u8], Kind); 8] = [
    (b"a", Kind::String),
    (b"b", Kind::Binary),
    (b"c", Kind::Alias),
    (b"d", Kind::Int),
    (b"e", Kind::Ints),
    (b"f", Kind::Array),
    (b"g", Kind::Table),
    (b"h", Kind::Table),
];

fn has_kinds(table: Table<'_>) -> bool {
    for (key, kind) in KINDS {
        match table.get(key) {
            Some(item) if is_only(item, kind) => {}
            _ => return false,
        }
    }
    true
}

fn has_texts(table: Table<'_>) -> Option<bool> {
    let (a, b, c) = (table.get(b"a")?, table.get(b"b")?, table.get(b"c")?);
    Some(
        is_text(a.text(), &[0x78])
            && b.binary() == Some(&[0x00, 0xFF, 0x7F][..])
            && is_text(c.alias(), &[0x64, 0x65]),
    )
}

fn has_numbers(table: Table<'_>) -> Option<bool> {
    let (d, e) = (table.get(b"d")?, table.get(b"e")?);
    Some(d.int() == Some(-3) && d.uint() == Some(0x0FFF_FFFD) && are_numbers(e.ints(), &[1, -1]))
}

/// Checks whether the array has two items, first an Int, and the long table two entries.
fn has_children(table: Table<'_>) -> Option<bool> {
    let (f, h) = (table.get(b"f")?.array()?, table.get(b"h")?);
    Some(f.len() == 2 && f.item(0).uint() == Some(5) && h.len() == 2)
}

fn has_every_kind(bundle: Option<Bundle>) -> Option<bool> {
    let bundle = bundle?;
    let table = root(&bundle).table()?;
    Some(has_kinds(table) && has_texts(table)? && has_numbers(table)? && has_children(table)?)
}

#[test]
fn every_kind_is_viewed(rt: HostRuntime) {
    let alloc = rt.alloc();
    let bundle = bundle(alloc, bytes_of(alloc, EVERY_TYPE));
    assert!(rt; has_every_kind(bundle) == Some(true));
}

/// Counts the marked blocks of a file with an alias of twice this many letters, and those letters
/// that can be skipped from one on.
fn passed_over(alloc: Global, pairs: u16, from: usize) -> Option<(usize, usize)> {
    let bundle = bundle(alloc, file_of_alias(alloc, pairs))?;
    let marked = bundle.blocks().iter().filter(|marked| **marked).count();
    let alias = root(&bundle).table()?.get(b"a")?;
    match alias.kind() {
        Kind::Alias if from <= alias.len() => Some((marked, alias.segment_run(from))),
        _ => None,
    }
}

/// Checks three aliases. The text begins at half word 16, and of 5,000 letters the blocks from
/// 1,024 to 4,096 have letters alone.
fn are_passed_over(alloc: Global) -> bool {
    passed_over(alloc, 2_500, 2_000) == Some((3, 2_080))
        && passed_over(alloc, 2_500, 4_500) == Some((3, 0))
        && passed_over(alloc, 500, 0) == Some((0, 0))
}

#[test]
fn blocks_of_long_aliases_are_passed_over(rt: HostRuntime) {
    assert!(rt; are_passed_over(rt.alloc()));
}
