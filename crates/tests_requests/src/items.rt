use rb_requests::item_text;
use rb_tree::{Tree, UnitList, path_ok};
use std::alloc::Global;

/// Checks whether an alias with these units, and the remaining segments of a path, has a text.
fn is_text(alloc: Global, units: &[u16], rest: &[u8], text: &str) -> bool {
    let Ok(units) = units.to_vec(alloc) else {
        return false;
    };
    if !path_ok(rest) {
        return false;
    }
    match item_text(alloc, &Tree::Alias(UnitList::from_vec(units)), rest) {
        Ok(found) => found.as_str() == text,
        Err(_) => false,
    }
}

fn are_texts(alloc: Global) -> bool {
    let text = "{\"rest\":\"x\",\"type\":\"alias\",\"value\":\"/a\"}";
    let no_rest = "{\"rest\":\"\",\"type\":\"alias\",\"value\":\"a\"}";
    let no_text = "{\"rest\":\"b/1\",\"type\":\"alias\",\"units\":[55296]}";
    is_text(alloc, &[0x2F, 0x61], b"x", text)
        && is_text(alloc, &[0x61], b"", no_rest)
        && is_text(alloc, &[0xD800], b"b/1", no_text)
}

#[test]
fn aliases_have_a_rest(rt: HostRuntime) {
    assert!(rt; are_texts(rt.alloc()));
}
