use crate::heap::Heap;
use crate::piece::unquoted;
use rb_compare::shortened;

/// The maximum length of a placeholder's name in a message, in bytes.
const SHOWN_NAME: usize = 100;

/// Returns a unit as it is shown in a name, which may be long.
fn shown_unit(unit: u16, is_long: bool) -> char {
    match char::from_u32(u32::from(unit)) {
        Some(c) if c.is_ascii() || !is_long => c,
        _ => '?',
    }
}

/// Returns a name as UTF-8, with `?` for each half of a pair. Of a long name it has the first and the last
/// characters, with `?` for those that aren't ASCII.
pub(crate) fn shown_name(heap: &mut Heap, units: &[u16]) -> Vec<u8> {
    let is_long = units.len() > SHOWN_NAME;
    let mut name = String::new(heap.alloc);
    for unit in units {
        heap.note(name.push(shown_unit(*unit, is_long)));
    }
    if is_long {
        heap.list(shortened(heap.alloc, name.as_bytes(), SHOWN_NAME))
    } else {
        name.into_bytes()
    }
}

/// The maximum number of characters of a source in a message.
const SHOWN_CHARACTERS: usize = 60;

/// Returns the first characters of a source, with `?` for each control character.
pub(crate) fn shown_source(heap: &mut Heap, bytes: &[u8]) -> Vec<u8> {
    let mut shown = String::new(heap.alloc);
    let source = str::from_utf8(unquoted(bytes)).unwrap_or("?");
    for c in source.chars().take(SHOWN_CHARACTERS) {
        heap.note(shown.push(if c.is_control() { '?' } else { c }));
    }
    if source.chars().nth(SHOWN_CHARACTERS).is_some() {
        heap.note(shown.push_str(".."));
    }
    shown.into_bytes()
}
