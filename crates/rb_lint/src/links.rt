//! Aliases and parents that lead nowhere.
use rb_tree::{Entries, Tree};

/// The longest name of a locale that is looked at.
const NAME_LIMIT: usize = 64;

const SLASH: u16 = 0x2F;

/// Checks for a character of a locale's name.
fn is_name_unit(unit: u16) -> bool {
    matches!(unit, 0x2D | 0x30..=0x39 | 0x41..=0x5A | 0x5F | 0x61..=0x7A)
}

/// Checks whether units are the ASCII name of a locale.
pub(crate) fn is_named(units: &[u16], name: &[u8]) -> bool {
    for (unit, byte) in units.iter().zip(name) {
        if *unit != u16::from(*byte) {
            return false;
        }
    }
    units.len() == name.len()
}

/// Checks whether all units are characters of a locale's name.
fn is_name(units: &[u16]) -> bool {
    for unit in units {
        if !is_name_unit(*unit) {
            return false;
        }
    }
    units.len() <= NAME_LIMIT
}

/// Checks whether a parent can be that of a bundle with a name: it is a locale's name, or empty for the
/// root's, and not the bundle's own.
pub(crate) fn is_parent(units: &[u16], name: &[u8]) -> bool {
    let is_locale = match units.first() {
        Some(first) => !matches!(*first, 0x2D | 0x30..=0x39 | 0x5F),
        None => true,
    };
    is_locale && is_name(units) && (units.is_empty() || !is_named(units, name))
}

/// Checks whether an entry of a bundle with a key names another bundle.
pub(crate) fn is_bundle_key(key: &[u8]) -> bool {
    key == b"%%ALIAS".as_slice() || key == b"%%Parent".as_slice()
}

/// Checks whether a key is one of ICU's in other letters.
pub(crate) fn is_misspelled(key: &[u8]) -> bool {
    let is_near = key.eq_ignore_ascii_case(b"%%ALIAS") || key.eq_ignore_ascii_case(b"%%Parent");
    is_near && !is_bundle_key(key)
}

/// Returns the entry of a table with a key in units.
fn entry_of<'a>(entries: &'a Entries, key: &[u16]) -> Option<&'a Tree> {
    let mut bytes = [0u8; 64];
    for (byte, unit) in bytes.iter_mut().zip(key) {
        *byte = u8::try_from(*unit).unwrap_or(0);
    }
    entries.get(bytes.get(..key.len())?)
}

/// Returns the number that units spell in decimal.
fn index_of(units: &[u16]) -> Option<usize> {
    let mut index: usize = 0;
    for unit in units {
        if !matches!(*unit, 0x30..=0x39) {
            return None;
        }
        index = index
            .checked_mul(10)?
            .checked_add(usize::from(*unit & 0xF))?;
    }
    Some(index)
}

/// Returns the item of an array with an index in units.
fn item_of<'a>(items: &'a [Tree], index: &[u16]) -> Option<&'a Tree> {
    match index_of(index) {
        Some(i) => items.get(i),
        None => None,
    }
}

/// The outcome of a walk by a path.
#[derive(Clone, Copy, PartialEq, Eq)]
enum Walked {
    There,
    Nowhere,
    /// An alias is on the way, or a key is long.
    Unknown,
}

fn walk_path(tree: &Tree, path: &[u16]) -> Walked {
    let mut here = tree;
    for segment in path.split(|unit| *unit == SLASH) {
        if segment.len() > NAME_LIMIT {
            return Walked::Unknown;
        }
        let next = match here {
            Tree::Table(entries) => entry_of(entries, segment),
            Tree::Array(items) => item_of(items.as_slice(), segment),
            Tree::Alias(_) => return Walked::Unknown,
            _ => None,
        };
        match next {
            Some(tree) => here = tree,
            None => return Walked::Nowhere,
        }
    }
    Walked::There
}

/// Returns the locale of an alias, without a package's, and its path after a slash.
fn split_alias(units: &[u16]) -> Option<(&[u16], &[u16])> {
    let rest = match units.strip_prefix(&[SLASH]) {
        Some(rest) => rest,
        None => units,
    };
    for (count, unit) in rest.iter().enumerate() {
        if *unit == SLASH {
            return Some(rest.split_at(count));
        }
    }
    None
}

/// Checks whether texts in ascending order have one of these units.
pub(crate) fn has_units(texts: &[Vec<u16>], units: &[u16]) -> bool {
    texts
        .binary_search_by(|text| text.as_slice().cmp(units))
        .is_ok()
}

/// Checks whether an alias of a bundle with a name leads to nothing in the bundle and in the root, as far
/// as both are known. One of the root by `/LOCALE` may lead to what only other locales have.
pub(crate) fn leads_nowhere(
    units: &[u16],
    bundle: &Tree,
    root: Option<&Tree>,
    name: &[u8],
) -> bool {
    let Some((locale, [_, path @ ..])) = split_alias(units) else {
        return false;
    };
    let is_root = name == b"root".as_slice();
    let is_here = is_named(locale, name) || !is_root && is_named(locale, b"LOCALE");
    if path.is_empty() || !is_here && !is_named(locale, b"root") {
        return false;
    }
    let below = match root {
        Some(root) => walk_path(root, path),
        None if is_root => Walked::Nowhere,
        None => Walked::Unknown,
    };
    let above = if is_here {
        walk_path(bundle, path)
    } else {
        Walked::Nowhere
    };
    below == Walked::Nowhere && above == Walked::Nowhere
}
