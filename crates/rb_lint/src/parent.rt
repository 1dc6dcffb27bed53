use crate::links::is_named;
use rb_tree::{Entries, Tree};

/// The locale that a text inherits from.
#[derive(Clone, Copy, PartialEq, Eq)]
pub(crate) enum Parent {
    /// The root: what the text lacks is missing in its language.
    Root,
    /// Another locale, which may have what the text lacks.
    Other,
}

const ROOT: &[u8] = b"root";

/// Returns the parent that an explicit `%%Parent` names, if there is one.
fn explicit_parent(entries: &Entries) -> Option<Parent> {
    match entries.get(b"%%Parent")? {
        Tree::String(units) if is_named(units.as_slice(), ROOT) => Some(Parent::Root),
        _ => Some(Parent::Other),
    }
}

impl Parent {
    /// Returns the parent of a bundle with this name: the one that its `%%Parent` names, else the
    /// explicit one, else the root if the name has one part, as `de`, and another locale if it has
    /// more, as `de_AT`.
    pub(crate) fn of(name: &[u8], tree: &Tree, explicit: Option<&[u8]>) -> Parent {
        let named = match tree {
            Tree::Table(entries) => explicit_parent(entries),
            _ => None,
        };
        match (named, explicit) {
            (Some(parent), _) => parent,
            (None, Some(parent)) if parent == ROOT => Parent::Root,
            (None, Some(_)) => Parent::Other,
            (None, None) if name.contains(&b'_') || name.contains(&b'-') => Parent::Other,
            (None, None) => Parent::Root,
        }
    }
}
