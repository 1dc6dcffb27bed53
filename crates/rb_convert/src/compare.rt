//! The items in which two trees differ.
use crate::difference::{DiffPrinter, Value};
use rb_compare::{Member, Walk, are_equal};
use rb_tree::{HEIGHT_LIMIT, Kind, Node};
use rb_views::Item;
use std::alloc::{AllocError, Global};
use std::io::Write;

/// The indexes of the trees in a walk.
const OLD: usize = 0;

const NEW: usize = 1;

/// Checks whether an item is a table or an array.
fn has_children<N: Node>(node: N) -> bool {
    matches!(node.kind(), Kind::Array | Kind::Table)
}

/// Checks whether an item is a table or an array with items in it.
fn has_items<N: Node>(node: N) -> bool {
    has_children(node) && node.len() > 0
}

/// Enters the items at the path of a walk. Returns false if they are to be printed: they differ, and
/// have no items in them. If both trees have an item and only one has items in it, the old one
/// comes first.
fn enter(walk: &mut Walk<Item<'_>>) -> Result<bool, AllocError> {
    match (walk.node(OLD), walk.node(NEW)) {
        (Some(old), Some(new)) if has_children(old) && old.kind() == new.kind() => {
            walk.enter(&[Member::of(OLD, old), Member::of(NEW, new)])?;
        }
        (Some(old), Some(new)) if are_equal(old, new, HEIGHT_LIMIT) => {}
        (Some(old), Some(new)) if has_items(old) || has_items(new) => {
            walk.add(&[Member::of(NEW, new)])?;
            walk.add(&[Member::of(OLD, old)])?;
        }
        (Some(old), None) if has_items(old) => walk.enter(&[Member::of(OLD, old)])?,
        (None, Some(new)) if has_items(new) => walk.enter(&[Member::of(NEW, new)])?,
        _ => return Ok(false),
    }
    Ok(true)
}

/// Prints the items in which two trees differ, of which one may be missing, by their paths in
/// ascending order. Of tables and arrays the items in them are printed, or the empty ones
/// themselves. An error comes only if memory for a path runs out.
pub(crate) fn compare<'a, W: Write + Drop>(
    printer: &mut DiffPrinter<W>,
    alloc: Global,
    old: Option<Item<'a>>,
    new: Option<Item<'a>>,
) -> Result<(), AllocError> {
    let mut roots = Vec::new(alloc);
    if let Some(old) = old {
        roots.push(Member::of(OLD, old))?;
    }
    if let Some(new) = new {
        roots.push(Member::of(NEW, new))?;
    }
    let mut walk = Walk::new(alloc);
    walk.add(&roots)?;
    for _ in 0..u64::MAX {
        if printer.out.has_failed() || !walk.advance()? {
            break;
        }
        if !enter(&mut walk)? {
            let (old, new) = (walk.node(OLD), walk.node(NEW));
            printer.report(walk.path(), Value::of_item(old), Value::of_item(new));
        }
    }
    Ok(())
}
