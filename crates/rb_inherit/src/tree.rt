//! The tree at a place as JSON, with one call a level.

ghost use Rattle.std.specs.Prelude.{◌≡◌, ◌≤◌, ◌++◌, ◌∷◌, [], IfOk, decimal, drop, length};
ghost use Rattle.std.specs.Prelude.{map, take};
ghost use Rattle.json.specs.Print.{quoted};
ghost use Rattle.rb_tree.specs.Parts.{children_of, kind_of};
ghost use Rattle.rb_tree.specs.declared.kind.Kind.TheVariants as Kinds;
ghost use Rattle.rb_json.specs.Value.{key_text};
ghost use Rattle.rb_inherit.specs.Merged.{IsAt, IsTree, IsValue, item, tables};
ghost use Rattle.rb_inherit.specs.inner.Earlier.{here_of, layered_in, part_of};
ghost use Rattle.rb_inherit.specs.inner.Merging.{AddsNext, FindsAt, moved, next_parts};
ghost use Rattle.rb_inherit.specs.inner.Written.{WritesItems, WritesMembers};
ghost use Rattle.rb_inherit.specs.Merged.{Writes};

use crate::error::WalkError;
use crate::follow::add_child;
use crate::found::Found;
use crate::leaf::{put_error, put_leaf};
use crate::place::{Level, Place};
use crate::shelves::Stops;
use rb_json::{Outlet, put_key, skips_items};
use rb_tree::{Kind, Node};

/// Adds the next child of a layer to what the place has, unless that is final.
fn take_at<T: Stops>(
    shelves: T,
    place: &mut Place<T::N>,
    found: Found<T::N>,
    i: usize,
) -> Result<Found<T::N>, WalkError>
    ensures adds { IfOk result (λ after. AddsNext T.N.tree (length place.old.keys.items) found
        place.old.layers.items i after place.new.layers.items) }
    ensures keys { place.new.keys.items ≡ place.old.keys.items }
{
    let Some(next) = place.take_child(i) else {
        return Ok(found);
    };
    if found.is_open() {
        add_child(shelves, place, found, next.0, next.1)
    } else {
        Ok(found)
    }
}

/// Returns what the layers from an index on have at a key, and goes past it.
fn found_at<T: Stops>(
    shelves: T,
    place: &mut Place<T::N>,
    from: usize,
    key: &[u8],
) -> Result<Found<T::N>, WalkError>
    requires { from ≤ length place.old.layers.items }
    ensures finds { IfOk result (λ found. FindsAt T.N.tree (length place.old.keys.items) key.now
        from place.old.layers.items found place.new.layers.items) }
    ensures keys { place.new.keys.items ≡ place.old.keys.items }
{
    let mut found = Found::Nothing;
    for i in from..place.layers.len() {
        if place.is_next(i, key) {
            found = take_at(shelves, place, found, i)?;
        }
    }
    Ok(found)
}

/// Takes a step for each layer that is asked for a key, and more for a long key.
fn spend_at<N: Node>(place: &mut Place<N>, layers: usize, key: &[u8]) -> Result<(), WalkError>
    ensures layers { place.new.layers.items ≡ place.old.layers.items }
    ensures keys { place.new.keys.items ≡ place.old.keys.items }
{
    let steps = (key.len() as u64 / 64).saturating_add(1);
    place.spend(steps.saturating_mul(layers as u64))
}

/// Writes the key of an entry.
fn put_name<O: Outlet>(out: &mut O, key: &[u8])
    ensures { O.takes out.old out.new (quoted (key_text key.now) ++ 58 ∷ []) }
{
    put_key(out, key);
    out.put(b":")
}

/// Writes what the layers from an index on have at a key, with at most `levels` levels.
#[cycle(tree)]
fn put_at<T: Stops, O: Outlet>(
    shelves: T,
    place: &mut Place<T::N>,
    out: &mut O,
    from: usize,
    key: &[u8],
    levels: u64,
) -> Result<(), WalkError>
    requires { from ≤ length place.old.layers.items }
    ensures writes { IfOk result (λ _. Writes (O.takes out.old out.new)
        (IsAt (IsTree levels) (length place.old.keys.items) key.now
        (next_parts T.N.tree key.now (drop from place.old.layers.items)))) }
    ensures layers { IfOk result (λ _. place.new.layers.items ≡ take from place.old.layers.items
        ++ map (moved T.N.tree key.now) (drop from place.old.layers.items)) }
    ensures keys { IfOk result (λ _. place.new.keys.items ≡ place.old.keys.items) }
{
    let mark = place.mark();
    place.push_key(key)?;
    let found = found_at(shelves, place, from, key)?;
    put_found(shelves, place, out, found, mark.layers, levels)?;
    place.reset(mark);
    Ok(())
}

/// Writes the entries of the layers from an index on.
#[cycle(tree)]
fn put_entries<T: Stops, O: Outlet>(
    shelves: T,
    place: &mut Place<T::N>,
    out: &mut O,
    from: usize,
    levels: u64,
) -> Result<(), WalkError>
    requires { from ≤ length place.old.layers.items }
    ensures writes { IfOk result (λ _. WritesMembers (O.takes out.old out.new) (IsTree levels)
        (length place.old.keys.items)
        (layered_in T.N.tree (drop from place.old.layers.items))) }
    ensures layers { IfOk result (λ _. take from place.new.layers.items
        ≡ take from place.old.layers.items) }
    ensures keys { IfOk result (λ _. place.new.keys.items ≡ place.old.keys.items) }
{
    let to = place.layers.len();
    for i in 0..place.entry_count(from, to) {
        let first = place.least(from, to);
        let Some(layer) = place.layer(first) else {
            break;
        };
        let Some(key) = layer.key() else {
            break;
        };
        if skips_items(out, i) {
            return Ok(());
        }
        spend_at(place, to.saturating_sub(first), key)?;
        put_name(out, key);
        put_at(shelves, place, out, from, key, levels)?;
    }
    if place.has_key(from, to) {
        // more entries than a count of them can be
        return Err(WalkError::TreeTooLarge);
    }
    Ok(())
}

/// Writes an item of an array.
#[cycle(tree)]
fn put_element<T: Stops, O: Outlet>(
    shelves: T,
    place: &mut Place<T::N>,
    out: &mut O,
    child: T::N,
    level: Level,
    i: usize,
    levels: u64,
) -> Result<(), WalkError>
    ensures writes { IfOk result (λ _. Writes (O.takes out.old out.new)
        (IsAt (IsTree levels) (length place.old.keys.items) (decimal i)
        (part_of T.N.tree child level ∷ []))) }
    ensures layers { IfOk result (λ _. place.new.layers.items ≡ place.old.layers.items) }
    ensures keys { IfOk result (λ _. place.new.keys.items ≡ place.old.keys.items) }
{
    let mark = place.mark();
    let mut digits = itoa::Buffer::new();
    place.push_key(digits.format(i).as_bytes())?;
    place.spend(1)?;
    let found = add_child(shelves, place, Found::Nothing, child, level)?;
    put_found(shelves, place, out, found, mark.layers, levels)?;
    place.reset(mark);
    Ok(())
}

/// Writes the items of an array.
#[cycle(tree)]
fn put_items<T: Stops, O: Outlet>(
    shelves: T,
    place: &mut Place<T::N>,
    out: &mut O,
    node: T::N,
    level: Level,
    levels: u64,
) -> Result<(), WalkError>
    requires { kind_of (T.N.tree node) ≡ Kinds.Array }
    ensures writes { IfOk result (λ _. WritesItems (O.takes out.old out.new) (IsTree levels)
        (length place.old.keys.items) level.keys_most (children_of (T.N.tree node))) }
    ensures layers { IfOk result (λ _. place.new.layers.items ≡ place.old.layers.items) }
    ensures keys { IfOk result (λ _. place.new.keys.items ≡ place.old.keys.items) }
{
    for i in 0..node.len() {
        if skips_items(out, i) {
            return Ok(());
        }
        put_element(shelves, place, out, node.at(i), level, i, levels)?;
    }
    Ok(())
}

/// Writes what a place has, with at most `levels` levels. Its tables are the layers from an index
/// on.
#[cycle(tree)]
pub(crate) fn put_found<T: Stops, O: Outlet>(
    shelves: T,
    place: &mut Place<T::N>,
    out: &mut O,
    found: Found<T::N>,
    from: usize,
    levels: u64,
) -> Result<(), WalkError>
    requires { from ≤ length place.old.layers.items }
    ensures writes { IfOk result (λ _. Writes (O.takes out.old out.new)
        (IsTree levels (length place.old.keys.items) (here_of T.N.tree found
        (layered_in T.N.tree (drop from place.old.layers.items))))) }
    ensures layers { IfOk result (λ _. take from place.new.layers.items
        ≡ take from place.old.layers.items) }
    ensures keys { IfOk result (λ _. place.new.keys.items ≡ place.old.keys.items) }
{
    if levels == 0 {
        put_error(out, "TooDeep");
        return Ok(());
    }
    match found {
        Found::Tables { .. } => {
            out.put(b"{");
            put_entries(shelves, place, out, from, levels - 1)?;
            out.put(b"}")
        }
        Found::Item { node, level } => match node.kind() {
            Kind::Array => {
                out.put(b"[");
                put_items(shelves, place, out, node, level, levels - 1)?;
                out.put(b"]")
            }
            _ => put_leaf(out, node),
        },
        Found::Failed(error) => put_error(out, error.word()),
        Found::Nothing => put_error(out, "Missing"),
    }
    Ok(())
}
