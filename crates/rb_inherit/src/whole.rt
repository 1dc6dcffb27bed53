ghost use Rattle.std.specs.Prelude.{◌≡◌, ◌↔◌, IfOk, IsTrue, Some, false};
ghost use Rattle.serde_json.specs.Written.{compact_text};
ghost use Rattle.rb_tree.specs.Parts.{kind_of};
ghost use Rattle.rb_tree.specs.Path.{IsPath};
ghost use Rattle.rb_json.specs.Value.{value_of};
ghost use Rattle.rb_parents.specs.Family.{parent_of};
ghost use Rattle.rb_fallback.specs.Answers.{hit_of};
ghost use Rattle.rb_fallback.specs.Search.{first_stop};
ghost use Rattle.rb_inherit.specs.Leaves.{IsLeaf};
ghost use Rattle.rb_inherit.specs.Lookups.{FollowsLookup, IsTreeOf};
ghost use Rattle.rb_inherit.specs.Merged.{IsTreeAt, Writes};
ghost use Rattle.rb_inherit.specs.inner.AtPath.{HasParts, IsNew};

use crate::error::{TreeError, WalkError};
use crate::follow::add_root;
use crate::leaf::put_leaf;
use crate::limits::{STEP_LIMIT, TREE_LIMIT, TreeLimits};
use crate::place::Place;
use crate::shelves::{Shelves, Stops};
use crate::tree::put_found;
use rb_fallback::{Found, look};
use rb_json::{Buffer, Outlet, Room};
use rb_locales::Name;
use rb_parents::{Parents, Shelf};
use rb_tree::{HEIGHT_LIMIT, Kind, Node};
use std::alloc::Global;

/// The length of a tree as JSON, and its locales.
#[derive(Clone, Copy)]
pub struct TreeSize {
    /// The name of the first bundle that has the item at the path.
    pub actual: Name,
    /// The first stop of the requested name's trail.
    pub valid: Name,
    pub bytes: u64,
}

/// Returns the number of steps that a tree may take, and the error if it takes more.
fn steps_of(limits: TreeLimits) -> (u64, WalkError) {
    match limits.steps {
        Some(steps) => {
            if steps <= STEP_LIMIT {
                (steps, WalkError::TooManySteps)
            } else {
                (STEP_LIMIT, WalkError::TreeTooLarge)
            }
        }
        None => (STEP_LIMIT, WalkError::TreeTooLarge),
    }
}

/// Checks whether an item has no children and leads nowhere.
fn is_leaf(kind: Kind) -> bool
    ensures { IsTrue result ↔ IsLeaf kind }
{
    match kind {
        Kind::String | Kind::Int | Kind::Ints | Kind::Binary => true,
        Kind::Alias | Kind::Array | Kind::Table => false,
    }
}

/// Writes what the stops of a name have at a path, at which a lookup finds an item.
fn put_stops<T: Stops, O: Outlet>(
    out: &mut O,
    place: &mut Place<T::N>,
    shelves: T,
    name: &Name,
    path: &[u8],
    item: T::N,
) -> Result<(), WalkError>
    ensures leaf { IfOk result (λ _. IsLeaf (kind_of (T.N.tree item))
        → O.takes out.old out.new (compact_text (value_of (T.N.tree item)))) }
    ensures other { IsNew place.old → IsPath path.now
        → HasParts (T.bundles shelves false) (T.parents shelves) name.now path.now
        → IfOk result (λ _. (IsLeaf (kind_of (T.N.tree item)) → ⊥)
        → Writes (O.takes out.old out.new)
        (IsTreeAt (T.bundles shelves false) (T.parents shelves) name.now path.now)) }
{
    let found = add_root(shelves, place, name, path)?;
    if is_leaf(item.kind()) {
        put_leaf(out, item);
        Ok(())
    } else {
        put_found(shelves, place, out, found, 0, HEIGHT_LIMIT)
    }
}

/// Writes the tree at a path, and returns what a lookup finds there.
fn put_from<'a, S: Shelf<'a>, I: Shelf<'a, N = S::N>, O: Outlet>(
    out: &mut O,
    alloc: Global,
    own: S,
    icu: I,
    parents: &'a Parents,
    name: &Name,
    path: &[u8],
    limits: TreeLimits,
) -> Result<Found<S::N>, TreeError>
    ensures lookup { FollowsLookup (S.bundles own) (I.bundles icu) (parent_of parents.now) name.now
        path.now (λ f hit. (hit ≡ hit_of S.N.tree f) × IsTreeOf (S.bundles own)
        (parent_of parents.now) name.now path.now (O.takes out.old out.new) hit) result }
    ensures valid { IfOk result
        (λ f. first_stop (S.bundles own) (parent_of parents.now) name.now ≡ Some f.valid) }
{
    let found = match look(own, icu, parents, name, path) {
        Ok(found) => found,
        Err(error) => return Err(TreeError::Look(error)),
    };
    let (steps, no_steps) = steps_of(limits);
    let mut place = Place::new(alloc, found.valid, steps, no_steps);
    let shelves = Shelves { own, icu, parents };
    match put_stops(out, &mut place, shelves, name, path, found.node) {
        Ok(()) => Ok(found),
        Err(error) => Err(error.as_tree_error()),
    }
}

/// Writes the item at a path with everything that it inherits as one JSON value, in the form of
/// `rb_json::put_value`. The tables of the stops are merged key by key: the earliest stop that has
/// something at a key decides, unless that is a table. Aliases are followed as a lookup follows
/// them; one that can't be followed becomes `{":error":"Missing"}`, with the error code of a
/// lookup, and an item below 64 levels `{":error":"TooDeep"}`.
///
/// Errors: `Look` if a lookup of the path finds nothing; `TooManySteps` or `TreeTooLarge` once the
/// steps run out; `Memory`. It doesn't limit the length: `tree_size` counts it.
pub fn put_tree<'a, S: Shelf<'a>, I: Shelf<'a, N = S::N>, O: Outlet>(
    out: &mut O,
    alloc: Global,
    own: S,
    icu: I,
    parents: &'a Parents,
    name: &Name,
    path: &[u8],
    limits: TreeLimits,
) -> Result<(), TreeError>
    ensures { FollowsLookup (S.bundles own) (I.bundles icu) (parent_of parents.now) name.now
        path.now (λ _ hit. IsTreeOf (S.bundles own) (parent_of parents.now) name.now path.now
        (O.takes out.old out.new) hit) result }
{
    let _ = put_from(out, alloc, own, icu, parents, name, path, limits)?;
    Ok(())
}

/// Returns the length of what `put_tree` writes and the locales of the item, without writing.
///
/// Errors: those of `put_tree`, and `TreeTooLarge` for more bytes than the limit.
pub fn tree_size<'a, S: Shelf<'a>, I: Shelf<'a, N = S::N>>(
    alloc: Global,
    own: S,
    icu: I,
    parents: &'a Parents,
    name: &Name,
    path: &[u8],
    limits: TreeLimits,
) -> Result<TreeSize, TreeError>
    ensures lookup { FollowsLookup (S.bundles own) (I.bundles icu) (parent_of parents.now) name.now
        path.now (λ size hit. size.actual ≡ hit.actual) result }
    ensures valid { IfOk result
        (λ size. first_stop (S.bundles own) (parent_of parents.now) name.now ≡ Some size.valid) }
{
    let most = TREE_LIMIT.min(limits.bytes);
    let mut room = Room { left: Some(most) };
    let found = put_from(&mut room, alloc, own, icu, parents, name, path, limits)?;
    match room.left {
        Some(left) => Ok(TreeSize {
            actual: found.actual,
            valid: found.valid,
            bytes: most.saturating_sub(left),
        }),
        None => Err(TreeError::TreeTooLarge),
    }
}

/// Returns what `put_tree` writes, within the limits. The errors are those of `tree_size`.
///
/// ```rust
/// tree_text(alloc, shelf, shelf, &parents, &de_at, b"menu", limits)? // {"close":"Zu"}
/// ```
pub fn tree_text<'a, S: Shelf<'a>, I: Shelf<'a, N = S::N>>(
    alloc: Global,
    own: S,
    icu: I,
    parents: &'a Parents,
    name: &Name,
    path: &[u8],
    limits: TreeLimits,
) -> Result<Vec<u8>, TreeError>
    ensures { FollowsLookup (S.bundles own) (I.bundles icu) (parent_of parents.now) name.now
        path.now (λ text hit. IsTreeOf (S.bundles own) (parent_of parents.now) name.now path.now
        (λ bytes. text.items ≡ bytes) hit) result }
{
    let size = tree_size(alloc, own, icu, parents, name, path, limits)?;
    let Ok(bytes) = Vec::with_capacity(alloc, size.bytes as usize) else {
        return Err(TreeError::Memory);
    };
    let mut out = Buffer::from_vec(bytes);
    put_tree(&mut out, alloc, own, icu, parents, name, path, limits)?;
    match out.into_bytes() {
        Ok(bytes) => Ok(bytes),
        Err(_) => Err(TreeError::Memory),
    }
}
