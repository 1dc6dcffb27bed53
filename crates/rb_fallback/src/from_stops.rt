//! Lookups from the stops of a trail that was read before.
ghost use Rattle.std.specs.Prelude.{◌≡◌, ◌≢◌, ◌↔◌, ℕ, List, Option, Err, IfOk, IfSome};
ghost use Rattle.std.specs.Prelude.{None, Some, false};
ghost use Rattle.rb_tree.specs.Path.{IsPath, segments};
ghost use Rattle.rb_parents.specs.Family.{parent_of};
ghost use Rattle.rb_fallback.specs.Answers.{bounded_answer_of};
ghost use Rattle.rb_fallback.specs.FoundNode.{IsNodeOf};
ghost use Rattle.rb_fallback.specs.Search.{first_stop, setting};
ghost use Rattle.rb_fallback.specs.Steps.{look_up_limited};
ghost use Rattle.rb_fallback.specs.Stops.{AreStopsOf, CountsTrail};
ghost use Rattle.rb_fallback.specs.inner.Budget.{search_within};
ghost use Rattle.rb_fallback.specs.inner.Reached.{answer_at, stop_name};
ghost use Rattle.rb_fallback.specs.declared.fault.BoundedError.TheVariants as Bounded;
ghost use Rattle.rb_fallback.specs.declared.fault.LookError.TheVariants as Faults;

use crate::fault::{BoundedError, LookError};
use crate::found::Found;
use crate::limits::PATH_LIMIT;
use crate::path::is_path;
use crate::search::search_after;
use crate::steps::{TrailNames, left_after};
use crate::stops::{FoundAt, Stops, first_ending, stop_name};
use rb_parents::{Parents, Shelf};
use rb_tree::Ending;

/// Looks a path up from the name whose stops are given and whose trail has these numbers of names,
/// in at most `left` steps. `None` is no limit; then the numbers may be any. A lookup that follows
/// no alias reads no name.
#[inline(always)]
fn search_from<'a, T: Stops<'a>, S: Shelf<'a, N = T::N>, I: Shelf<'a, N = T::N>>(
    stops: T,
    names: TrailNames,
    own: S,
    icu: I,
    parents: &Parents,
    path: &[u8],
    left: Option<u64>,
) -> Result<FoundAt<T::N>, BoundedError>
    ensures bad_path { (result ≡ Err (Bounded.Search Faults.BadPath)) ↔ (IsPath path.now → ⊥) }
    ensures answer { (name : List ℕ)
        → AreStopsOf (T.stop stops) (S.bundles own) (parent_of parents.now) name
        → IfSome left (λ _. CountsTrail names (S.bundles own) (parent_of parents.now) name)
        → IsPath path.now → answer_at T.N.tree (T.stop stops) result ≡ search_within left 256
        (setting (S.bundles own) (I.bundles icu) (parent_of parents.now) name) false name
        (segments path.now) }
    ensures valid { (name : List ℕ)
        → AreStopsOf (T.stop stops) (S.bundles own) (parent_of parents.now) name
        → IfOk result (λ _. first_stop (S.bundles own) (parent_of parents.now) name
        ≡ Some (stop_name (T.stop stops) 0)) }
    ensures few { left ≡ None → result ≢ Err Bounded.TooManySteps }
{
    if !is_path(path) {
        return Err(BoundedError::Search(LookError::BadPath));
    }
    if path.len() > PATH_LIMIT {
        return Err(BoundedError::Search(LookError::PathTooLong));
    }
    let reached = first_ending(stops, path);
    let left = left_after(left, names.all, path)?;
    let reached = reached?;
    if let Ending::End(node) = reached.ending {
        return Ok(FoundAt {
            node,
            at: reached.at,
        });
    }
    let valid = stop_name(stops, 0);
    search_after(
        Some(stops),
        names.from_valid,
        own,
        icu,
        parents,
        &valid,
        &reached,
        path,
        left,
        &mut (),
    )
}

/// Looks a path up as `look_within` does, in at most `left` steps, from the name whose stops are
/// given and whose trail has these numbers of names. `None` is no limit; then the numbers may be
/// any. Only the stops up to the one that decides are read.
///
/// The errors are those of `look_within` from a name whose trail is valid. Allocates nothing.
///
/// ```rust
/// let found = look_from(stops, names, shelf, shelf, &parents, b"menu/open", Some(10_000))?;
/// // What `look_within` finds from the name whose stops these are.
/// ```
pub fn look_from<'a, T: Stops<'a>, S: Shelf<'a, N = T::N>, I: Shelf<'a, N = T::N>>(
    stops: T,
    names: TrailNames,
    own: S,
    icu: I,
    parents: &Parents,
    path: &[u8],
    left: Option<u64>,
) -> Result<Found<T::N>, BoundedError>
    ensures few { left ≡ None → result ≢ Err Bounded.TooManySteps }
    ensures bad_path { (result ≡ Err (Bounded.Search Faults.BadPath)) ↔ (IsPath path.now → ⊥) }
    ensures answer { (name : List ℕ)
        → AreStopsOf (T.stop stops) (S.bundles own) (parent_of parents.now) name
        → IfSome left (λ _. CountsTrail names (S.bundles own) (parent_of parents.now) name)
        → IsPath path.now → bounded_answer_of T.N.tree result
        ≡ look_up_limited left (S.bundles own) (I.bundles icu) (parent_of parents.now) name
        (segments path.now) }
    ensures valid { (name : List ℕ)
        → AreStopsOf (T.stop stops) (S.bundles own) (parent_of parents.now) name
        → IfOk result (λ f. first_stop (S.bundles own) (parent_of parents.now) name
        ≡ Some f.valid) }
{
    let found = search_from(stops, names, own, icu, parents, path, left)?;
    Ok(found.named(Some(stops), stop_name(stops, 0)))
}

/// Looks a path up as `look_from` does, and returns the node alone. A lookup that follows no alias
/// copies no name.
///
/// ```rust
/// let node = find_from(stops, names, shelf, shelf, &parents, b"menu/open", Some(10_000))?;
/// // The node that `look_from` finds.
/// ```
pub fn find_from<'a, T: Stops<'a>, S: Shelf<'a, N = T::N>, I: Shelf<'a, N = T::N>>(
    stops: T,
    names: TrailNames,
    own: S,
    icu: I,
    parents: &Parents,
    path: &[u8],
    left: Option<u64>,
) -> Result<T::N, BoundedError>
    ensures few { left ≡ None → result ≢ Err Bounded.TooManySteps }
    ensures found { IsNodeOf result (λ found.
        ((found ≡ Err (Bounded.Search Faults.BadPath)) ↔ (IsPath path.now → ⊥))
        × ((name : List ℕ)
        → AreStopsOf (T.stop stops) (S.bundles own) (parent_of parents.now) name
        → IfSome left (λ _. CountsTrail names (S.bundles own) (parent_of parents.now) name)
        → IsPath path.now → bounded_answer_of T.N.tree found
        ≡ look_up_limited left (S.bundles own) (I.bundles icu) (parent_of parents.now) name
        (segments path.now))
        × ((name : List ℕ)
        → AreStopsOf (T.stop stops) (S.bundles own) (parent_of parents.now) name
        → IfOk found (λ f. first_stop (S.bundles own) (parent_of parents.now) name
        ≡ Some f.valid))) }
{
    let found = search_from(stops, names, own, icu, parents, path, left)?;
    Ok(found.node)
}
