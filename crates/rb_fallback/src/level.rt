//! One level of a search: one pass over a trail, which stores no name.
ghost use Rattle.std.specs.Prelude.{◌≡◌, ◌++◌, ◌∷◌, [], List, ℕ, Some, option_map};
ghost use Rattle.rb_tree.specs.SourceTree.{SourceTree};
ghost use Rattle.rb_tree.specs.Path.{IsPath, segments};
ghost use Rattle.rb_parents.specs.Trail.{Bundles, stop_tree, stops, trail};
ghost use Rattle.rb_parents.specs.Family.{parent_of};
ghost use Rattle.rb_fallback.specs.Search.{by_stops, first_of, first_stop, level};
ghost use Rattle.rb_fallback.specs.Steps.{trail_length};
ghost use Rattle.rb_fallback.specs.inner.LevelResult.{IsLevel, IsLevelState};
ghost use Rattle.rb_fallback.specs.inner.Reached.{reached_of};
ghost use Rattle.rb_fallback.specs.inner.Visits.{visited};

use crate::fault::LookError;
use crate::stops::{At, Reached};
use crate::watch::{Visit, Watch};
use rb_locales::Name;
use rb_parents::{Next, Parents, Shelf, TRAIL_LIMIT, visit};
use rb_tree::{Ending, Node, walk};

/// Stores the first stop of a level so far, and the walk that decides with its stop.
#[derive(Clone, Copy)]
pub(crate) struct LevelState<N> {
    pub(crate) first: Option<Name>,
    pub(crate) actual: Name,
    pub(crate) ending: Ending<N>,
}

/// Stores what a level gives: its first stop, and the walk that decides with its stop.
#[derive(Clone, Copy)]
pub(crate) struct LevelResult<N> {
    pub(crate) first: Name,
    pub(crate) actual: Name,
    pub(crate) ending: Ending<N>,
}

impl<N: Node> LevelResult<N> {
    /// Returns where the walk that decides ended, and how.
    pub(crate) fn reached(&self) -> Reached<N>
        ensures { result ≡ reached_of self.now }
    {
        Reached {
            at: At::Bundle(self.actual),
            ending: self.ending,
        }
    }
}

/// Adds a stop, whose bundle is walked only if no earlier stop decides.
fn add_stop<N: Node>(state: &mut LevelState<N>, name: &Name, root: N, path: &[u8])
    requires { IsPath path.now }
    ensures { (b : Bundles) → (all : List (List ℕ)) → stop_tree (b name.now) ≡ Some (N.tree root)
        → IsLevelState N.tree b path.now state.old all
        → IsLevelState N.tree b path.now state.new (all ++ name.now ∷ []) }
{
    state.first = Some(state.first.unwrap_or(*name));
    if let Ending::Gone = state.ending {
        state.actual = *name;
        state.ending = walk(root, path);
    }
}

/// Adds a name, which is a stop if `stop` has its root.
fn add_name<N: Node>(state: &mut LevelState<N>, name: &Name, stop: Option<N>, path: &[u8])
    requires { IsPath path.now }
    ensures { (b : Bundles) → (ns : List (List ℕ)) → option_map N.tree stop
        ≡ stop_tree (b name.now) → IsLevelState N.tree b path.now state.old (stops b ns)
        → IsLevelState N.tree b path.now state.new (stops b (ns ++ name.now ∷ [])) }
{
    match stop {
        Some(root) => add_stop(state, name, root, path),
        None => {}
    }
}

/// Returns what a search did at a name, from the root of its bundle if it is a stop, and from the
/// ends of the walks before and after the name.
fn visited<N: Node>(stop: Option<N>, before: &Ending<N>, after: &Ending<N>) -> Visit<N>
    ensures { result ≡ visited stop before.now after.now }
{
    let Some(root) = stop else {
        return Visit::NoStop;
    };
    match *before {
        Ending::Gone => Visit::Walked(root, *after),
        Ending::End(_) | Ending::Link(_, _) => Visit::Skipped,
    }
}

/// Adds a name as `add_name` does, and reports it to the observer.
fn ask<N: Node, W: Watch>(
    state: &mut LevelState<N>,
    name: &Name,
    stop: Option<N>,
    path: &[u8],
    next: &Next,
    watch: &mut W,
)
    requires { IsPath path.now }
    ensures { (b : Bundles) → (ns : List (List ℕ)) → option_map N.tree stop
        ≡ stop_tree (b name.now) → IsLevelState N.tree b path.now state.old (stops b ns)
        → IsLevelState N.tree b path.now state.new (stops b (ns ++ name.now ∷ [])) }
{
    let before = state.ending;
    add_name(state, name, stop, path);
    watch.name(name, path, visited(stop, &before, &state.ending), next);
}

/// Returns what the stops of a whole trail give, or `NoBundle` or `Missing`.
fn decided<N: Node>(state: &LevelState<N>, path: &[u8]) -> Result<LevelResult<N>, LookError>
    ensures { (b : Bundles) → (all : List (List ℕ)) → IsLevelState N.tree b path.now state.now all
        → IsLevel N.tree result path.now (by_stops b all (segments path.now)) (first_of all) }
{
    let first = match state.first {
        Some(first) => first,
        None => return Err(LookError::NoBundle),
    };
    match state.ending {
        Ending::Gone => Err(LookError::Missing),
        ending => Ok(LevelResult {
            first,
            actual: state.actual,
            ending,
        }),
    }
}

/// Finds the trail of a name and the first of its stops in which the path leads somewhere, and sets
/// `names` to the length of the trail.
///
/// The whole trail is read even after a stop has decided, since a later name can make it invalid:
/// `Chain` and `BadParent` come before what the stops give, and leave `names` at 0.
pub(crate) fn level<'a, S: Shelf<'a>, W: Watch>(
    shelf: S,
    parents: &Parents,
    name: &Name,
    path: &[u8],
    names: &mut u8,
    watch: &mut W,
) -> Result<LevelResult<S::N>, LookError>
    requires { IsPath path.now }
    ensures level { IsLevel S.N.tree result path.now
        (level (S.bundles shelf) (parent_of parents.now) name.now (segments path.now))
        (first_stop (S.bundles shelf) (parent_of parents.now) name.now) }
    ensures names { names.new
        ≡ trail_length (trail (S.bundles shelf) (parent_of parents.now) name.now) }
{
    *names = 0;
    let mut here = *name;
    let mut state = LevelState {
        first: None,
        actual: *name,
        ending: Ending::Gone,
    };
    for i in 0..TRAIL_LIMIT {
        let (next, stop) = visit(shelf, parents, &here);
        ask(&mut state, &here, stop, path, &next, watch);
        match next {
            Next::Name(name) => here = name,
            Next::End => {
                *names = i as u8 + 1;
                return decided(&state, path);
            }
            Next::Bad => return Err(LookError::BadParent),
        }
    }
    Err(LookError::Chain)
}
