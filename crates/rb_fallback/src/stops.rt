//! The stops of a trail that was read before a lookup.
ghost use Rattle.std.specs.Prelude.{◌≡◌, ℕ, List, None, Option, option_map};
ghost use Rattle.rb_tree.specs.Resource.{Resource};
ghost use Rattle.rb_tree.specs.Path.{IsPath};
ghost use Rattle.rb_fallback.specs.inner.Reached.{Decides, found_at, given_stop, name_at, stop_name};

use crate::fault::LookError;
use crate::found::Found;
use rb_locales::Name;
use rb_parents::{Shelf, TRAIL_LIMIT};
use rb_tree::{Ending, Node, walk};

/// The stops of a trail that was read before, in their order.
pub trait Stops<'a>: Copy {
    type N: Node;

    /// The name of the stop at an index, and the tree of its bundle.
    ghost stop: { Self → ℕ → Option (List ℕ × Resource) };

    /// Returns the root of the bundle at an index, or `None` after the last stop.
    fn root(self, i: usize) -> Option<Self::N>
        ensures { option_map Self.N.tree result ≡ option_map (λ s. s.1) (stop self i) };

    /// Returns the name of the stop at an index, or `None` after the last stop.
    fn name(self, i: usize) -> Option<Name>
        ensures { result ≡ option_map (λ s. s.0) (stop self i) };
}

/// Says where a walk ended: at the stop with this index, or in the bundle with this name.
#[derive(Clone, Copy)]
pub(crate) enum At {
    Stop(usize),
    Bundle(Name),
}

/// Stores how the walk that decides at a level ends, and where.
#[derive(Clone, Copy)]
pub(crate) struct Reached<N> {
    pub(crate) at: At,
    pub(crate) ending: Ending<N>,
}

/// Stores an item that was found, and where. Who wants the name of its bundle reads it there.
#[derive(Clone, Copy)]
pub(crate) struct FoundAt<N> {
    pub(crate) node: N,
    pub(crate) at: At,
}

impl<N: Node> FoundAt<N> {
    /// Adds the names of its bundle and of the first stop.
    pub(crate) fn named<'a, T: Stops<'a>>(self, given: Option<T>, valid: Name) -> Found<N>
        ensures { result ≡ found_at (given_stop T.stop given) self valid }
    {
        Found {
            node: self.node,
            actual: name_at(given, self.at),
            valid,
        }
    }
}

/// The stops of a search from a name, which are not read before: none.
#[derive(Clone, Copy)]
pub(crate) struct NoStops<S>(S);

impl<'a, S: Shelf<'a>> Stops<'a> for NoStops<S> {
    type N = S::N;

    ghost stop = { λ s i. None };

    fn root(self, _i: usize) -> Option<S::N> {
        None
    }

    fn name(self, _i: usize) -> Option<Name> {
        None
    }
}

/// Finds the first stop in which the path leads somewhere, or returns `NoBundle` or `Missing`.
/// Reads no name, so that a lookup of an item copies none.
#[inline(always)]
pub(crate) fn first_ending<'a, T: Stops<'a>>(
    given: T,
    path: &[u8],
) -> Result<Reached<T::N>, LookError>
    requires { IsPath path.now }
    ensures { Decides T.N.tree (T.stop given) path.now result }
{
    if let None = given.root(0) {
        return Err(LookError::NoBundle);
    }
    for i in 0..TRAIL_LIMIT {
        let Some(root) = given.root(i) else {
            return Err(LookError::Missing);
        };
        let ending = walk(root, path);
        if let Ending::Gone = ending {
            continue;
        }
        let at = At::Stop(i);
        return Ok(Reached { at, ending });
    }
    Err(LookError::Missing)
}

/// Returns the name of a stop; of one that isn't there, the root's.
pub(crate) fn stop_name<'a, T: Stops<'a>>(given: T, i: usize) -> Name
    ensures { result ≡ stop_name (T.stop given) i }
{
    match given.name(i) {
        Some(name) => name,
        None => Name::root(),
    }
}

/// Returns the name of the bundle where a walk ended.
fn name_at<'a, T: Stops<'a>>(given: Option<T>, at: At) -> Name
    ensures { result ≡ name_at (given_stop T.stop given) at }
{
    let i = match at {
        At::Bundle(name) => return name,
        At::Stop(i) => i,
    };
    match given {
        Some(stops) => stop_name(stops, i),
        None => Name::root(),
    }
}
