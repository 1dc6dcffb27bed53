//! The bundles that a tree is read from, without the lifetime of their shelves: functions that call
//! each other can't have it in a bound.

ghost use Rattle.std.specs.Prelude.{◌≡◌, Bool, IfOk, Some, map, option_map, slice_get};
ghost use Rattle.rb_parents.specs.Answers.{trail_of};
ghost use Rattle.rb_parents.specs.Family.{parent_of};
ghost use Rattle.rb_parents.specs.Trail.{Bundles, ParentsOf, stops, trail};
ghost use Rattle.rb_fallback.specs.Search.{bundles_of};
ghost use Rattle.rb_inherit.specs.inner.Trails.{tree_in};

use rb_locales::Name;
use rb_parents::{Parents, Route, Shelf, TrailFault, trail};
use rb_tree::Node;

/// Gives trails, and the roots of bundles, of the application or of ICUDATA.
pub(crate) trait Stops: Copy {
    type N: Node;

    /// The bundles of ICUDATA, or those of the application.
    ghost bundles: { Self → Bool → Bundles };

    ghost parents: { Self → ParentsOf };

    /// Returns the trail of a name.
    fn route(self, icudata: bool, name: &Name) -> Result<Route, TrailFault>
        ensures names { trail_of result ≡ trail (bundles self icudata) (parents self) name.now }
        ensures stops { IfOk result (λ r. map (slice_get r.names.items) r.stops.items
            ≡ map Some (stops (bundles self icudata) r.names.items)) };

    /// Returns the root of a name's bundle.
    fn root(self, icudata: bool, name: &Name) -> Option<Self::N>
        ensures { option_map Self.N.tree result ≡ tree_in (bundles self icudata) name.now };
}

/// The bundles of an application and of ICUDATA, with explicit parents.
#[derive(Clone, Copy)]
pub(crate) struct Shelves<'a, S, I> {
    pub(crate) own: S,
    pub(crate) icu: I,
    pub(crate) parents: &'a Parents,
}

/// Returns the root of a name's bundle on a shelf.
fn root_on<'a, S: Shelf<'a>>(shelf: S, name: &Name) -> Option<S::N>
    ensures { option_map S.N.tree result ≡ tree_in (S.bundles shelf) name.now }
{
    match shelf.bundle(name) {
        Some((root, _)) => Some(root),
        None => None,
    }
}

impl<'a, S: Shelf<'a>, I: Shelf<'a, N = S::N>> Stops for Shelves<'a, S, I> {
    type N = S::N;

    ghost bundles = { λ s. bundles_of (S.bundles s.own) (I.bundles s.icu) };

    ghost parents = { λ s. parent_of s.parents.now };

    fn route(self, icudata: bool, name: &Name) -> Result<Route, TrailFault> {
        if icudata {
            trail(self.icu, self.parents, name)
        } else {
            trail(self.own, self.parents, name)
        }
    }

    fn root(self, icudata: bool, name: &Name) -> Option<S::N> {
        if icudata {
            root_on(self.icu, name)
        } else {
            root_on(self.own, name)
        }
    }
}
