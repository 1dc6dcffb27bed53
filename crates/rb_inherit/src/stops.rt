//! The stops of trails. Most aliases lead to the valid locale, so the last trail is kept.

ghost use Rattle.std.specs.Prelude.{◌≡◌, ℕ, IfOk, List, Some, false, map, option_and_then};
ghost use Rattle.std.specs.Prelude.{option_map, slice_get, true};
ghost use Rattle.rb_inherit.specs.inner.Trails.{IsKept, IsTrailOf, tree_in, trees_in};

use crate::error::WalkError;
use crate::place::Place;
use crate::shelves::Stops;
use rb_locales::Name;
use rb_parents::{Route, TrailFault};
use rb_tree::Node;
use std::alloc::Global;

/// The stops of the last trail that was found.
#[derive(Drop)]
pub(crate) struct LastTrail<N> {
    /// False before the first trail.
    is_known: bool,
    icudata: bool,
    name: Name,
    /// The number of its names.
    pub(crate) names: u64,
    /// The roots of its stops.
    pub(crate) roots: Vec<N>,
}

impl<N: Node> LastTrail<N> {
    /// Returns no trail.
    pub(crate) fn new(alloc: Global, name: Name) -> LastTrail<N>
        ensures { result.is_known ≡ false }
    {
        LastTrail {
            is_known: false,
            icudata: false,
            name,
            names: 0,
            roots: Vec::new(alloc),
        }
    }

    /// Checks whether it is the trail of a name.
    fn is_of(&self, icudata: bool, name: &Name) -> bool
        ensures known { result ≡ true → self.now.is_known ≡ true }
        ensures icudata { result ≡ true → self.now.icudata ≡ icudata }
        ensures name { result ≡ true → self.now.name ≡ name.now }
    {
        self.is_known && self.icudata == icudata && self.name.as_bytes() == name.as_bytes()
    }
}

/// Returns the root of the stop at an index of a trail.
fn root_at<T: Stops>(shelves: T, icudata: bool, route: &Route, i: usize) -> Option<T::N>
    ensures { (ns : List (List ℕ))
        → map (slice_get route.now.names.items) route.now.stops.items ≡ map Some ns
        → option_map T.N.tree result
        ≡ option_and_then (tree_in (T.bundles shelves icudata)) (slice_get ns i) }
{
    let Some(stop) = route.stops.get(i) else {
        return None;
    };
    let Some(name) = route.names.get(*stop as usize) else {
        return None;
    };
    shelves.root(icudata, name)
}

/// Returns the roots of the stops of a trail.
fn roots_of<T: Stops>(
    alloc: Global,
    shelves: T,
    icudata: bool,
    route: &Route,
) -> Result<Vec<T::N>, WalkError>
    ensures { (ns : List (List ℕ))
        → map (slice_get route.now.names.items) route.now.stops.items ≡ map Some ns
        → IfOk result
        (λ roots. map T.N.tree roots.items ≡ trees_in (T.bundles shelves icudata) ns) }
{
    let mut roots = Vec::new(alloc);
    for i in 0..route.stops.len() {
        if let Some(root) = root_at(shelves, icudata, route, i) {
            let Ok(()) = roots.push(root) else {
                return Err(WalkError::Memory);
            };
        }
    }
    Ok(roots)
}

/// Makes the trail of a name the last one, unless it is.
pub(crate) fn find_stops<T: Stops>(
    shelves: T,
    place: &mut Place<T::N>,
    icudata: bool,
    name: &Name,
) -> Result<Result<(), TrailFault>, WalkError>
    ensures rest { place.new ≡ record place.old { trail = place.new.trail } }
    ensures trail { IsKept T.N.tree (T.bundles shelves) (T.parents shelves) place.old.trail
        → IfOk result (IsTrailOf T.N.tree (T.bundles shelves icudata)
        (T.parents shelves) name.now place.new.trail.roots.items) }
    ensures kept { IsKept T.N.tree (T.bundles shelves) (T.parents shelves) place.old.trail
        → IsKept T.N.tree (T.bundles shelves) (T.parents shelves) place.new.trail }
{
    if place.trail.is_of(icudata, name) {
        return Ok(Ok(()));
    }
    let route = match shelves.route(icudata, name) {
        Ok(route) => route,
        Err(fault) => return Ok(Err(fault)),
    };
    let roots = roots_of(place.alloc, shelves, icudata, &route)?;
    place.trail = LastTrail {
        is_known: true,
        icudata,
        name: *name,
        names: route.names.len() as u64,
        roots,
    };
    Ok(Ok(()))
}
