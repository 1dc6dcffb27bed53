//! The bundles that a locale inherits from.
use crate::fault::CoverageFault;
use rb_locales::Name;
use rb_parents::{ListShelf, Parents, Route, trail};
use rb_tree::Tree;
use std::alloc::{AllocError, Global};

/// A locale that is compared.
#[derive(Drop)]
pub(crate) struct Chain {
    /// The index of its bundle.
    pub(crate) locale: usize,
    /// The indexes of the bundles that it inherits from, the nearest first.
    pub(crate) parents: Vec<usize>,
}

/// Returns the index of the first bundle with a name.
pub(crate) fn index_of(module: &[(Name, Tree, bool)], name: &Name) -> Option<usize> {
    for (i, bundle) in module.iter().enumerate() {
        if bundle.0 == *name {
            return Some(i);
        }
    }
    None
}

/// Returns the indexes of the bundles at a route's stops.
fn stops_of(
    alloc: Global,
    module: &[(Name, Tree, bool)],
    route: &Route,
) -> Result<Vec<usize>, AllocError> {
    let mut stops = Vec::new(alloc);
    for stop in route.stops.as_slice() {
        let Some(name) = route.names.as_slice().get(usize::from(*stop)) else {
            continue;
        };
        if let Some(i) = index_of(module, name) {
            stops.push(i)?;
        }
    }
    Ok(stops)
}

/// Returns what the locale of a bundle inherits from, or None if the bundle only names another one,
/// or is the root's.
fn chain_of(
    alloc: Global,
    module: &[(Name, Tree, bool)],
    parents: &Parents,
    locale: usize,
) -> Result<Option<Chain>, CoverageFault> {
    let Some(bundle) = module.get(locale) else {
        return Ok(None);
    };
    if bundle.0 == Name::root() {
        return Ok(None);
    }
    let route = match trail(ListShelf { entries: module }, parents, &bundle.0) {
        Ok(route) => route,
        Err(fault) => return Err(CoverageFault::Trail(locale, fault)),
    };
    let Ok(mut stops) = stops_of(alloc, module, &route) else {
        return Err(CoverageFault::Memory);
    };
    if stops.first() != Some(&locale) {
        return Ok(None);
    }
    stops.remove(0);
    Ok(Some(Chain {
        locale,
        parents: stops,
    }))
}

/// Returns what each locale of a module inherits from, in the order of the bundles.
pub(crate) fn chains_of(
    alloc: Global,
    module: &[(Name, Tree, bool)],
    parents: &Parents,
) -> Result<Vec<Chain>, CoverageFault> {
    let mut chains = Vec::new(alloc);
    for i in 0..module.len() {
        let Some(chain) = chain_of(alloc, module, parents, i)? else {
            continue;
        };
        if chains.push(chain).is_err() {
            return Err(CoverageFault::Memory);
        }
    }
    Ok(chains)
}
