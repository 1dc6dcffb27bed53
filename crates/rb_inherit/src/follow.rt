//! From an item to what a place has: aliases are followed as a lookup follows them.

ghost use Rattle.std.specs.Prelude.{◌≡◌, ◌<◌, ℕ, [], IfOk, List, None, false, length, map, true};
ghost use Rattle.rb_tree.specs.Path.{IsPath, segments};
ghost use Rattle.rb_parents.specs.Trail.{names, stops, trail};
ghost use Rattle.rb_inherit.specs.Merged.{Decides, alias_fault, at_path, room_below};
ghost use Rattle.rb_inherit.specs.inner.AtPath.{AddsStops, CanAsk, HasParts, IsNew, RefusesAfter};
ghost use Rattle.rb_inherit.specs.inner.AtPath.{RefusesLink, parts_in, path_in};
ghost use Rattle.rb_inherit.specs.inner.Earlier.{Adds, Grows, IsFault, Refuses, Stays, closed_of};
ghost use Rattle.rb_inherit.specs.inner.Earlier.{fault_in, here_of, is_open_of, layered_in, part_of};
ghost use Rattle.rb_inherit.specs.inner.Paths.{steps_of};
ghost use Rattle.rb_inherit.specs.inner.Trails.{IsKept, trees_in};

use crate::error::WalkError;
use crate::found::Found;
use crate::path::{Walked, push_text, push_units, segment_count, walk_on};
use crate::place::{Level, Place};
use crate::shelves::Stops;
use crate::stops::find_stops;
use rb_fallback::{AliasFault, LEVEL_LIMIT, LookError, PATH_LIMIT, Target, read_alias};
use rb_locales::Name;
use rb_parents::TrailFault;
use rb_tree::{Kind, Node};

/// An alias at the end of a walk.
#[derive(Clone, Copy)]
pub(crate) struct Link<N> {
    node: N,
    level: Level,
    /// The number of bytes of the level's path that lead beyond the alias.
    rest: usize,
}

/// The content of a place after a level, and the alias at which the level ends.
#[derive(Clone, Copy)]
pub(crate) struct After<N> {
    found: Found<N>,
    link: Option<Link<N>>,
}

fn ended<N>(found: Found<N>) -> After<N>
    ensures { result ≡ record { found = found; link = None } }
{
    After { found, link: None }
}

fn trail_error(fault: TrailFault) -> LookError {
    match fault {
        TrailFault::Chain => LookError::Chain,
        TrailFault::BadParent => LookError::BadParent,
    }
}

/// Adds the path to which an alias leads to the paths, whose own path begins at a unit of its text.
/// Returns false if it is too long.
fn push_path_to<N: Node>(
    place: &mut Place<N>,
    link: Link<N>,
    path_at: Option<usize>,
) -> Result<bool, WalkError>
    ensures { place.new ≡ record place.old { paths = place.new.paths } }
{
    let begin = place.paths.len();
    match path_at {
        None => {
            place.push_path_end(begin, link.level, link.level.path_len)?;
            place.push_keys_of(begin, link.level)?;
        }
        Some(at) => {
            if link.node.kind() != Kind::Alias || link.node.len().saturating_sub(at) > PATH_LIMIT {
                return Ok(false);
            }
            if push_units(&mut place.paths, link.node, at).is_err() {
                return Err(WalkError::Memory);
            }
            place.push_path_end(begin, link.level, link.rest)?;
        }
    }
    Ok(place.paths.len().saturating_sub(begin) <= PATH_LIMIT)
}

/// Reads the text of an alias.
fn target_of<N: Node>(node: N, valid: &Name) -> Result<Target, LookError>
    ensures { fault_in result ≡ alias_fault (N.tree node) }
{
    if node.kind() != Kind::Alias {
        return Err(LookError::AliasText);
    }
    match read_alias(node, valid) {
        Ok(target) => Ok(target),
        Err(AliasFault::AliasText) => Err(LookError::AliasText),
        Err(AliasFault::AliasPackage) => Err(LookError::AliasPackage),
    }
}

/// Returns the level to which an alias leads, and its name. The errors come in the order of a
/// lookup's.
fn level_of<N: Node>(
    place: &mut Place<N>,
    link: Link<N>,
) -> Result<Result<(Name, Level), LookError>, WalkError>
    ensures rest { place.new ≡ record place.old { paths = place.new.paths } }
    ensures fault { IfOk result (IsFault (alias_fault (N.tree link.node))) }
{
    let target = match target_of(link.node, &place.valid) {
        Ok(target) => target,
        Err(error) => return Ok(Err(error)),
    };
    let number = link.level.number.saturating_add(1);
    if number > LEVEL_LIMIT {
        return Ok(Err(LookError::TooManyAliases));
    }
    let begin = place.paths.len();
    if !push_path_to(place, link, target.path_at)? {
        return Ok(Err(LookError::PathTooLong));
    }
    let icudata = target.icudata | link.level.icudata;
    let level = place.level_from(icudata, number, begin, link.level.keys_most);
    Ok(Ok((target.name, level)))
}

/// Adds what the stops of the last trail have at the end of a level's path, up to one that decides.
#[tactic(auto, using(crate::proofs::Earliest::stays_itself, crate::proofs::Earliest::stays_on, crate::proofs::Earliest::grows_itself, crate::proofs::Earliest::grows_on))]
fn add_stops<N: Node>(
    place: &mut Place<N>,
    before: Found<N>,
    level: Level,
) -> Result<After<N>, WalkError>
    ensures stays { IfOk result (λ after. Stays before after.found) }
    ensures layers { IfOk result (λ _. Grows place.old.layers.items place.new.layers.items) }
    ensures rest { place.new ≡ record place.old { layers = place.new.layers } }
    ensures adds { CanAsk (length place.old.keys.items) place.old.paths.items level before
        → IfOk result (λ after. AddsStops N.tree (length place.old.keys.items)
        (parts_in level.keys_most (map N.tree place.old.trail.roots.items)
        (steps_of (path_in place.old.paths.items level))) before place.old.layers.items
        after.found after.link place.new.layers.items) }
{
    let mut found = before;
    let mut is_missing = true;
    for i in 0..place.trail.roots.len() {
        let root = place.trail.roots[i];
        match walk_on(root, place.path(level)) {
            Walked::Gone => {}
            Walked::End(node) => {
                found = place.add(found, node, level)?;
                is_missing = false;
                if !found.is_open() {
                    return Ok(ended(found));
                }
            }
            Walked::Link(node, rest) => {
                let link = Some(Link { node, level, rest });
                return Ok(After { found, link });
            }
        }
    }
    if is_missing {
        found = found.with_error(LookError::Missing);
    }
    Ok(ended(found))
}

/// Adds what a level of a name has at the end of its path.
#[tactic(auto, using(crate::proofs::Earliest::stays_itself, crate::proofs::Earliest::stays_on, crate::proofs::Earliest::grows_itself, crate::proofs::Earliest::grows_on))]
fn add_level<T: Stops>(
    shelves: T,
    place: &mut Place<T::N>,
    found: Found<T::N>,
    name: &Name,
    level: Level,
) -> Result<After<T::N>, WalkError>
    ensures stays { IfOk result (λ after. Stays found after.found) }
    ensures layers { IfOk result (λ _. Grows place.old.layers.items place.new.layers.items) }
    ensures keys { place.new.keys.items ≡ place.old.keys.items }
    ensures adds { CanAsk (length place.old.keys.items) place.old.paths.items level found
        → IsKept T.N.tree (T.bundles shelves) (T.parents shelves) place.old.trail
        → (ns : List (List ℕ))
        → trail (T.bundles shelves level.icudata) (T.parents shelves) name.now ≡ names ns
        → 0 < length (trees_in (T.bundles shelves level.icudata)
        (stops (T.bundles shelves level.icudata) ns))
        → IfOk result (λ after. AddsStops T.N.tree (length place.old.keys.items)
        (parts_in level.keys_most (trees_in (T.bundles shelves level.icudata)
        (stops (T.bundles shelves level.icudata) ns))
        (steps_of (path_in place.old.paths.items level))) found place.old.layers.items
        after.found after.link place.new.layers.items) }
{
    if let Err(fault) = find_stops(shelves, place, level.icudata, name)? {
        place.spend(1)?;
        return Ok(ended(found.with_error(trail_error(fault))));
    }
    let steps = segment_count(place.path(level)).saturating_add(1);
    place.spend(steps.saturating_mul(place.trail.names))?;
    if place.trail.roots.is_empty() {
        return Ok(ended(found.with_error(LookError::NoBundle)));
    }
    add_stops(place, found, level)
}

/// Adds what the level has to which an alias leads.
#[tactic(auto, using(crate::proofs::Earliest::stays_itself, crate::proofs::Earliest::stays_on, crate::proofs::Earliest::grows_itself, crate::proofs::Earliest::grows_on))]
fn add_link<T: Stops>(
    shelves: T,
    place: &mut Place<T::N>,
    found: Found<T::N>,
    link: Link<T::N>,
) -> Result<After<T::N>, WalkError>
    ensures stays { IfOk result (λ after. Stays found after.found) }
    ensures layers { IfOk result (λ _. Grows place.old.layers.items place.new.layers.items) }
    ensures keys { place.new.keys.items ≡ place.old.keys.items }
    ensures refuses { IfOk result (λ after. RefusesLink (alias_fault (T.N.tree link.node)) found
        place.old.layers.items after.found after.link place.new.layers.items) }
{
    // a long text is read whole, and its tree may have it often
    place.spend((link.node.len() as u64 / 64).saturating_add(1))?;
    match level_of(place, link)? {
        Ok((name, level)) => add_level(shelves, place, found, &name, level),
        Err(error) => Ok(ended(found.with_error(error))),
    }
}

/// Adds what the levels have to which aliases lead, one after another, if a level ends at one. No
/// later stop is asked: the result after an alias is final.
#[tactic(auto, using(crate::proofs::Earliest::stays_itself, crate::proofs::Earliest::stays_on, crate::proofs::Earliest::grows_itself, crate::proofs::Earliest::grows_on))]
fn add_after<T: Stops>(
    shelves: T,
    place: &mut Place<T::N>,
    before: After<T::N>,
) -> Result<Found<T::N>, WalkError>
    ensures stays { IfOk result (Stays before.found) }
    ensures closed { IfOk result (λ after. is_open_of after ≡ false) }
    ensures layers { IfOk result (λ _. Grows place.old.layers.items place.new.layers.items) }
    ensures keys { place.new.keys.items ≡ place.old.keys.items }
    ensures none { before.link ≡ None → IfOk result (λ after. after ≡ closed_of before.found) }
    ensures stay { before.link ≡ None → place.new ≡ place.old }
    ensures refuses { IfOk result (λ after. RefusesAfter T.N.tree before.link before.found
        place.old.layers.items after place.new.layers.items) }
{
    let After { found, link } = before;
    let Some(first) = link else {
        return Ok(found.with_error(LookError::Missing));
    };
    let first = add_link(shelves, place, found, first)?;
    let mut found = first.found;
    let mut link = first.link;
    'links: for _ in 0..LEVEL_LIMIT {
        let Some(here) = link else {
            break;
        };
        let after = add_link(shelves, place, found, here)?;
        found = after.found;
        link = after.link;
    }
    Ok(found.with_error(LookError::Missing))
}

/// Adds a child of a table or an array to what the place has, which its key already names.
pub(crate) fn add_child<T: Stops>(
    shelves: T,
    place: &mut Place<T::N>,
    found: Found<T::N>,
    node: T::N,
    level: Level,
) -> Result<Found<T::N>, WalkError>
    requires { is_open_of found ≡ true }
    ensures adds { IfOk result (λ after. Adds T.N.tree (length place.old.keys.items)
        (part_of T.N.tree node level) found place.old.layers.items after place.new.layers.items) }
    ensures keys { place.new.keys.items ≡ place.old.keys.items }
{
    if place.is_long(level) {
        return Ok(found.with_error(LookError::PathTooLong));
    }
    match node.kind() {
        Kind::Alias => {
            let rest = 0;
            let link = Some(Link { node, level, rest });
            add_after(shelves, place, After { found, link })
        }
        Kind::Table => place.add_table(found, node, level),
        _ => Ok(found.with_item(node, level)),
    }
}

/// Adds what the stops of a name have at the path of a tree.
pub(crate) fn add_root<T: Stops>(
    shelves: T,
    place: &mut Place<T::N>,
    name: &Name,
    path: &[u8],
) -> Result<Found<T::N>, WalkError>
    ensures keys { IfOk result (λ _. place.new.keys.items ≡ place.old.keys.items) }
    ensures decides { IsNew place.old → IsPath path.now
        → (p : HasParts (T.bundles shelves false) (T.parents shelves) name.now path.now)
        → IfOk result (λ found. Decides 0 (at_path (room_below (length path.now))
        (T.bundles shelves false) (stops (T.bundles shelves false) p.ns) (segments path.now))
        (here_of T.N.tree found (layered_in T.N.tree place.new.layers.items))) }
{
    let begin = place.paths.len();
    let Ok(()) = push_text(&mut place.paths, path) else {
        return Err(WalkError::Memory);
    };
    let level = place.level_from(false, 1, begin, usize::MAX);
    let after = add_level(shelves, place, Found::Nothing, name, level)?;
    add_after(shelves, place, after)
}
