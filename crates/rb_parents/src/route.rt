ghost use Rattle.std.specs.Prelude.{◌≡◌, ◌++◌, ◌∷◌, [], ◌<◌, if◌then◌else◌, IfOk, IfSome};
ghost use Rattle.std.specs.Prelude.{option_map, Some, None, map, slice_get};
ghost use Rattle.rb_tree.specs.Parts.{kind_of, units_of};
ghost use Rattle.rb_tree.specs.declared.kind.Kind.TheVariants as Kinds;
ghost use Rattle.rb_locales.specs.Locale.{name};
ghost use Rattle.rb_parents.specs.Family.{parent_of};
ghost use Rattle.rb_parents.specs.Trail.{text_at, named_next, plain_next, next, is_stop, stop_tree};
ghost use Rattle.rb_parents.specs.Trail.{stops, places, trail, alias_key, parent_key};
ghost use Rattle.arrayvec.specs.ArrayVec.{array_vec_len};
ghost use Rattle.rb_parents.specs.Answers.{trail_of};
ghost use Rattle.rb_parents.specs.Steps.{next_of};

use crate::child::child_of_kind;
use crate::fault::TrailFault;
use crate::limits::TRAIL_LIMIT;
use crate::parents::Parents;
use crate::shelf::Shelf;
use arrayvec::ArrayVec;
use rb_locales::Name;
use rb_tree::{Kind, Node};

/// The step that follows a name on a trail.
#[derive(Clone, Copy)]
pub enum Next {
    Name(Name),
    End,
    /// A `%%ALIAS` or `%%Parent` that isn't a locale name.
    Bad,
}

/// The names of a trail, and the indices of its stops in ascending order.
#[derive(Drop)]
pub struct Route {
    pub names: ArrayVec<Name, TRAIL_LIMIT>,
    pub stops: ArrayVec<u8, TRAIL_LIMIT>,
}

fn text_node<N: Node>(node: N, key: &[u8]) -> Option<N>
    ensures text { option_map (λ m. units_of (N.tree m)) result ≡ text_at key.now (N.tree node) }
    ensures kind { IfSome result (λ m. kind_of (N.tree m) ≡ Kinds.String) }
{
    child_of_kind(node, key, Kind::String)
}

fn named_parent<N: Node>(text: N) -> Next
    requires { kind_of (N.tree text) ≡ Kinds.String }
    ensures { next_of result ≡ named_next (name (units_of (N.tree text))) }
{
    match Name::read_units(text) {
        Ok(name) => Next::Name(name),
        Err(_) => Next::Bad,
    }
}

/// Returns the step after a name whose bundle, if any, names no other.
fn plain_step(parents: &Parents, name: &Name) -> Next
    ensures { next_of result ≡ plain_next (parent_of parents.now) name.now }
{
    if name.as_bytes() == b"root".as_slice() {
        return Next::End;
    }
    if let Some(parent) = parents.parent(name) {
        return Next::Name(parent);
    }
    match name.shorter() {
        Some(shorter) => Next::Name(shorter),
        None => Next::Name(Name::root()),
    }
}

/// Returns the step after a name, and its bundle's root if the name is a stop. Asks for the bundle
/// once.
pub fn visit<'a, S: Shelf<'a>>(shelf: S, parents: &Parents, name: &Name) -> (Next, Option<S::N>)
    ensures next { next_of result.0 ≡ next (S.bundles shelf) (parent_of parents.now) name.now }
    ensures stop { option_map S.N.tree result.1 ≡ stop_tree (S.bundles shelf name.now) }
{
    let (root, no_fallback) = match shelf.bundle(name) {
        Some(bundle) => bundle,
        None => return (plain_step(parents, name), None),
    };
    if let Some(text) = text_node(root, b"%%ALIAS") {
        return (named_parent(text), None);
    }
    if no_fallback {
        return (Next::End, Some(root));
    }
    if let Some(text) = text_node(root, b"%%Parent") {
        return (named_parent(text), Some(root));
    }
    (plain_step(parents, name), Some(root))
}

#[tactic(auto, using(crate::proofs::Trails::stop_is))]
fn next_step<'a, S: Shelf<'a>>(shelf: S, parents: &Parents, name: &Name) -> (Next, bool)
    ensures next { next_of result.0 ≡ next (S.bundles shelf) (parent_of parents.now) name.now }
    ensures stop { result.1 ≡ is_stop (S.bundles shelf) name.now }
{
    let (next, stop) = visit(shelf, parents, name);
    (next, stop.is_some())
}

fn note_stop(stops: &mut ArrayVec<u8, TRAIL_LIMIT>, i: u8, is_stop: bool)
    requires { array_vec_len stops.old < 32 }
    ensures { stops.new.items ≡ stops.old.items ++ (if is_stop then i ∷ [] else []) }
{
    if is_stop {
        stops.push(i);
    }
}

/// Follows locale inheritance from a name to the end of its trail (UTS #35; `%%ALIAS` and
/// `%%Parent` like `ures_open`). Returns all names with the indices of the stops, and allocates
/// nothing.
///
/// A bundle with a String at `%%ALIAS` isn't a stop: that text is the next name. Any other bundle
/// is a stop. The trail ends after a stop without fallback. Otherwise the next name is the stop's
/// String at `%%Parent`; else there is none after `root`; else it is the explicit parent, else the
/// shorter name, else `root`.
///
/// Returns the first error: `Chain` after 32 names, or `BadParent` for a text that isn't a name.
#[tactic(auto, using(crate::proofs::Trails::trail_steps))]
pub fn trail<'a, S: Shelf<'a>>(
    shelf: S,
    parents: &Parents,
    name: &Name,
) -> Result<Route, TrailFault>
    ensures names { trail_of result ≡ trail (S.bundles shelf) (parent_of parents.now) name.now }
    ensures stops { IfOk result
        (λ r. r.stops.items ≡ places (is_stop (S.bundles shelf)) 0 r.names.items) }
    ensures stop_names { IfOk result (λ r. map (slice_get r.names.items) r.stops.items
        ≡ map Some (stops (S.bundles shelf) r.names.items)) }
{
    let mut route = Route {
        names: ArrayVec::new(),
        stops: ArrayVec::new(),
    };
    let mut here = *name;
    for i in 0..TRAIL_LIMIT {
        let (next, is_stop) = next_step(shelf, parents, &here);
        note_stop(&mut route.stops, i as u8, is_stop);
        route.names.push(here);
        match next {
            Next::Name(name) => here = name,
            Next::End => return Ok(route),
            Next::Bad => return Err(TrailFault::BadParent),
        }
    }
    Err(TrailFault::Chain)
}
