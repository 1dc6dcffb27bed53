//! Places of items: a bundle, and the item's path in it.
ghost use Rattle.std.specs.Prelude.{◌≡◌, ℕ, List, IfSome};
ghost use Rattle.std.specs.Bool.{OnTrue};
ghost use Rattle.rb_fallback.specs.Answers.{hit_of};
ghost use Rattle.rb_views.specs.Seen.{tree_seen, units_seen};
ghost use Rattle.rb_engine.specs.inner.KeptItems.{IsAtSpot};
ghost use Rattle.rb_packages.specs.Lent.{files_in};
ghost use Rattle.rb_packages.specs.Packages.{files_of, icudata_files, icudata_of, list_of};
ghost use Rattle.rb_packages.specs.Shelf.{bundle_at};
ghost use Rattle.rb_parents.specs.Family.{parent_of};
ghost use Rattle.rb_fallback.specs.Search.{Hit};
ghost use Rattle.rb_engine.specs.Answer.{Finds, lookup_in};

use crate::engine::look_in;
use crate::kept_path::KeptPath;
use crate::place::Place;
use rb_fallback::{Found, Visit, Watch};
use rb_locales::Name;
use rb_packages::{AppShelf, BundleHint, Packages};
use rb_parents::{Next, Parents};
use rb_tree::{Ending, Node, walk};
use rb_views::{Item, Units};

/// A place where a lookup ended. It is plain data, and means nothing once a bundle has changed.
#[derive(Clone, Copy)]
pub(crate) struct Spot {
    /// True if the item is in a bundle of ICUDATA, and not of the application.
    pub(crate) icudata: bool,
    /// The index of the application then.
    pub(crate) app: usize,
    /// The index of the bundle with the item.
    pub(crate) actual: usize,
    /// The index of the application's bundle that is the first stop.
    pub(crate) valid: usize,
    /// The path of the item in its bundle.
    pub(crate) path: KeptPath,
}

impl Spot {
    /// Finds the item that is there now, among the bundles of the application or of ICUDATA.
    pub(crate) fn find<'a>(&self, own: AppShelf<'a>, icu: AppShelf<'a>) -> Option<Found<Item<'a>>>
        ensures { IfSome result (λ f. IsAtSpot self.now (files_in own.entry) (files_in icu.entry)
            (hit_of tree_seen f) f.valid) }
    {
        let shelf = if self.icudata { icu } else { own };
        let root = shelf.root_at(self.actual)?;
        let Ending::End(node) = walk(root.item(), self.path.as_slice()) else {
            return None;
        };
        let actual = shelf.name_at(self.actual)?;
        let valid = own.name_at(self.valid)?;
        Some(Found {
            node,
            actual,
            valid,
        })
    }
}

/// The most units of a text that is kept.
const TEXT_ROOM: usize = 1024;

/// Returns true if an item is a String that is short enough to be kept.
pub(crate) fn is_short_text(item: Item<'_>) -> bool {
    match item.text() {
        Some(units) => units.len() <= TEXT_ROOM,
        None => false,
    }
}

fn same_units(a: Units<'_>, b: Units<'_>) -> bool
    ensures { OnTrue result (units_seen a.entry ≡ units_seen b.entry) }
{
    let len = a.len();
    if len != b.len() || len > TEXT_ROOM {
        return false;
    }
    for i in 0..len {
        if a.at(i) != b.at(i) {
            return false;
        }
    }
    true
}

/// Returns true only if both items are Strings of the same short text.
pub(crate) fn is_same_text(a: Item<'_>, b: Item<'_>) -> bool
    ensures { OnTrue result (tree_seen a.entry ≡ tree_seen b.entry) }
{
    match (a.text(), b.text()) {
        (Some(a), Some(b)) => same_units(a, b),
        _ => false,
    }
}

/// Notes where the last level of a search begins.
#[derive(Drop)]
struct LastLevel {
    icudata: bool,
    path: Option<KeptPath>,
}

impl Watch for LastLevel {
    fn level(&mut self, _number: u16, icudata: bool, _name: &Name, path: &[u8]) {
        self.icudata = icudata;
        self.path = KeptPath::of(path);
    }

    fn name<N: Node>(&mut self, _name: &Name, _path: &[u8], _visit: Visit<N>, _next: &Next) {}

    fn alias<N: Node>(&mut self, _node: N, _actual: &Name) {}

    fn long_path<N: Node>(
        &mut self,
        _icudata: bool,
        _name: &Name,
        _node: N,
        _at: usize,
        _rest: &[u8],
    ) {}
}

/// Finds where a lookup ends, or returns `None` if it finds no short text. What an observer noted
/// is taken only if the same text is there.
pub(crate) fn spot_of(
    packages: &Packages,
    parents: &Parents,
    place: &Place,
    path: &KeptPath,
) -> Option<Spot>
    ensures { IfSome result (λ spot. (hit : Hit) → (valid : List ℕ)
        → IsAtSpot spot (files_of place.now.app packages.now) (icudata_files packages.now) hit valid
        → lookup_in (bundle_at (list_of place.now.app packages.now))
        (bundle_at (icudata_of packages.now)) (parent_of parents.now) place.now.name path.now
        ≡ Finds hit valid) }
{
    let mut last = LastLevel {
        icudata: false,
        path: None,
    };
    let hint = BundleHint::NONE;
    let Ok(found) = look_in(packages, parents, place, hint, path.as_slice(), &mut last) else {
        return None;
    };
    let own = packages.shelf(&place.app);
    let icu = packages.icu_shelf();
    let shelf = if last.icudata { icu } else { own };
    let spot = Spot {
        icudata: last.icudata,
        app: packages.app_index(&place.app)?,
        actual: shelf.index_of(&found.actual)?,
        valid: own.index_of(&found.valid)?,
        path: last.path?,
    };
    match spot.find(own, icu) {
        Some(there) if is_same_found(&there, &found) => Some(spot),
        _ => None,
    }
}

fn is_same_found(a: &Found<Item<'_>>, b: &Found<Item<'_>>) -> bool
    ensures { OnTrue result ((hit_of tree_seen a.now ≡ hit_of tree_seen b.now)
        × (a.now.valid ≡ b.now.valid)) }
{
    a.actual == b.actual && a.valid == b.valid && is_same_text(a.node, b.node)
}
