//! A locale of an application that is read once and looked up from often.
ghost use Rattle.std.specs.Prelude.{◌≡◌, ◌<◌, ◌≤◌, ◌+◌, ◌∷◌, ◌++◌, ◌||◌, [], ℕ, List, Err, IfErr};
ghost use Rattle.std.specs.Prelude.{IfNone, IfOk, OnErr, OnOk, false, if◌then◌else◌, length, nat_lt};
ghost use Rattle.std.specs.Prelude.{slice_get, true};
ghost use Rattle.rb_tree.specs.Path.{is_path};
ghost use Rattle.rb_parents.specs.Answers.{trail_of};
ghost use Rattle.rb_parents.specs.Family.{parent_of};
ghost use Rattle.rb_parents.specs.Trail.{is_stop, names, trail};
ghost use Rattle.rb_views.specs.Seen.{tree_seen};
ghost use Rattle.rb_packages.specs.Lent.{bundles_lent, files_in};
ghost use Rattle.rb_packages.specs.Packages.{files_of, icudata_of, list_of, shelf_of};
ghost use Rattle.rb_packages.specs.Positions.{files_at_index};
ghost use Rattle.rb_packages.specs.Shelf.{bundle_at};
ghost use Rattle.rb_fallback.specs.FoundNode.{IsNodeOf};
ghost use Rattle.rb_fallback.specs.Limits.{path_limit};
ghost use Rattle.rb_fallback.specs.Stops.{AreStopsOf, CountsTrail};
ghost use Rattle.rb_engine.specs.Answer.{Refuses, lookup_in};
ghost use Rattle.rb_engine.specs.LookResponse.{look_response};
ghost use Rattle.rb_engine.specs.OpenLocale.{names_of, opened_stop, stop_indices};
ghost use Rattle.rb_engine.specs.Steps.{exceeds_from};
ghost use Rattle.rb_engine.specs.Version.{is_current};
ghost use Rattle.rb_engine.specs.inner.KeptLocales.{IsOpenWithin};
ghost use Rattle.rb_engine.specs.inner.Opening.{HasStops};
ghost use Rattle.rb_engine.specs.declared.request.LookFault.TheVariants as Faults;

use crate::item_shelf::ItemShelf;
use crate::place::Place;
use crate::request::{LookFault, TooManySteps};
use crate::same_name::same_name;
use rb_fallback::{BoundedError, Found, Stops, TrailNames, find_from, look_from};
use rb_locales::Name;
use rb_packages::{AppShelf, Packages};
use rb_parents::{Next, Parents, TRAIL_LIMIT, TrailFault, visit};
use rb_views::Item;

/// A locale of an application, opened for lookups: where the application's bundles are, and which
/// of them are the stops of the locale's trail. This is plain data, which a program may store and
/// copy. `Engine::look_at` trusts none of it.
#[repr(C)]
#[derive(Clone, Copy)]
pub struct OpenLocale {
    /// The version of the engine when the locale was opened.
    pub version: u64,
    /// The index of the application.
    pub app: usize,
    /// The number of stops.
    pub count: usize,
    /// The indices of the stops' bundles, followed by zeros.
    pub stops: [usize; TRAIL_LIMIT],
    /// The number of the trail's names, each of which takes steps under a limit.
    pub names: u8,
    /// The number of these names from the first stop on.
    pub from_valid: u8,
}

/// The engine has changed since the locale was opened, so it has to be opened again.
#[derive(Clone, Copy, PartialEq, Eq)]
pub struct Stale;

/// Returns true if nothing has changed since an engine had the version that was read. Of the last
/// version nobody can know.
pub(crate) fn is_current(read: u64, now: u64) -> bool
    ensures { result ≡ is_current read now }
{
    read == now && now < u64::MAX
}

impl OpenLocale {
    fn names(&self) -> TrailNames
        ensures { result ≡ names_of self.now }
    {
        TrailNames {
            all: self.names,
            from_valid: self.from_valid,
        }
    }

    fn stop_index(&self, i: usize) -> Option<usize>
        ensures { result ≡ slice_get (stop_indices self.now) i }
    {
        if i >= self.count {
            return None;
        }
        self.stops.get(i).copied()
    }

    fn add_stop(&mut self, index: usize)
        requires { self.old.count < 32 }
        ensures stops { stop_indices self.new ≡ stop_indices self.old ++ index ∷ [] }
        ensures count { self.new.count ≡ self.old.count + 1 }
        ensures version { self.new.version ≡ self.old.version }
        ensures from_valid { self.new.from_valid ≡ self.old.from_valid }
    {
        self.stops[self.count] = index;
        self.count += 1;
    }

    /// Adds a name of the trail, which counts only if it is a stop.
    fn add_name(&mut self, own: AppShelf<'_>, name: &Name, counts: bool)
        requires { self.old.count < 32 }
        ensures stops { (ns : List (List ℕ)) → counts ≡ is_stop (bundles_lent own.entry) name.now
            → HasStops self.old (files_in own.entry) ns
            → HasStops self.new (files_in own.entry) (ns ++ name.now ∷ []) }
        ensures count { self.new.count ≤ self.old.count + 1 }
        ensures version { self.new.version ≡ self.old.version }
        ensures from_valid { self.new.from_valid ≡ self.old.from_valid }
    {
        if !counts {
            return;
        }
        if let Some(index) = own.index_of(name) {
            self.add_stop(index);
        }
    }
}

/// Returns the number of names from the first stop on, with one name more.
fn with_name(from_valid: u8, is_stop: bool) -> u8
    requires { from_valid < 255 }
    ensures { result ≡ (if nat_lt 0 from_valid || is_stop then from_valid + 1 else 0) }
{
    if from_valid > 0 || is_stop {
        return from_valid + 1;
    }
    0
}

/// Reads the trail of a name, with the indices of its stops. The application isn't set.
fn read_stops(
    own: AppShelf<'_>,
    parents: &Parents,
    name: &Name,
    version: u64,
) -> Result<OpenLocale, TrailFault>
    ensures stops { IfOk result (λ opened. (ns : List (List ℕ))
        × (trail (bundles_lent own.entry) (parent_of parents.now) name.now ≡ names ns)
        × HasStops opened (files_in own.entry) ns) }
    ensures version { IfOk result (λ opened. opened.version ≡ version) }
    ensures names { IfOk result (λ opened. CountsTrail (names_of opened)
        (bundles_lent own.entry) (parent_of parents.now) name.now) }
    ensures fault { IfErr result (λ e. trail (bundles_lent own.entry) (parent_of parents.now)
        name.now ≡ trail_of (Err e)) }
{
    let mut opened = OpenLocale {
        version,
        app: 0,
        count: 0,
        stops: [0; TRAIL_LIMIT],
        names: 0,
        from_valid: 0,
    };
    let mut here = *name;
    for i in 0..TRAIL_LIMIT {
        let (next, stop) = visit(own, parents, &here);
        let is_stop = stop.is_some();
        opened.add_name(own, &here, is_stop);
        opened.from_valid = with_name(opened.from_valid, is_stop);
        match next {
            Next::Name(name) => here = name,
            Next::End => {
                opened.names = i as u8 + 1;
                return Ok(opened);
            }
            Next::Bad => return Err(TrailFault::BadParent),
        }
    }
    Err(TrailFault::Chain)
}

impl From<TrailFault> for LookFault {
    ghost use Rattle.rb_engine.specs.LookFaults.{trail_refusal};

    ghost from_gives = { λ e f. f ≡ trail_refusal e };

    fn from(fault: TrailFault) -> Self {
        same_name!(fault: TrailFault => LookFault { Chain, BadParent })
    }
}

/// Opens a locale of an application over the bundles of this version.
pub(crate) fn open_at(
    packages: &Packages,
    parents: &Parents,
    place: &Place,
    version: u64,
) -> Result<OpenLocale, LookFault>
    ensures files { IfOk result (λ opened. files_at_index packages.now opened.app
        ≡ files_of place.now.app packages.now) }
    ensures stops { IfOk result (λ opened. AreStopsOf
        (opened_stop opened (files_of place.now.app packages.now))
        (bundle_at (list_of place.now.app packages.now)) (parent_of parents.now) place.now.name) }
    ensures version { IfOk result (λ opened. opened.version ≡ version) }
    ensures names { IfOk result (λ opened. CountsTrail (names_of opened)
        (bundle_at (list_of place.now.app packages.now)) (parent_of parents.now) place.now.name) }
    ensures refused { IfErr result (λ e. (path : List ℕ) → is_path path ≡ true
        → length path ≤ path_limit
        → lookup_in (bundle_at (list_of place.now.app packages.now))
        (bundle_at (icudata_of packages.now)) (parent_of parents.now) place.now.name path
        ≡ Refuses e) }
{
    let own = packages.shelf(&place.app);
    let mut opened = match read_stops(own, parents, &place.name, version) {
        Ok(opened) => opened,
        Err(fault) => return Err(LookFault::from(fault)),
    };
    if opened.count == 0 {
        return Err(LookFault::NoBundle);
    }
    match packages.app_index(&place.app) {
        Some(index) => {
            opened.app = index;
            Ok(opened)
        }
        None => Err(LookFault::NoBundle),
    }
}

/// Looks a path up from an opened locale over the bundles of an application and of ICUDATA, in at
/// most `left` steps. `None` is no limit; then the numbers of names may be any.
pub(crate) fn look_over<'a>(
    own: AppShelf<'a>,
    icu: AppShelf<'a>,
    parents: &Parents,
    opened: &OpenLocale,
    path: &[u8],
    left: Option<u64>,
) -> Result<Result<Found<Item<'a>>, LookFault>, TooManySteps>
    ensures few { IfNone left (OnErr result ⊥) }
    ensures within { (name : List ℕ)
        → IsOpenWithin left opened.now (files_in own.entry) (parent_of parents.now) name
        → OnOk result (exceeds_from left (bundles_lent own.entry) (bundles_lent icu.entry)
        (parent_of parents.now) name path.now ≡ false) }
    ensures found { (name : List ℕ)
        → IsOpenWithin left opened.now (files_in own.entry) (parent_of parents.now) name
        → IfOk result (λ found. look_response tree_seen found ≡ lookup_in
        (bundles_lent own.entry) (bundles_lent icu.entry) (parent_of parents.now)
        name path.now) }
    ensures more { (name : List ℕ)
        → IsOpenWithin left opened.now (files_in own.entry) (parent_of parents.now) name
        → OnErr result (exceeds_from left (bundles_lent own.entry) (bundles_lent icu.entry)
        (parent_of parents.now) name path.now ≡ true) }
{
    let stops = OpenStops { own, opened };
    let (own, icu) = (ItemShelf { shelf: own }, ItemShelf { shelf: icu });
    match look_from(stops, opened.names(), own, icu, parents, path, left) {
        Ok(found) => Ok(Ok(found)),
        Err(BoundedError::Search(error)) => Ok(Err(LookFault::from(error))),
        Err(BoundedError::TooManySteps) => Err(TooManySteps),
    }
}

/// Finds the item at a path as `look_over` does, without the names of bundles.
pub(crate) fn find_over<'a>(
    own: AppShelf<'a>,
    icu: AppShelf<'a>,
    parents: &Parents,
    opened: &OpenLocale,
    path: &[u8],
    left: Option<u64>,
) -> Result<Result<Item<'a>, LookFault>, TooManySteps>
    ensures few { IfNone left (OnErr result ⊥) }
    ensures within { (name : List ℕ)
        → IsOpenWithin left opened.now (files_in own.entry) (parent_of parents.now) name
        → OnOk result (exceeds_from left (bundles_lent own.entry) (bundles_lent icu.entry)
        (parent_of parents.now) name path.now ≡ false) }
    ensures found { (name : List ℕ)
        → IsOpenWithin left opened.now (files_in own.entry) (parent_of parents.now) name
        → IfOk result (λ item. IsNodeOf item (λ found. look_response tree_seen found
        ≡ lookup_in (bundles_lent own.entry) (bundles_lent icu.entry) (parent_of parents.now)
        name path.now)) }
    ensures more { (name : List ℕ)
        → IsOpenWithin left opened.now (files_in own.entry) (parent_of parents.now) name
        → OnErr result (exceeds_from left (bundles_lent own.entry) (bundles_lent icu.entry)
        (parent_of parents.now) name path.now ≡ true) }
{
    let stops = OpenStops { own, opened };
    let (own, icu) = (ItemShelf { shelf: own }, ItemShelf { shelf: icu });
    match find_from(stops, opened.names(), own, icu, parents, path, left) {
        Ok(item) => Ok(Ok(item)),
        Err(BoundedError::Search(error)) => Ok(Err(LookFault::from(error))),
        Err(BoundedError::TooManySteps) => Err(TooManySteps),
    }
}

/// Looks a path up from an opened locale, over the bundles that the application at its index has.
pub(crate) fn look_opened<'a>(
    packages: &'a Packages,
    parents: &Parents,
    opened: &OpenLocale,
    path: &[u8],
) -> Result<Found<Item<'a>>, LookFault>
    ensures { (name : List ℕ) → AreStopsOf
        (opened_stop opened.now (files_at_index packages.now opened.now.app))
        (bundle_at (shelf_of (files_at_index packages.now opened.now.app)))
        (parent_of parents.now) name
        → look_response tree_seen result ≡ lookup_in
        (bundle_at (shelf_of (files_at_index packages.now opened.now.app)))
        (bundle_at (icudata_of packages.now)) (parent_of parents.now) name path.now }
{
    let own = packages.shelf_at(opened.app);
    match look_over(own, packages.icu_shelf(), parents, opened, path, None) {
        Ok(found) => found,
        Err(TooManySteps) => unreachable!(),
    }
}

/// The stops of an opened locale over some bundles.
#[derive(Clone, Copy)]
pub(crate) struct OpenStops<'a, 'b> {
    pub(crate) own: AppShelf<'a>,
    pub(crate) opened: &'b OpenLocale,
}

impl<'a, 'b> Stops<'a> for OpenStops<'a, 'b> {
    type N = Item<'a>;

    ghost stop = { λ s i. opened_stop s.opened.now (files_in s.own) i };

    fn root(self, i: usize) -> Option<Item<'a>> {
        let index = self.opened.stop_index(i)?;
        match self.own.root_at(index) {
            Some(root) => Some(root.item()),
            None => None,
        }
    }

    fn name(self, i: usize) -> Option<Name> {
        match self.opened.stop_index(i) {
            Some(index) => self.own.name_at(index),
            None => None,
        }
    }
}
