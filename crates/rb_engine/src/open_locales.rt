//! The locales that an engine keeps open for its lookups.
ghost use Rattle.std.specs.Prelude.{◌≡◌, ◌<◌, ◌≤◌, ℕ, List, IfNone, IfOk, IfSome, Ok, OnErr, OnOk};
ghost use Rattle.std.specs.Prelude.{false, length, true};
ghost use Rattle.std.specs.Bool.{OnTrue};
ghost use Rattle.rb_parents.specs.Family.{parent_of};
ghost use Rattle.rb_views.specs.Seen.{tree_seen};
ghost use Rattle.rb_packages.specs.App.{app_of};
ghost use Rattle.rb_packages.specs.Lent.{bundles_lent, files_in};
ghost use Rattle.rb_packages.specs.Packages.{Stored, files_of, list_of};
ghost use Rattle.rb_packages.specs.Shelf.{bundle_at};
ghost use Rattle.rb_parents.specs.Trail.{ParentsOf};
ghost use Rattle.rb_fallback.specs.FoundNode.{IsNodeOf};
ghost use Rattle.rb_engine.specs.LookResponse.{look_response};
ghost use Rattle.rb_engine.specs.Version.{is_current, last_version};
ghost use Rattle.rb_engine.specs.inner.LastChanges.{version_in};
ghost use Rattle.rb_engine.specs.inner.KeptLocales.{AreKept, IsAnsweredFor, IsOpenFor};
ghost use Rattle.rb_engine.specs.inner.KeptLocales.{TakesMoreFor};

use crate::asked::Asked;
use crate::open_locale::{OpenLocale, find_over, is_current, look_over, open_at};
use crate::place::{Place, hash_of};
use crate::request::{LookFault, TooManySteps};
use rb_fallback::Found;
use rb_packages::{AppShelf, BundleHint, Packages};
use rb_parents::Parents;
use rb_views::Item;
use std::alloc::{AllocError, Global};

/// An open locale, and where it was opened.
#[derive(Clone, Copy)]
pub(crate) struct Slot {
    pub(crate) place: Place,
    pub(crate) opened: OpenLocale,
}

/// A locale that was asked for when it wasn't open.
#[derive(Clone, Copy)]
struct AskMark {
    /// The hash of its names and the version, or 0.
    hash: u64,
    /// True once another locale asked for the mark. The next one takes it, so that two locales that
    /// alternate are both asked for again.
    is_passed: bool,
}

impl AskMark {
    const NONE: AskMark = AskMark {
        hash: 0,
        is_passed: false,
    };

    /// Notes a locale, and returns true if it was noted before.
    fn ask(&mut self, hash: u64) -> bool {
        if self.hash == hash {
            return true;
        }
        if self.hash != 0 && !self.is_passed {
            self.is_passed = true;
            return false;
        }
        *self = AskMark {
            hash,
            is_passed: false,
        };
        false
    }
}

/// The number of marks for each slot. With fewer, more locales that come in turn share a mark.
const MARKS: usize = 4;

/// A table of open locales. A locale is in one of a few slots that its names choose, so the table
/// never grows. A slot of an older version counts as empty.
#[derive(Drop)]
pub(crate) struct OpenLocales {
    pub(crate) slots: Vec<Option<Slot>>,
    /// The hash of the locale in each slot, or 0, apart from the slot: a search reads little memory.
    hashes: Vec<u64>,
    /// The locales that were asked for when they weren't open.
    asked: Vec<AskMark>,
    /// The index of the slot that is searched first.
    pub(crate) recent: usize,
    /// The hash of the locale that was asked for last and isn't open, or 0.
    absent: u64,
}

/// The number of slots in which a locale may be.
const WINDOW: usize = 16;

/// Scales a hash to a number up to a count. A multiplication takes less time than a remainder.
fn scaled(hash: u64, count: usize) -> usize
    ensures { result ≤ count }
{
    let product = hash as u128 * count as u128;
    ((product >> 64) as usize).min(count)
}

/// Notes the hash of the locale that was stored in the slot at an index.
fn note_hash(hashes: &mut [u64], index: usize, hash: u64) {
    if let Some(noted) = hashes.get_mut(index) {
        *noted = hash;
    }
}

impl Slot {
    /// Returns true if the slot has a locale by these names, open in this version.
    fn has(&self, app: &[u8], locale: &[u8], version: u64) -> bool
        ensures { OnTrue result ((self.now.place.app ≡ app.now) × (self.now.place.name ≡ locale.now)
            × (is_current self.now.opened.version version ≡ true)) }
    {
        is_current(self.opened.version, version)
            && self.place.app.as_bytes() == app
            && self.place.name.as_bytes() == locale
    }

    /// Returns the bundles of the slot's application, which most often is where it was.
    fn shelf<'a>(&self, packages: &'a Packages) -> AppShelf<'a>
        ensures bundles { bundles_lent result
            ≡ bundle_at (list_of self.now.place.app packages.now) }
        ensures files { files_in result ≡ files_of self.now.place.app packages.now }
    {
        let hint = BundleHint {
            app: self.opened.app,
            ..BundleHint::NONE
        };
        packages.shelf_near(&self.place.app, hint)
    }
}

impl OpenLocales {
    pub(crate) fn none(alloc: Global) -> OpenLocales
        ensures { (packages : Stored) → (parents : ParentsOf) → (versions : List ℕ)
            → (latest : ℕ) → AreKept result.slots.items packages parents versions latest }
    {
        OpenLocales {
            slots: Vec::new(alloc),
            hashes: Vec::new(alloc),
            asked: Vec::new(alloc),
            recent: 0,
            absent: 0,
        }
    }

    /// Makes a table with this many empty slots.
    pub(crate) fn with_slots(alloc: Global, count: usize) -> Result<OpenLocales, AllocError>
        ensures { IfOk result (λ locales. (packages : Stored) → (parents : ParentsOf)
            → (versions : List ℕ) → (latest : ℕ)
            → AreKept locales.slots.items packages parents versions latest) }
    {
        Ok(OpenLocales {
            slots: vec![in alloc; None; count]?,
            hashes: vec![in alloc; 0; count]?,
            asked: vec![in alloc; AskMark::NONE; count.saturating_mul(MARKS)]?,
            recent: 0,
            absent: 0,
        })
    }

    /// Returns the slots in which a locale with this hash may be, from an index up to another.
    fn window(&self, hash: u64) -> (usize, usize)
        ensures { result.1 ≤ length self.now.slots.items }
    {
        let count = self.slots.len();
        if count <= WINDOW {
            return (0, count);
        }
        let from = scaled(hash, count - WINDOW);
        (from, from + WINDOW)
    }

    /// Returns the index of the slot that has the locale by these names, open in this version.
    pub(crate) fn position(&self, app: &[u8], locale: &[u8], version: u64) -> Option<usize> {
        self.position_of(hash_of(app, locale), app, locale, version)
    }

    /// Returns what `position` does, given the hash of the names.
    fn position_of(&self, hash: u64, app: &[u8], locale: &[u8], version: u64) -> Option<usize> {
        let (from, past) = self.window(hash);
        for i in from..past {
            if *self.hashes.get(i)? == hash && self.at(i, app, locale, version).is_some() {
                return Some(i);
            }
        }
        None
    }

    /// Asks for a locale by its names and their hash, which `look` then finds if it is open.
    pub(crate) fn ask(&mut self, hash: u64, app: &[u8], locale: &[u8], version: u64) -> Asked
        ensures { (packages : Stored) → (parents : ParentsOf) → (versions : List ℕ)
            → (latest : ℕ) → AreKept self.old.slots.items packages parents versions latest
            → AreKept self.new.slots.items packages parents versions latest }
    {
        if let Some(index) = self.position_of(hash, app, locale, version) {
            self.recent = index;
            return Asked::Kept;
        }
        self.absent = hash;
        let index = scaled(hash, self.asked.len());
        let Some(mark) = self.asked.get_mut(index) else {
            return Asked::First;
        };
        if mark.ask(hash.wrapping_add(version)) {
            return Asked::Again;
        }
        Asked::First
    }

    /// Returns the locale of a slot, if it is the one by these names and open in this version.
    fn at(&self, index: usize, app: &[u8], locale: &[u8], version: u64) -> Option<&Slot>
        ensures { (packages : Stored) → (parents : ParentsOf) → (versions : List ℕ)
            → (latest : ℕ) → version ≡ version_in versions app.now
            → AreKept self.now.slots.items packages parents versions latest → IfSome result
            (λ slot. IsOpenFor slot.now packages parents app.now locale.now) }
    {
        if index >= self.slots.len() {
            return None;
        }
        match &self.slots[index] {
            Some(slot) => {
                if slot.has(app, locale, version) {
                    return Some(slot);
                }
                None
            }
            None => None,
        }
    }

    /// Returns the locale by these names, if it is open in this version.
    fn find(&self, app: &[u8], locale: &[u8], version: u64) -> Option<&Slot>
        ensures { (packages : Stored) → (parents : ParentsOf) → (versions : List ℕ)
            → (latest : ℕ) → version ≡ version_in versions app.now
            → AreKept self.now.slots.items packages parents versions latest → IfSome result
            (λ slot. IsOpenFor slot.now packages parents app.now locale.now) }
    {
        match self.at(self.recent, app, locale, version) {
            Some(slot) => Some(slot),
            None => {
                let hash = hash_of(app, locale);
                if hash == self.absent {
                    return None;
                }
                let index = self.position_of(hash, app, locale, version)?;
                self.at(index, app, locale, version)
            }
        }
    }

    /// Returns the index of the slot that a locale with this hash takes, if the table has slots.
    fn index_for(&self, hash: u64, version: u64) -> Option<usize>
        ensures { IfSome result (λ i. i < length self.now.slots.items) }
    {
        let (from, past) = self.window(hash);
        for i in from..past {
            match &self.slots[i] {
                Some(slot) => {
                    if !is_current(slot.opened.version, version) {
                        return Some(i);
                    }
                }
                None => return Some(i),
            }
        }
        if from < past { Some(from) } else { None }
    }

    /// Looks a path up from the locale by these names in at most `left` steps, or returns `None` if
    /// it isn't open in this version. Without `left` there is no limit.
    pub(crate) fn look<'a>(
        &self,
        packages: &'a Packages,
        parents: &Parents,
        version: u64,
        app: &[u8],
        locale: &[u8],
        path: &[u8],
        left: Option<u64>,
    ) -> Option<Result<Result<Found<Item<'a>>, LookFault>, TooManySteps>>
        ensures few { IfNone left (IfSome result (λ r. OnErr r ⊥)) }
        ensures within { (versions : List ℕ) → (latest : ℕ) → version ≡ version_in versions app.now
            → AreKept self.now.slots.items packages.now (parent_of parents.now) versions latest
            → IfSome result (λ r. OnOk r (TakesMoreFor false left packages.now
            (parent_of parents.now) app.now locale.now path.now)) }
        ensures found { (versions : List ℕ) → (latest : ℕ) → version ≡ version_in versions app.now
            → AreKept self.now.slots.items packages.now (parent_of parents.now) versions latest
            → IfSome result (λ r. IfOk r (λ found. IsAnsweredFor (look_response tree_seen found)
            packages.now (parent_of parents.now) app.now locale.now path.now)) }
        ensures more { (versions : List ℕ) → (latest : ℕ) → version ≡ version_in versions app.now
            → AreKept self.now.slots.items packages.now (parent_of parents.now) versions latest
            → IfSome result (λ r. OnErr r (TakesMoreFor true left packages.now
            (parent_of parents.now) app.now locale.now path.now)) }
    {
        let slot = self.find(app, locale, version)?;
        let own = slot.shelf(packages);
        let icu = packages.icu_shelf();
        Some(look_over(own, icu, parents, &slot.opened, path, left))
    }

    /// Finds the item at a path as `look` does, without the names of bundles.
    pub(crate) fn find_item<'a>(
        &self,
        packages: &'a Packages,
        parents: &Parents,
        version: u64,
        app: &[u8],
        locale: &[u8],
        path: &[u8],
        left: Option<u64>,
    ) -> Option<Result<Result<Item<'a>, LookFault>, TooManySteps>>
        ensures within { (versions : List ℕ) → (latest : ℕ) → version ≡ version_in versions app.now
            → AreKept self.now.slots.items packages.now (parent_of parents.now) versions latest
            → IfSome result (λ r. OnOk r (TakesMoreFor false left packages.now
            (parent_of parents.now) app.now locale.now path.now)) }
        ensures found { (versions : List ℕ) → (latest : ℕ) → version ≡ version_in versions app.now
            → AreKept self.now.slots.items packages.now (parent_of parents.now) versions latest
            → IfSome result (λ r. IfOk r (λ item. IsNodeOf item (λ found. IsAnsweredFor
            (look_response tree_seen found) packages.now (parent_of parents.now) app.now locale.now
            path.now))) }
        ensures more { (versions : List ℕ) → (latest : ℕ) → version ≡ version_in versions app.now
            → AreKept self.now.slots.items packages.now (parent_of parents.now) versions latest
            → IfSome result (λ r. OnErr r (TakesMoreFor true left packages.now
            (parent_of parents.now) app.now locale.now path.now)) }
    {
        let slot = self.find(app, locale, version)?;
        let own = slot.shelf(packages);
        let icu = packages.icu_shelf();
        Some(find_over(own, icu, parents, &slot.opened, path, left))
    }

    /// Opens a locale over the bundles of this version, unless it is open. An error leaves the slot
    /// as it is.
    pub(crate) fn keep(
        &mut self,
        packages: &Packages,
        parents: &Parents,
        version: u64,
        place: &Place,
    )
        requires { app_of place.now.app ≡ Ok place.now.app }
        ensures { (versions : List ℕ) → (latest : ℕ)
            → version ≡ version_in versions place.now.app
            → (version < last_version → version ≤ latest)
            → AreKept self.old.slots.items packages.now (parent_of parents.now) versions latest
            → AreKept self.new.slots.items packages.now (parent_of parents.now) versions latest }
    {
        let app = place.app.as_bytes();
        let locale = place.name.as_bytes();
        let hash = hash_of(app, locale);
        if let Some(index) = self.position_of(hash, app, locale, version) {
            self.recent = index;
            return;
        }
        let Some(index) = self.index_for(hash, version) else {
            return;
        };
        if let Ok(opened) = open_at(packages, parents, place, version) {
            self.slots[index] = Some(Slot {
                place: *place,
                opened,
            });
            self.recent = index;
            self.absent = 0;
            note_hash(&mut self.hashes, index, hash);
        }
    }
}
