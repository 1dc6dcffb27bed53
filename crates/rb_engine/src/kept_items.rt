//! The places that an engine keeps where lookups ended that came more than once.
ghost use Rattle.std.specs.Prelude.{◌≡◌, ◌<◌, ◌≤◌, ℕ, List, IfOk, IfSome, Ok, OnSome, false, length};
ghost use Rattle.std.specs.Prelude.{true};
ghost use Rattle.std.specs.Bool.{OnTrue};
ghost use Rattle.rb_parents.specs.Family.{parent_of};
ghost use Rattle.rb_parents.specs.Trail.{ParentsOf};
ghost use Rattle.rb_views.specs.Seen.{tree_seen};
ghost use Rattle.rb_fallback.specs.Answers.{hit_of};
ghost use Rattle.rb_packages.specs.App.{app_of};
ghost use Rattle.rb_packages.specs.Packages.{Stored};
ghost use Rattle.rb_engine.specs.Answer.{Finds};
ghost use Rattle.rb_engine.specs.Place.{place_of};
ghost use Rattle.rb_engine.specs.Version.{is_current, last_version};
ghost use Rattle.rb_engine.specs.inner.LastChanges.{version_in};
ghost use Rattle.rb_engine.specs.inner.KeptItems.{AreItemsKept, IsAnswer, IsWithinSteps};
ghost use Rattle.rb_engine.specs.inner.KeptLocales.{IsAnsweredFor, TakesMoreFor};

use crate::asked::Asked;
use crate::engine::look_in_within;
use crate::kept_path::KeptPath;
use crate::open_locale::is_current;
use crate::place::Place;
use crate::spot::{Spot, spot_of};
use rb_fallback::Found;
use rb_packages::{BundleHint, Packages};
use rb_parents::Parents;
use rb_views::Item;
use std::alloc::{AllocError, Global};
use std::hash::{FoldHasher, Hasher};

/// A lookup and the place where it ended, with the version of the engine then.
#[derive(Clone, Copy)]
pub(crate) struct KeptItem {
    pub(crate) version: u64,
    pub(crate) place: Place,
    pub(crate) path: KeptPath,
    pub(crate) spot: Spot,
    /// A number of steps that suffices for the lookup.
    pub(crate) steps: u64,
}

/// The hashes that belong to a slot.
#[derive(Clone, Copy)]
struct Tag {
    /// That of the lookup in the slot.
    kept: u64,
    /// That of a lookup that asks for the slot, or 0.
    asked: u64,
    /// True once that one was tried, so that a lookup that can't be kept isn't tried each time.
    is_tried: bool,
    /// True once another lookup asked for the slot, too. The next one takes its place.
    is_passed: bool,
}

impl Tag {
    const NONE: Tag = Tag {
        kept: 0,
        asked: 0,
        is_tried: false,
        is_passed: false,
    };

    /// Notes that the lookup in the slot came: another one must ask twice from here on.
    fn stay(&mut self) {
        self.asked = 0;
        self.is_passed = false;
    }

    /// Notes that a lookup asks for the slot and isn't in it.
    fn ask(&mut self, hash: u64) -> Asked {
        if self.asked == hash {
            let is_first = !self.is_tried;
            self.is_tried = true;
            return if is_first { Asked::Again } else { Asked::First };
        }
        if self.asked != 0 && !self.is_passed {
            self.is_passed = true;
            return Asked::First;
        }
        self.asked = hash;
        self.is_tried = false;
        self.is_passed = false;
        Asked::First
    }
}

/// A table of lookups and where they ended. A lookup has one slot, which its names and its path
/// choose, so the table never grows. A slot of an older version counts as empty.
#[derive(Drop)]
pub(crate) struct KeptItems {
    pub(crate) slots: Vec<Option<KeptItem>>,
    /// The hashes of each slot, apart from it: a lookup that isn't kept reads little memory.
    tags: Vec<Tag>,
    /// The index of the slot that was asked for last.
    recent: usize,
}

/// Hashes the names and the path of a lookup in a version. A caller who finds lookups with equal
/// hashes can only keep one of them out of the table.
fn hash_of(app: &[u8], locale: &[u8], path: &[u8], version: u64) -> u64 {
    let mut hasher = FoldHasher::default();
    hasher.write_u64(version);
    hasher.write(app);
    hasher.write(locale);
    hasher.write(path);
    hasher.finish()
}

/// Scales a hash to an index below a count, or returns `None` if that is 0.
fn index_of(hash: u64, count: usize) -> Option<usize>
    ensures { IfSome result (λ i. i < count) }
{
    let product = hash as u128 * count as u128;
    let index = (product >> 64) as usize;
    if index < count { Some(index) } else { None }
}

/// Notes the hash of the lookup that was stored in the slot at an index.
fn note_kept(tags: &mut [Tag], index: usize, hash: u64) {
    if let Some(tag) = tags.get_mut(index) {
        tag.kept = hash;
    }
}

impl KeptItem {
    /// Returns true if this is what a lookup by these names finds in this version.
    fn is_of(&self, app: &[u8], locale: &[u8], path: &[u8], version: u64) -> bool
        ensures { OnTrue result ((self.now.place.app ≡ app.now)
            × (self.now.place.name ≡ locale.now) × (self.now.path ≡ path.now)
            × (is_current self.now.version version ≡ true)) }
    {
        is_current(self.version, version)
            && self.path.as_slice() == path
            && self.place.app.as_bytes() == app
            && self.place.name.as_bytes() == locale
    }
}

impl KeptItems {
    pub(crate) fn none(alloc: Global) -> KeptItems
        ensures { (packages : Stored) → (parents : ParentsOf) → (versions : List ℕ)
            → (latest : ℕ) → AreItemsKept result.slots.items packages parents versions latest }
    {
        KeptItems {
            slots: Vec::new(alloc),
            tags: Vec::new(alloc),
            recent: 0,
        }
    }

    /// Makes a table with this many empty slots.
    pub(crate) fn with_slots(alloc: Global, count: usize) -> Result<KeptItems, AllocError>
        ensures { IfOk result (λ items. (packages : Stored) → (parents : ParentsOf)
            → (versions : List ℕ) → (latest : ℕ)
            → AreItemsKept items.slots.items packages parents versions latest) }
    {
        Ok(KeptItems {
            slots: vec![in alloc; None; count]?,
            tags: vec![in alloc; Tag::NONE; count]?,
            recent: 0,
        })
    }

    /// Returns the item that was kept for a lookup in this version, if it was asked for last.
    fn find(&self, app: &[u8], locale: &[u8], path: &[u8], version: u64) -> Option<&KeptItem>
        ensures { (packages : Stored) → (parents : ParentsOf) → (versions : List ℕ)
            → (latest : ℕ) → version ≡ version_in versions app.now
            → AreItemsKept self.now.slots.items packages parents versions latest → IfSome result
            (λ item. (item.now.place.app ≡ app.now) × (item.now.place.name ≡ locale.now)
            × (item.now.path ≡ path.now) × IsAnswer item.now packages parents
            × (place_of item.now.place.app item.now.place.name ≡ Ok item.now.place)
            × IsWithinSteps item.now packages parents) }
    {
        if self.recent >= self.slots.len() {
            return None;
        }
        match &self.slots[self.recent] {
            Some(item) => {
                if item.is_of(app, locale, path, version) {
                    return Some(item);
                }
                None
            }
            None => None,
        }
    }

    /// Asks for the item of a lookup, which `look` then finds if it is kept, and notes that.
    pub(crate) fn ask(&mut self, app: &[u8], locale: &[u8], path: &[u8], version: u64) -> Asked
        ensures { (packages : Stored) → (parents : ParentsOf) → (versions : List ℕ)
            → (latest : ℕ) → AreItemsKept self.old.slots.items packages parents versions latest
            → AreItemsKept self.new.slots.items packages parents versions latest }
    {
        let hash = hash_of(app, locale, path, version);
        let Some(index) = index_of(hash, self.tags.len()) else {
            return Asked::First;
        };
        self.recent = index;
        if self.tags[index].kept == hash && self.find(app, locale, path, version).is_some() {
            self.tags[index].stay();
            return Asked::Kept;
        }
        self.recent = usize::MAX;
        self.tags[index].ask(hash)
    }

    /// Returns what a lookup in at most this many steps finds whose item is kept in this version and
    /// was asked for last.
    pub(crate) fn look<'a>(
        &self,
        packages: &'a Packages,
        version: u64,
        app: &[u8],
        locale: &[u8],
        path: &[u8],
        steps: u64,
    ) -> Option<Found<Item<'a>>>
        ensures within { (parents : ParentsOf) → (versions : List ℕ) → (latest : ℕ)
            → version ≡ version_in versions app.now
            → AreItemsKept self.now.slots.items packages.now parents versions latest
            → OnSome result (TakesMoreFor false (Some steps) packages.now parents app.now locale.now
            path.now) }
        ensures found { (parents : ParentsOf) → (versions : List ℕ) → (latest : ℕ)
            → version ≡ version_in versions app.now
            → AreItemsKept self.now.slots.items packages.now parents versions latest
            → IfSome result (λ f. IsAnsweredFor (Finds (hit_of tree_seen f) f.valid) packages.now
            parents app.now locale.now path.now) }
    {
        let item = self.find(app, locale, path, version)?;
        if item.steps > steps {
            return None;
        }
        let hint = BundleHint {
            app: item.spot.app,
            ..BundleHint::NONE
        };
        let own = packages.shelf_near(&item.place.app, hint);
        item.spot.find(own, packages.icu_shelf())
    }

    /// Keeps where a lookup ends, if it finds a short text in at most this many steps.
    pub(crate) fn keep(
        &mut self,
        packages: &Packages,
        parents: &Parents,
        version: u64,
        place: &Place,
        path: &[u8],
        steps: u64,
    )
        requires { app_of place.now.app ≡ Ok place.now.app }
        ensures { (versions : List ℕ) → (latest : ℕ)
            → version ≡ version_in versions place.now.app
            → (version < last_version → version ≤ latest)
            → AreItemsKept self.old.slots.items packages.now (parent_of parents.now) versions latest
            → AreItemsKept self.new.slots.items packages.now (parent_of parents.now) versions latest }
    {
        let hash = hash_of(place.app.as_bytes(), place.name.as_bytes(), path, version);
        let Some(index) = index_of(hash, self.slots.len()) else {
            return;
        };
        let Ok(_) = look_in_within(packages, parents, place, BundleHint::NONE, path, steps) else {
            return;
        };
        let Some(path) = KeptPath::of(path) else {
            return;
        };
        if let Some(spot) = spot_of(packages, parents, place, &path) {
            self.slots[index] = Some(KeptItem {
                version,
                place: *place,
                path,
                spot,
                steps,
            });
            self.recent = index;
            note_kept(&mut self.tags, index, hash);
        }
    }
}
