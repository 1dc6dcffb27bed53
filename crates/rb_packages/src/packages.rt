ghost use Rattle.std.specs.Prelude.{◌≡◌, ◌+◌, ◌-◌, ◌^◌, ℕ, [], ◌∷◌, ◌++◌, List, Some, None, IfOk};
ghost use Rattle.std.specs.Prelude.{IfErr, IfNone, IfSome, OnOk, OnErr, map, length, min};
ghost use Rattle.std.specs.Prelude.{option_map, slice_get};
ghost use Rattle.std.specs.Map.{set_value, remove_entry};
ghost use Rattle.std.specs.Str.{bytes_eq};
ghost use Rattle.rb_format.specs.File.{source_tree_of};
ghost use Rattle.rb_packages.specs.Shelf.{bundle_at, replaced, removed};
ghost use Rattle.rb_packages.specs.Packages.{icudata_files, icudata_of, files_of, list_of, file_at};
ghost use Rattle.rb_packages.specs.Packages.{install_fault, load_fault, IsJudged, OthersStay};
ghost use Rattle.rb_packages.specs.Lent.{files_in, bundles_lent};
ghost use Rattle.rb_packages.specs.Positions.{files_at_index, is_bundle_at};
ghost use Rattle.rb_packages.specs.Release.{edited, sizes_of};
ghost use Rattle.rb_packages.specs.Usage.{bytes_of, apps_of, more_apps, AreThereOnce};

use crate::app::App;
use crate::bundles::Bundles;
use crate::draft::Draft;
use crate::fault::{Absent, PackFault};
use crate::hint::BundleHint;
use crate::owned::Owned;
use crate::shelf::AppShelf;
use crate::usage::Usage;
use crate::{bundles, owned};
use indexmap::IndexMap;
use rb_locales::Name;
use rb_validator::Bundle;
use std::alloc::{AllocError, Global};
use std::hash::RandomState;
use std::marker::Model;

/// The bundles of ICUDATA and of many applications, by name and in the order of installation.
///
/// Each application has its own index, so a call takes time only for the caller's bundles. An
/// application without bundles takes no memory.
#[derive(Drop)]
pub struct Packages {
    icudata: Bundles,
    owned: Owned,
}

impl Model for Packages {
    ghost use Rattle.rb_packages.specs.Packages.{Stored};
    ghost use Rattle.rb_packages.specs.Index.{files_by_app};
    ghost use Rattle.rb_packages.specs.Usage.{AllHaveBundles};

    ghost Value = { Stored };

    ghost use Rattle.std.specs.Coded.{codes};

    ghost coded = { Prim.hlevel codes };

    ghost view = { λ p. record {
      icudata = p.icudata.entries;
      owned = files_by_app p.owned.entries;
    } };

    ghost invariant = { λ p. AllHaveBundles (files_by_app p.owned.entries) };
}

/// A clone has the same bundles: it takes time for each of them, and copies no file.
impl Clone for Packages {
    ghost is_clone = { λ p q. q ≡ p };

    fn clone(&self) -> Result<Packages, AllocError> {
        Ok(Packages {
            icudata: self.icudata.clone()?,
            owned: self.owned.clone()?,
        })
    }
}

impl Packages {
    /// Creates packages without bundles; `state` seeds their hashes. Allocates nothing.
    pub fn new(alloc: Global, state: RandomState) -> Packages
        ensures icudata { icudata_of result ≡ [] }
        ensures lists { (app : List ℕ) → list_of app result ≡ [] }
        ensures icudata_files { icudata_files result ≡ [] }
        ensures files { (app : List ℕ) → files_of app result ≡ [] }
        ensures apps { apps_of result ≡ 0 }
    {
        Packages {
            icudata: IndexMap::with_hasher(alloc, state),
            owned: IndexMap::with_hasher(alloc, state),
        }
    }

    /// Adds a bundle of ICUDATA at the end. On an error nothing changes, and the bundle is
    /// returned: `Twice` if the name exists, or `Memory`.
    pub fn load(&mut self, name: Name, bundle: Bundle) -> Result<(), (PackFault, Bundle)>
        ensures judged { IsJudged (load_fault name (icudata_of self.old)) result }
        ensures file { OnOk result
            (icudata_files self.new ≡ icudata_files self.old ++ (name, bundle) ∷ []) }
        ensures loaded { OnOk result
            (icudata_of self.new ≡ icudata_of self.old ++ (name, source_tree_of bundle) ∷ []) }
        ensures others { (app : List ℕ) → list_of app self.new ≡ list_of app self.old }
        ensures apps { apps_of self.new ≡ apps_of self.old }
        ensures files { (app : List ℕ) → files_of app self.new ≡ files_of app self.old }
        ensures unchanged { OnErr result (self.new ≡ self.old) }
        ensures back { IfErr result (λ e. e.1 ≡ bundle) }
    {
        if self.icudata.contains_key(&name) {
            return Err((PackFault::Twice, bundle));
        }
        bundles::add(&mut self.icudata, name, bundle)
    }

    /// Adds a bundle of an application at the end. On an error nothing changes, and the bundle is
    /// returned: `Exists` if the name exists, `Full` after 4,096 bundles, or `Memory`.
    ///
    /// ```rust
    /// let mut packages = Packages::new(alloc, RandomState::new(rt)?);
    /// packages.install(&App::read(b"shop")?, de, bundle)?;
    /// ```
    pub fn install(
        &mut self,
        app: &App,
        name: Name,
        bundle: Bundle,
    ) -> Result<(), (PackFault, Bundle)>
        ensures judged { IsJudged (install_fault name (list_of app.now self.old)) result }
        ensures files { OnOk result
            (files_of app.now self.new ≡ files_of app.now self.old ++ (name, bundle) ∷ []) }
        ensures installed { OnOk result (list_of app.now self.new
            ≡ list_of app.now self.old ++ (name, source_tree_of bundle) ∷ []) }
        ensures others { OthersStay app.now self.old self.new }
        ensures apps { OnOk result
            (apps_of self.new ≡ apps_of self.old + more_apps (files_of app.now self.old)) }
        ensures unchanged { OnErr result (self.new ≡ self.old) }
        ensures back { IfErr result (λ e. e.1 ≡ bundle) }
    {
        owned::install(&mut self.owned, app, name, bundle)
    }

    /// Replaces the application's bundle with this name and returns the old one. If it is missing
    /// nothing changes, and the new one is returned with `Absent`. Allocates nothing.
    pub fn replace(
        &mut self,
        app: &App,
        name: &Name,
        bundle: Bundle,
    ) -> Result<Bundle, (Absent, Bundle)>
        ensures file { IfOk result (λ b. file_at app.now name.now self.old ≡ Some b) }
        ensures old { IfOk result
            (λ b. bundle_at (list_of app.now self.old) name.now ≡ Some (source_tree_of b)) }
        ensures absent { OnErr result (bundle_at (list_of app.now self.old) name.now ≡ None) }
        ensures files { OnOk result (files_of app.now self.new
            ≡ set_value (bytes_eq name.now) (files_of app.now self.old) bundle) }
        ensures replaced { OnOk result (list_of app.now self.new
            ≡ replaced name.now (source_tree_of bundle) (list_of app.now self.old)) }
        ensures others { OthersStay app.now self.old self.new }
        ensures apps { apps_of self.new ≡ apps_of self.old }
        ensures unchanged { OnErr result (self.new ≡ self.old) }
        ensures back { IfErr result (λ e. e.1 ≡ bundle) }
    {
        owned::replace(&mut self.owned, app, name, bundle)
    }

    /// Removes the application's bundle with this name and returns it, or `Absent`. Allocates
    /// nothing.
    pub fn remove(&mut self, app: &App, name: &Name) -> Result<Bundle, Absent>
        ensures file { IfOk result (λ b. file_at app.now name.now self.old ≡ Some b) }
        ensures old { IfOk result
            (λ b. bundle_at (list_of app.now self.old) name.now ≡ Some (source_tree_of b)) }
        ensures absent { OnErr result (bundle_at (list_of app.now self.old) name.now ≡ None) }
        ensures files { OnOk result (files_of app.now self.new
            ≡ remove_entry (bytes_eq name.now) (files_of app.now self.old)) }
        ensures removed { OnOk result
            (list_of app.now self.new ≡ removed name.now (list_of app.now self.old)) }
        ensures others { OthersStay app.now self.old self.new }
        ensures apps { OnOk result
            (apps_of self.old ≡ apps_of self.new + more_apps (files_of app.now self.new)) }
        ensures unchanged { OnErr result (self.new ≡ self.old) }
    {
        owned::remove(&mut self.owned, app, name)
    }

    /// Returns the names of an application's bundles in the order of installation.
    pub fn list(&self, alloc: Global, app: &App) -> Result<Vec<Name>, AllocError>
        ensures { IfOk result (λ names. names.items ≡ map (λ e. e.0) (list_of app.now self.now)) }
    {
        match owned::bundles_of(&self.owned, app) {
            Some(bundles) => bundles::names(alloc, bundles),
            None => Ok(Vec::new(alloc)),
        }
    }

    /// Returns how much an application stores.
    pub fn usage(&self, app: &App) -> Usage
        ensures bytes { result.bytes ≡ min (bytes_of (files_of app.now self.now)) (2 ^ 64 - 1) }
        ensures bundles { result.bundles ≡ length (files_of app.now self.now) }
    {
        owned::usage(&self.owned, app)
    }

    /// Returns the length of the file of the application's bundle with this name.
    pub fn file_len(&self, app: &App, name: &Name) -> Option<u64>
        ensures { result ≡ option_map length (file_at app.now name.now self.now) }
    {
        owned::file_len(&self.owned, app, name)
    }

    /// Returns the application's bundle with this name.
    pub fn bundle(&self, app: &App, name: &Name) -> Option<&Bundle>
        ensures { option_map (λ b. b.now) result ≡ file_at app.now name.now self.now }
    {
        owned::bundle(&self.owned, app, name)
    }

    /// Returns the names of an application's bundles and the lengths of their files, in the order
    /// of installation.
    pub fn sizes(&self, alloc: Global, app: &App) -> Result<Vec<(Name, u64)>, AllocError>
        ensures { IfOk result (λ sizes. sizes.items
            ≡ map (λ e. (e.0, length e.1)) (files_of app.now self.now)) }
    {
        match owned::bundles_of(&self.owned, app) {
            Some(bundles) => bundles::sizes(alloc, bundles),
            None => Ok(Vec::new(alloc)),
        }
    }

    /// Begins changes of an application's bundles that are made together by `release`.
    pub fn draft(&self, alloc: Global, app: &App) -> Result<Draft, AllocError>
        ensures app { IfOk result (λ draft. draft.app ≡ app.now) }
        ensures none { IfOk result (λ draft. draft.edits ≡ []) }
        ensures sizes { IfOk result
            (λ draft. draft.sizes ≡ sizes_of (files_of app.now self.now)) }
    {
        Draft::of(
            alloc,
            *self.owned.hasher(),
            app,
            owned::bundles_of(&self.owned, app),
        )
    }

    /// Makes the changes of a draft in their order: all of them, or none if memory runs out.
    pub fn release(&mut self, draft: Draft) -> Result<(), AllocError>
        ensures files { OnOk result
            (files_of draft.app self.new ≡ edited draft.edits (files_of draft.app self.old)) }
        ensures others { OthersStay draft.app self.old self.new }
        // The other applications with bundles stay as many.
        ensures apps { OnOk result (apps_of self.new + more_apps (files_of draft.app self.new)
            ≡ apps_of self.old + more_apps (files_of draft.app self.old)) }
        ensures unchanged { OnErr result (self.new ≡ self.old) }
    {
        let app = *draft.app();
        owned::release(&mut self.owned, &app, draft.into_edits())
    }

    /// Returns how many applications have bundles.
    pub fn apps(&self) -> u64
        ensures count { result ≡ apps_of self.now }
        // Each application counts once, and has bundles.
        ensures once { AreThereOnce self.now }
    {
        self.owned.len() as u64
    }

    /// Returns a reference to the bundles of an application.
    pub fn shelf(&self, app: &App) -> AppShelf<'_>
        ensures bundles { bundles_lent result ≡ bundle_at (list_of app.now self.now) }
        ensures files { files_in result ≡ files_of app.now self.now }
    {
        AppShelf {
            bundles: owned::bundles_of(&self.owned, app),
            near: usize::MAX,
        }
    }

    /// Returns a reference to the bundles of an application, like `shelf`. Finds them, and then the
    /// bundle of a name, in less time if the hint says where they are.
    pub fn shelf_near(&self, app: &App, hint: BundleHint) -> AppShelf<'_>
        ensures bundles { bundles_lent result ≡ bundle_at (list_of app.now self.now) }
        ensures files { files_in result ≡ files_of app.now self.now }
    {
        AppShelf {
            bundles: owned::bundles_near(&self.owned, app, hint.app),
            near: hint.bundle,
        }
    }

    /// Returns true if the bundle at a hint's indices has these names.
    pub fn is_at(&self, hint: BundleHint, app: &[u8], locale: &[u8]) -> bool
        ensures { result ≡ is_bundle_at self.now hint app.now locale.now }
    {
        match self.owned.get_index(hint.app) {
            Some((name, package)) => {
                name.as_bytes() == app
                    && bundles::is_name_at(package.bundles(), hint.bundle, locale)
            }
            None => false,
        }
    }

    /// Reads from the entry of the bundle at a hint's indices, so that it comes into the cache. What
    /// is returned says only that the memory was read.
    pub fn read_entry(&self, hint: BundleHint) -> u8 {
        self.shelf_at(hint.app).read_entry(hint.bundle).unwrap_or(0)
    }

    /// Reads from each cache line of the file of the bundle at a hint's indices, like `read_entry`,
    /// if the file has at most 1,024 bytes.
    pub fn read_file(&self, hint: BundleHint) -> u8 {
        self.shelf_at(hint.app).read_file(hint.bundle).unwrap_or(0)
    }

    /// Returns the index of an application that has bundles. A change of any application's bundles
    /// may change it.
    pub fn app_index(&self, app: &App) -> Option<usize>
        ensures found { IfSome result (λ i. slice_get self.now.owned i
            ≡ Some (app.now, files_of app.now self.now)) }
        ensures none { IfNone result (files_of app.now self.now ≡ []) }
    {
        owned::index_of(&self.owned, app)
    }

    /// Returns a reference to the bundles of the application at an index, which has none if no
    /// application is there.
    pub fn shelf_at(&self, index: usize) -> AppShelf<'_>
        ensures { files_in result ≡ files_at_index self.now index }
    {
        let bundles = match self.owned.get_index(index) {
            Some((_, package)) => Some(package.bundles()),
            None => None,
        };
        AppShelf {
            bundles,
            near: usize::MAX,
        }
    }

    pub fn icu_shelf(&self) -> AppShelf<'_>
        ensures bundles { bundles_lent result ≡ bundle_at (icudata_of self.now) }
        ensures files { files_in result ≡ icudata_files self.now }
    {
        AppShelf {
            bundles: Some(&self.icudata),
            near: usize::MAX,
        }
    }
}
