ghost use Rattle.std.specs.Prelude.{◌≡◌, ◌+◌, ◌-◌, ◌^◌, [], ◌∷◌, ◌++◌, Some, None, IfOk, OnOk, OnErr};
ghost use Rattle.std.specs.Prelude.{length, min, fold, sum_by};
ghost use Rattle.std.specs.Map.{values_of, remove_entry};
ghost use Rattle.std.specs.Str.{bytes_eq};
ghost use Rattle.indexmap.specs.IndexMap.{insert_entry, insert_all};
ghost use Rattle.rb_packages.specs.Lent.{files_lent};
ghost use Rattle.rb_packages.specs.Release.{sizes_of, put_fault, removal_fault, IsDraftJudged};

use crate::app::App;
use crate::bundles::{Bundles, sizes};
use crate::fault::DraftFault;
use crate::limits::BUNDLE_LIMIT;
use crate::usage::Usage;
use indexmap::IndexMap;
use rb_locales::Name;
use rb_validator::Bundle;
use std::alloc::{AllocError, Global};
use std::hash::RandomState;
use std::marker::Model;

/// A change of the bundle with a name: another bundle, or none.
pub(crate) type Edit = (Name, Option<Bundle>);

/// Names, and the lengths of the files that are stored under them.
type Lens = IndexMap<Name, u64, RandomState>;

/// Changes of one application's bundles that are judged one after another, and not made yet.
///
/// A draft stores the names and lengths of the bundles that there would be, so a change is judged
/// without a search through the earlier ones.
#[derive(Drop)]
pub struct Draft {
    app: App,
    edits: Vec<Edit>,
    lens: Lens,
}

impl Model for Draft {
    ghost use Rattle.std.specs.Prelude.{List, ℕ};
    ghost use Rattle.rb_packages.specs.Release.{Drafted};

    ghost Value = { Drafted };

    ghost view = { λ d. record { app = d.app; edits = d.edits.items; sizes = d.lens.entries } };
}

/// Stores names and lengths after those that are there.
fn add_lens(lens: &mut Lens, sizes: Vec<(Name, u64)>) -> Result<(), AllocError>
    ensures { OnOk result
        (lens.new.entries ≡ insert_all bytes_eq lens.old.entries sizes.items) }
{
    'sizes: for (name, len) in sizes {
        lens.insert(name, len)?;
    }
    Ok(())
}

/// Returns the names of bundles and the lengths of their files, in their order.
fn lens_in(alloc: Global, state: RandomState, bundles: &Bundles) -> Result<Lens, AllocError>
    ensures { IfOk result (λ lens. lens.entries ≡ sizes_of bundles.now.entries) }
{
    let mut lens = IndexMap::with_capacity_and_hasher(alloc, bundles.len(), state)?;
    add_lens(&mut lens, sizes(alloc, bundles)?)?;
    Ok(lens)
}

/// Returns the names of bundles and the lengths of their files, in their order.
fn lens_of(alloc: Global, state: RandomState, bundles: Option<&Bundles>) -> Result<Lens, AllocError>
    ensures { IfOk result (λ lens. lens.entries ≡ sizes_of (files_lent bundles.entry)) }
{
    match bundles {
        Some(bundles) => lens_in(alloc, state, bundles),
        None => Ok(IndexMap::with_hasher(alloc, state)),
    }
}

/// Sums lengths, saturating.
fn sum(lens: &Lens) -> u64
    ensures { result ≡ fold (λ sum len. min (sum + len) (2 ^ 64 - 1)) 0
        (values_of lens.now.entries) }
{
    lens.values()
        .fold(0, |sum: u64, len| sum.saturating_add(*len))
}

impl Draft {
    /// Begins a draft without changes.
    pub(crate) fn of(
        alloc: Global,
        state: RandomState,
        app: &App,
        bundles: Option<&Bundles>,
    ) -> Result<Draft, AllocError>
        ensures app { IfOk result (λ draft. draft.app ≡ app.now) }
        ensures none { IfOk result (λ draft. draft.edits ≡ []) }
        ensures sizes { IfOk result (λ draft. draft.sizes ≡ sizes_of (files_lent bundles.entry)) }
    {
        Ok(Draft {
            app: *app,
            edits: Vec::new(alloc),
            lens: lens_of(alloc, state, bundles)?,
        })
    }

    pub fn app(&self) -> &App
        ensures { result.now ≡ self.now.app }
    {
        &self.app
    }

    /// Adds a change that installs a bundle, or replaces the one with its name. A change that isn't
    /// taken changes nothing and drops the bundle: `Full`, or `Memory`.
    pub fn put(&mut self, name: Name, bundle: Bundle) -> Result<(), DraftFault>
        ensures app { self.new.app ≡ self.old.app }
        ensures judged { IsDraftJudged (put_fault name self.old) result }
        ensures added { OnOk result
            (self.new.edits ≡ self.old.edits ++ (name, Some bundle) ∷ []) }
        ensures size { OnOk result
            (self.new.sizes ≡ insert_entry bytes_eq self.old.sizes name (length bundle)) }
        ensures unchanged { OnErr result (self.new ≡ self.old) }
    {
        if self.edits.len() >= BUNDLE_LIMIT {
            return Err(DraftFault::Full);
        }
        if !self.lens.contains_key(&name) && self.lens.len() >= BUNDLE_LIMIT {
            return Err(DraftFault::Full);
        }
        let len = bundle.bytes().len() as u64;
        if self.edits.reserve(1).is_err() || self.lens.insert(name, len).is_err() {
            return Err(DraftFault::Memory);
        }
        self.edits.push((name, Some(bundle))).unwrap();
        Ok(())
    }

    /// Adds a change that removes a bundle. A change that isn't taken changes nothing: `Full`,
    /// `Absent`, or `Memory`.
    pub fn remove(&mut self, name: Name) -> Result<(), DraftFault>
        ensures app { self.new.app ≡ self.old.app }
        ensures judged { IsDraftJudged (removal_fault name self.old) result }
        ensures added { OnOk result (self.new.edits ≡ self.old.edits ++ (name, None) ∷ []) }
        ensures size { OnOk result
            (self.new.sizes ≡ remove_entry (bytes_eq name) self.old.sizes) }
        ensures unchanged { OnErr result (self.new ≡ self.old) }
    {
        if self.edits.len() >= BUNDLE_LIMIT {
            return Err(DraftFault::Full);
        }
        if !self.lens.contains_key(&name) {
            return Err(DraftFault::Absent);
        }
        if self.edits.reserve(1).is_err() {
            return Err(DraftFault::Memory);
        }
        self.lens.shift_remove(&name);
        self.edits.push((name, None)).unwrap();
        Ok(())
    }

    /// Returns how much the application would store.
    pub fn usage(&self) -> Usage
        ensures bytes { result.bytes
            ≡ min (sum_by (λ e. e.1) self.now.sizes) (2 ^ 64 - 1) }
        ensures count { result.bundles ≡ length self.now.sizes }
    {
        Usage {
            bytes: sum(&self.lens),
            bundles: self.lens.len() as u64,
        }
    }

    pub(crate) fn into_edits(self) -> Vec<Edit>
        ensures { result.items ≡ self.edits }
    {
        self.edits
    }
}
