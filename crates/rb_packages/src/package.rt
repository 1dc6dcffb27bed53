ghost use Rattle.std.specs.Prelude.{◌≡◌, ◌+◌, ◌-◌, ◌^◌, ℕ, [], ◌∷◌, ◌++◌, Some, None, IfOk, IfErr};
ghost use Rattle.std.specs.Prelude.{IfNone, OnOk, OnErr, length, min};
ghost use Rattle.std.specs.Map.{lookup, set_value, remove_entry};
ghost use Rattle.std.specs.Str.{bytes_eq};
ghost use Rattle.rb_packages.specs.Packages.{shelf_of, install_fault, IsJudged};
ghost use Rattle.rb_packages.specs.Release.{edited};
ghost use Rattle.rb_packages.specs.Usage.{bytes_of};
ghost use Rattle.rb_packages.specs.declared.fault.PackFault.TheVariants as faults;

use crate::bundles;
use crate::bundles::Bundles;
use crate::draft::Edit;
use crate::fault::{Absent, PackFault};
use crate::usage::Usage;
use rb_locales::Name;
use rb_validator::Bundle;
use std::alloc::{AllocError, Global};
use std::hash::RandomState;
use std::marker::Model;

/// The bundles of one application. The total length of their files is stored, since each change
/// under a limit needs it.
#[derive(Drop)]
pub(crate) struct Package {
    bundles: Bundles,
    /// The total length, saturating.
    bytes: u64,
}

impl Model for Package {
    ghost use Rattle.std.specs.Prelude.{◌≡◌, ◌-◌, ◌^◌, List, ℕ, min};
    ghost use Rattle.std.specs.Coded.{codes};
    ghost use Rattle.std.specs.contracts.random_state.RandomState as hasher;
    ghost use Rattle.std.specs.declared.random_state.RandomState.{RandomState};
    ghost use Rattle.indexmap.specs.IndexMap.{IndexMap};
    ghost use Rattle.indexmap.specs.Layout.{hash_map_code};
    ghost use Rattle.rb_packages.specs.Usage.{bytes_of};

    ghost Value = { IndexMap (List ℕ) (List ℕ) RandomState };

    ghost coded = { hash_map_code (Prim.hlevel codes) (Prim.hlevel codes) hasher.the_row.coded };

    ghost view = { λ p. p.bundles };

    ghost invariant = { λ p. p.bytes ≡ min (bytes_of p.bundles.entries) (2 ^ 64 - 1) };
}

impl Clone for Package {
    ghost is_clone = { λ p q. q.entries ≡ p.entries };

    fn clone(&self) -> Result<Package, AllocError> {
        Ok(Package {
            bundles: self.bundles.clone()?,
            bytes: self.bytes,
        })
    }
}

/// Returns the total length after a change of bundles whose total length was `bytes`: files of this
/// length have gone, and others have come. Only a saturated sum is computed anew.
fn bytes_after(bundles: &Bundles, bytes: u64, gone: u64, come: u64) -> u64
    ensures { (before : ℕ) → bytes ≡ min before (2 ^ 64 - 1)
        → bytes_of bundles.now.entries + gone ≡ before + come
        → result ≡ min (bytes_of bundles.now.entries) (2 ^ 64 - 1) }
{
    match bytes.checked_sub(gone) {
        Some(stayed) if bytes < u64::MAX => stayed.saturating_add(come),
        _ => bundles::bytes(bundles),
    }
}

impl Package {
    pub(crate) fn of(bundles: Bundles) -> Package
        ensures { result ≡ bundles }
    {
        Package {
            bytes: bundles::bytes(&bundles),
            bundles,
        }
    }

    /// Creates a package of one bundle without spare capacity, since many applications have only
    /// one. Returns the bundle if out of memory.
    pub(crate) fn of_one(
        alloc: Global,
        state: RandomState,
        name: Name,
        bundle: Bundle,
    ) -> Result<Package, (PackFault, Bundle)>
        ensures made { IfOk result (λ one. one.entries ≡ (name, bundle) ∷ []) }
        ensures error { IfErr result (λ e. e ≡ (faults.Memory, bundle)) }
    {
        Ok(Package::of(bundles::of_one(alloc, state, name, bundle)?))
    }

    pub(crate) fn bundles(&self) -> &Bundles
        ensures { result.now ≡ self.now }
    {
        &self.bundles
    }

    pub(crate) fn usage(&self) -> Usage
        ensures bytes { result.bytes ≡ min (bytes_of self.now.entries) (2 ^ 64 - 1) }
        ensures count { result.bundles ≡ length self.now.entries }
    {
        Usage {
            bytes: self.bytes,
            bundles: self.bundles.len() as u64,
        }
    }

    /// Adds a bundle at the end, or returns it with `Exists`, `Full` or `Memory`.
    pub(crate) fn install(&mut self, name: Name, bundle: Bundle) -> Result<(), (PackFault, Bundle)>
        ensures judged { IsJudged (install_fault name (shelf_of self.old.entries)) result }
        ensures added { OnOk result (self.new.entries ≡ self.old.entries ++ (name, bundle) ∷ []) }
        ensures back { IfErr result (λ e. e.1 ≡ bundle) }
        ensures stays { OnErr result (self.new.entries ≡ self.old.entries) }
    {
        let len = bundle.bytes().len() as u64;
        match bundles::install(&mut self.bundles, name, bundle) {
            Ok(()) => {
                self.bytes = bytes_after(&self.bundles, self.bytes, 0, len);
                Ok(())
            }
            Err(error) => Err(error),
        }
    }

    /// Replaces the bundle with this name and returns the old one, or returns the new one with
    /// `Absent`.
    pub(crate) fn replace(
        &mut self,
        name: &Name,
        bundle: Bundle,
    ) -> Result<Bundle, (Absent, Bundle)>
        ensures found { IfOk result (λ b. lookup (bytes_eq name.now) self.old.entries ≡ Some b) }
        ensures absent { OnErr result (lookup (bytes_eq name.now) self.old.entries ≡ None) }
        ensures replaced { OnOk result
            (self.new.entries ≡ set_value (bytes_eq name.now) self.old.entries bundle) }
        ensures back { IfErr result (λ e. e.1 ≡ bundle) }
        ensures stays { OnErr result (self.new.entries ≡ self.old.entries) }
    {
        let len = bundle.bytes().len() as u64;
        match bundles::replace(&mut self.bundles, name, bundle) {
            Ok(old) => {
                let gone = old.bytes().len() as u64;
                self.bytes = bytes_after(&self.bundles, self.bytes, gone, len);
                Ok(old)
            }
            Err(error) => Err(error),
        }
    }

    /// Removes the bundle with this name; the others keep their order.
    pub(crate) fn remove(&mut self, name: &Name) -> Option<Bundle>
        ensures found { result ≡ lookup (bytes_eq name.now) self.old.entries }
        ensures left { self.new.entries ≡ remove_entry (bytes_eq name.now) self.old.entries }
        ensures stays { IfNone result (self.new.entries ≡ self.old.entries) }
    {
        match bundles::remove(&mut self.bundles, name) {
            Some(bundle) => {
                let gone = bundle.bytes().len() as u64;
                self.bytes = bytes_after(&self.bundles, self.bytes, gone, 0);
                Some(bundle)
            }
            None => None,
        }
    }

    /// Makes changes in their order, or none if memory runs out.
    pub(crate) fn edit_all(&mut self, edits: Vec<Edit>) -> Result<(), AllocError>
        ensures changed { OnOk result (self.new.entries ≡ edited edits.items self.old.entries) }
        ensures stays { OnErr result (self.new.entries ≡ self.old.entries) }
    {
        match bundles::edit_all(&mut self.bundles, edits) {
            Ok(()) => {
                self.bytes = bundles::bytes(&self.bundles);
                Ok(())
            }
            Err(error) => Err(error),
        }
    }
}
