ghost use Rattle.std.specs.Prelude.{◌≡◌, ◌-◌, ◌^◌, [], ◌∷◌, ◌++◌, Some, None, IfOk, IfErr, IfNone};
ghost use Rattle.std.specs.Prelude.{OnOk, OnErr, ◌+◌, ◌<◌, ◌≤◌, length, min, map, option_map};
ghost use Rattle.std.specs.Map.{lookup, keys_of, set_value, remove_entry};
ghost use Rattle.std.specs.Str.{bytes_eq};
ghost use Rattle.rb_packages.specs.Packages.{shelf_of, install_fault, IsJudged};
ghost use Rattle.rb_packages.specs.Positions.{has_name_at};
ghost use Rattle.rb_packages.specs.Release.{edited, edited_at};
ghost use Rattle.rb_packages.specs.Usage.{bytes_of};
ghost use Rattle.indexmap.specs.IndexMap.{spare};
ghost use Rattle.rb_packages.specs.declared.fault.PackFault.TheVariants as faults;

use crate::draft::Edit;
use crate::fault::{Absent, PackFault};
use crate::limits::BUNDLE_LIMIT;
use crate::stored_bundle::StoredBundle;
use indexmap::IndexMap;
use rb_locales::Name;
use rb_validator::Bundle;
use std::alloc::{AllocError, Global};
use std::hash::RandomState;
use std::mem;

/// The bundles of one package in the order of installation.
pub(crate) type Bundles = IndexMap<Name, StoredBundle, RandomState>;

/// Creates a package of one bundle without spare capacity, since many applications have only one.
/// Returns the bundle if out of memory.
pub(crate) fn of_one(
    alloc: Global,
    state: RandomState,
    name: Name,
    bundle: Bundle,
) -> Result<Bundles, (PackFault, Bundle)>
    ensures made { IfOk result (λ bundles. bundles.entries ≡ (name, bundle) ∷ []) }
    ensures error { IfErr result (λ e. e ≡ (faults.Memory, bundle)) }
{
    let Ok(mut bundles) = IndexMap::with_capacity_and_hasher(alloc, 1, state) else {
        return Err((PackFault::Memory, bundle));
    };
    add(&mut bundles, name, bundle)?;
    bundles.shrink_to_fit();
    Ok(bundles)
}

/// Adds a bundle at the end under a new name.
pub(crate) fn add(
    bundles: &mut Bundles,
    name: Name,
    bundle: Bundle,
) -> Result<(), (PackFault, Bundle)>
    requires { lookup (bytes_eq name) bundles.old.entries ≡ None }
    ensures added { OnOk result (bundles.new.entries ≡ bundles.old.entries ++ (name, bundle) ∷ []) }
    ensures error { IfErr result (λ e. e ≡ (faults.Memory, bundle)) }
    ensures stays { OnErr result (bundles.new.entries ≡ bundles.old.entries) }
{
    match bundles.insert(name, StoredBundle::of(bundle)) {
        Ok(_) => Ok(()),
        Err(error) => {
            let (_, stored) = error.value;
            Err((PackFault::Memory, stored.into_bundle()))
        }
    }
}

/// Adds a bundle at the end, or returns it with `Exists`, `Full` or `Memory`.
pub(crate) fn install(
    bundles: &mut Bundles,
    name: Name,
    bundle: Bundle,
) -> Result<(), (PackFault, Bundle)>
    ensures judged { IsJudged (install_fault name (shelf_of bundles.old.entries)) result }
    ensures added { OnOk result (bundles.new.entries ≡ bundles.old.entries ++ (name, bundle) ∷ []) }
    ensures back { IfErr result (λ e. e.1 ≡ bundle) }
    ensures stays { OnErr result (bundles.new.entries ≡ bundles.old.entries) }
{
    if bundles.contains_key(&name) {
        return Err((PackFault::Exists, bundle));
    }
    if bundles.len() >= BUNDLE_LIMIT {
        return Err((PackFault::Full, bundle));
    }
    add(bundles, name, bundle)
}

/// Replaces the bundle with this name and returns the old one, or returns the new one with
/// `Absent`.
pub(crate) fn replace(
    bundles: &mut Bundles,
    name: &Name,
    bundle: Bundle,
) -> Result<Bundle, (Absent, Bundle)>
    ensures found { IfOk result (λ b. lookup (bytes_eq name.now) bundles.old.entries ≡ Some b) }
    ensures absent { OnErr result (lookup (bytes_eq name.now) bundles.old.entries ≡ None) }
    ensures replaced { OnOk result
        (bundles.new.entries ≡ set_value (bytes_eq name.now) bundles.old.entries bundle) }
    ensures back { IfErr result (λ e. e.1 ≡ bundle) }
    ensures stays { OnErr result (bundles.new.entries ≡ bundles.old.entries) }
{
    match bundles.get_mut(name) {
        Some(stored) => Ok(mem::replace(stored, StoredBundle::of(bundle)).into_bundle()),
        None => Err((Absent, bundle)),
    }
}

/// Removes the bundle with this name; the others keep their order.
pub(crate) fn remove(bundles: &mut Bundles, name: &Name) -> Option<Bundle>
    ensures found { result ≡ lookup (bytes_eq name.now) bundles.old.entries }
    ensures left { bundles.new.entries ≡ remove_entry (bytes_eq name.now) bundles.old.entries }
    ensures stays { IfNone result (bundles.new.entries ≡ bundles.old.entries) }
{
    match bundles.shift_remove(name) {
        Some(stored) => Some(stored.into_bundle()),
        None => None,
    }
}

/// Returns true if the bundle at an index has this name.
pub(crate) fn is_name_at(bundles: &Bundles, index: usize, name: &[u8]) -> bool
    ensures { result ≡ has_name_at bundles.now.entries index name.now }
{
    match bundles.get_index(index) {
        Some((there, _)) => there.as_bytes() == name,
        None => false,
    }
}

/// Returns the names in the order of installation.
pub(crate) fn names(alloc: Global, bundles: &Bundles) -> Result<Vec<Name>, AllocError>
    ensures { IfOk result (λ names. names.items ≡ keys_of bundles.now.entries) }
{
    bundles.keys().map(|name| *name).collect(alloc)
}

/// Sums the lengths of all files, saturating.
pub(crate) fn bytes(bundles: &Bundles) -> u64
    ensures { result ≡ min (bytes_of bundles.now.entries) (2 ^ 64 - 1) }
{
    bundles
        .values()
        .map(|stored| stored.len())
        .fold(0, |sum: u64, len| sum.saturating_add(len))
}

pub(crate) fn file_len(bundles: &Bundles, name: &Name) -> Option<u64>
    ensures { result ≡ option_map length (lookup (bytes_eq name.now) bundles.now.entries) }
{
    match bundles.get(name) {
        Some(stored) => Some(stored.len()),
        None => None,
    }
}

pub(crate) fn bundle<'a>(bundles: &'a Bundles, name: &Name) -> Option<&'a Bundle>
    ensures { option_map (λ b. b.now) result ≡ lookup (bytes_eq name.now) bundles.now.entries }
{
    match bundles.get(name) {
        Some(stored) => Some(stored.bundle()),
        None => None,
    }
}

/// Returns the names and the lengths of the files, in the order of installation.
pub(crate) fn sizes(alloc: Global, bundles: &Bundles) -> Result<Vec<(Name, u64)>, AllocError>
    ensures { IfOk result
        (λ sizes. sizes.items ≡ map (λ e. (e.0, length e.1)) bundles.now.entries) }
{
    bundles
        .iter()
        .map(|(name, stored)| (*name, stored.len()))
        .collect(alloc)
}

/// Makes a change: adds a bundle at the end or in place of the one with its name, or removes one.
pub(crate) fn edit(bundles: &mut Bundles, name: Name, bundle: Option<Bundle>)
    requires { 0 < spare bundles.old }
    ensures changed { bundles.new.entries ≡ edited_at name bundle bundles.old.entries }
    ensures room { spare bundles.old ≤ spare bundles.new + 1 }
{
    match bundle {
        Some(bundle) => {
            bundles.insert(name, StoredBundle::of(bundle)).unwrap();
        }
        None => {
            bundles.shift_remove(&name);
        }
    }
}

/// Makes changes in their order, or none if memory runs out.
pub(crate) fn edit_all(bundles: &mut Bundles, edits: Vec<Edit>) -> Result<(), AllocError>
    ensures changed { OnOk result
        (bundles.new.entries ≡ edited edits.items bundles.old.entries) }
    ensures stays { OnErr result (bundles.new.entries ≡ bundles.old.entries) }
{
    bundles.reserve(edits.len())?;
    'edits: for (name, bundle) in edits {
        edit(bundles, name, bundle);
    }
    bundles.shrink_to_fit();
    Ok(())
}
