ghost use Rattle.std.specs.Prelude.{◌≡◌, ◌-◌, ◌^◌, ◌+◌, [], ◌∷◌, ◌++◌, Some, None, IfOk, IfErr};
ghost use Rattle.std.specs.Prelude.{IfNone, IfSome, OnOk, OnErr, IsTrue, true, false, length, min};
ghost use Rattle.std.specs.Prelude.{is_some, slice_get};
ghost use Rattle.std.specs.Prelude.{option_map, if◌then◌else◌};
ghost use Rattle.std.specs.Option.{option_copied};
ghost use Rattle.std.specs.Map.{lookup, set_value, remove_entry};
ghost use Rattle.std.specs.Str.{bytes_eq};
ghost use Rattle.rb_packages.specs.Packages.{shelf_of, install_fault, IsJudged};
ghost use Rattle.rb_packages.specs.Index.{files_at, files_by_app, KeepsOthers, IsBare};
ghost use Rattle.rb_packages.specs.Release.{edited};
ghost use Rattle.rb_packages.specs.Usage.{bytes_of, more_apps};
ghost use Rattle.rb_packages.specs.declared.fault.PackFault.TheVariants as faults;

use crate::app::App;
use crate::bundles;
use crate::bundles::Bundles;
use crate::draft::Edit;
use crate::fault::{Absent, PackFault};
use crate::package::Package;
use crate::usage::Usage;
use indexmap::IndexMap;
use rb_locales::Name;
use rb_validator::Bundle;
use std::alloc::AllocError;
use std::hash::RandomState;

/// The packages by application. An application without bundles has no entry.
pub(crate) type Owned = IndexMap<App, Package, RandomState>;

pub(crate) fn bundles_of<'a>(owned: &'a Owned, app: &App) -> Option<&'a Bundles>
    ensures { option_copied result ≡ lookup (bytes_eq app.now) owned.now.entries }
{
    match owned.get(app) {
        Some(package) => Some(package.bundles()),
        None => None,
    }
}

/// Returns the bundles of the application at an index if that is this one, or else searches for it.
pub(crate) fn bundles_near<'a>(owned: &'a Owned, app: &App, near: usize) -> Option<&'a Bundles>
    ensures { option_copied result ≡ lookup (bytes_eq app.now) owned.now.entries }
{
    if let Some((other, package)) = owned.get_index(near) {
        if other.as_bytes() == app.as_bytes() {
            return Some(package.bundles());
        }
    }
    bundles_of(owned, app)
}

/// Installs the first bundle of an application, or returns it if out of memory.
fn install_first(
    owned: &mut Owned,
    app: &App,
    name: Name,
    bundle: Bundle,
) -> Result<(), (PackFault, Bundle)>
    ensures own { OnOk result (files_at app.now owned.new.entries ≡ (name, bundle) ∷ []) }
    ensures others { KeepsOthers app.now owned.old.entries owned.new.entries }
    ensures count { OnOk result (length owned.new.entries
        ≡ length owned.old.entries
        + (if is_some (lookup (bytes_eq app.now) owned.old.entries) then 0 else 1)) }
    ensures error { IfErr result (λ e. e ≡ (faults.Memory, bundle)) }
    ensures stays { OnErr result (owned.new.entries ≡ owned.old.entries) }
{
    if owned.reserve(1).is_err() {
        return Err((PackFault::Memory, bundle));
    }
    let bundles = Package::of_one(*owned.allocator(), *owned.hasher(), name, bundle)?;
    owned.insert(*app, bundles).unwrap();
    Ok(())
}

pub(crate) fn install(
    owned: &mut Owned,
    app: &App,
    name: Name,
    bundle: Bundle,
) -> Result<(), (PackFault, Bundle)>
    ensures judged { IsJudged
        (install_fault name (shelf_of (files_at app.now owned.old.entries))) result }
    ensures own { OnOk result (files_at app.now owned.new.entries
        ≡ files_at app.now owned.old.entries ++ (name, bundle) ∷ []) }
    ensures others { KeepsOthers app.now owned.old.entries owned.new.entries }
    ensures count { OnOk result (length owned.new.entries
        ≡ length owned.old.entries
        + (if is_some (lookup (bytes_eq app.now) owned.old.entries) then 0 else 1)) }
    ensures back { IfErr result (λ e. e.1 ≡ bundle) }
    ensures stays { OnErr result (files_by_app owned.new.entries ≡ files_by_app owned.old.entries) }
{
    if let Some(bundles) = owned.get_mut(app) {
        return bundles.install(name, bundle);
    }
    install_first(owned, app, name, bundle)
}

pub(crate) fn replace(
    owned: &mut Owned,
    app: &App,
    name: &Name,
    bundle: Bundle,
) -> Result<Bundle, (Absent, Bundle)>
    ensures found { IfOk result
        (λ b. lookup (bytes_eq name.now) (files_at app.now owned.old.entries) ≡ Some b) }
    ensures absent { OnErr result
        (lookup (bytes_eq name.now) (files_at app.now owned.old.entries) ≡ None) }
    ensures own { OnOk result (files_at app.now owned.new.entries
        ≡ set_value (bytes_eq name.now) (files_at app.now owned.old.entries) bundle) }
    ensures others { KeepsOthers app.now owned.old.entries owned.new.entries }
    ensures count { length owned.new.entries ≡ length owned.old.entries }
    ensures back { IfErr result (λ e. e.1 ≡ bundle) }
    ensures stays { OnErr result (files_by_app owned.new.entries ≡ files_by_app owned.old.entries) }
{
    match owned.get_mut(app) {
        Some(bundles) => bundles.replace(name, bundle),
        None => Err((Absent, bundle)),
    }
}

fn remove_bundle(owned: &mut Owned, app: &App, name: &Name) -> Option<Bundle>
    ensures found { result ≡ lookup (bytes_eq name.now) (files_at app.now owned.old.entries) }
    ensures own { files_at app.now owned.new.entries
        ≡ remove_entry (bytes_eq name.now) (files_at app.now owned.old.entries) }
    ensures others { KeepsOthers app.now owned.old.entries owned.new.entries }
    ensures count { length owned.new.entries ≡ length owned.old.entries }
    ensures there { is_some result ≡ true
        → is_some (lookup (bytes_eq app.now) owned.new.entries) ≡ true }
    ensures stays { IfNone result
        (files_by_app owned.new.entries ≡ files_by_app owned.old.entries) }
{
    match owned.get_mut(app) {
        Some(bundles) => bundles.remove(name),
        None => None,
    }
}

fn is_bare(owned: &Owned, app: &App) -> bool
    ensures bare { IsTrue result → IsBare (lookup (bytes_eq app.now) owned.now.entries) }
    ensures filled { result ≡ false → ¬ IsBare (lookup (bytes_eq app.now) owned.now.entries) }
{
    match owned.get(app) {
        Some(package) => package.bundles().is_empty(),
        None => false,
    }
}

fn remove_if_empty(owned: &mut Owned, app: &App)
    ensures own { files_at app.now owned.new.entries ≡ files_at app.now owned.old.entries }
    ensures others { KeepsOthers app.now owned.old.entries owned.new.entries }
    ensures filled { ¬ IsBare (lookup (bytes_eq app.now) owned.new.entries) }
    ensures count { is_some (lookup (bytes_eq app.now) owned.old.entries) ≡ true
        → length owned.old.entries
        ≡ length owned.new.entries + more_apps (files_at app.now owned.old.entries) }
{
    if !is_bare(owned, app) {
        return;
    }
    owned.swap_remove(app);
}

/// Removes an application's bundle, and the application's entry with its last bundle.
pub(crate) fn remove(owned: &mut Owned, app: &App, name: &Name) -> Result<Bundle, Absent>
    ensures found { IfOk result
        (λ b. lookup (bytes_eq name.now) (files_at app.now owned.old.entries) ≡ Some b) }
    ensures absent { OnErr result
        (lookup (bytes_eq name.now) (files_at app.now owned.old.entries) ≡ None) }
    ensures own { OnOk result (files_at app.now owned.new.entries
        ≡ remove_entry (bytes_eq name.now) (files_at app.now owned.old.entries)) }
    ensures others { KeepsOthers app.now owned.old.entries owned.new.entries }
    ensures filled { OnOk result (¬ IsBare (lookup (bytes_eq app.now) owned.new.entries)) }
    ensures count { OnOk result (length owned.old.entries
        ≡ length owned.new.entries + more_apps (files_at app.now owned.new.entries)) }
    ensures stays { OnErr result (files_by_app owned.new.entries ≡ files_by_app owned.old.entries) }
{
    match remove_bundle(owned, app, name) {
        Some(bundle) => {
            remove_if_empty(owned, app);
            Ok(bundle)
        }
        None => Err(Absent),
    }
}

pub(crate) fn usage(owned: &Owned, app: &App) -> Usage
    ensures bytes { result.bytes
        ≡ min (bytes_of (files_at app.now owned.now.entries)) (2 ^ 64 - 1) }
    ensures count { result.bundles ≡ length (files_at app.now owned.now.entries) }
{
    match owned.get(app) {
        Some(package) => package.usage(),
        None => Usage::NONE,
    }
}

pub(crate) fn file_len(owned: &Owned, app: &App, name: &Name) -> Option<u64>
    ensures { result
        ≡ option_map length (lookup (bytes_eq name.now) (files_at app.now owned.now.entries)) }
{
    bundles::file_len(bundles_of(owned, app)?, name)
}

pub(crate) fn bundle<'a>(owned: &'a Owned, app: &App, name: &Name) -> Option<&'a Bundle>
    ensures { option_map (λ b. b.now) result
        ≡ lookup (bytes_eq name.now) (files_at app.now owned.now.entries) }
{
    bundles::bundle(bundles_of(owned, app)?, name)
}

/// Returns the index of an application that has bundles.
pub(crate) fn index_of(owned: &Owned, app: &App) -> Option<usize>
    ensures found { IfSome result (λ i. slice_get (files_by_app owned.now.entries) i
        ≡ Some (app.now, files_at app.now owned.now.entries)) }
    ensures none { IfNone result (files_at app.now owned.now.entries ≡ []) }
{
    let Some((index, _, _)) = owned.get_full(app) else {
        return None;
    };
    Some(index)
}

/// Makes the first changes of an application, or none if memory runs out.
fn release_first(owned: &mut Owned, app: &App, edits: Vec<Edit>) -> Result<(), AllocError>
    requires { lookup (bytes_eq app.now) owned.old.entries ≡ None }
    ensures own { OnOk result (files_at app.now owned.new.entries ≡ edited edits.items []) }
    ensures others { KeepsOthers app.now owned.old.entries owned.new.entries }
    ensures filled { OnOk result (¬ IsBare (lookup (bytes_eq app.now) owned.new.entries)) }
    ensures count { OnOk result
        (length owned.new.entries + more_apps (files_at app.now owned.new.entries)
        ≡ length owned.old.entries + 1) }
    ensures stays { OnErr result
        (files_by_app owned.new.entries ≡ files_by_app owned.old.entries) }
{
    owned.reserve(1)?;
    let mut bundles = IndexMap::with_hasher(*owned.allocator(), *owned.hasher());
    bundles::edit_all(&mut bundles, edits)?;
    if !bundles.is_empty() {
        owned.insert(*app, Package::of(bundles)).unwrap();
    }
    Ok(())
}

/// Makes changes of an application's bundles in their order: all of them, or none if memory runs
/// out.
pub(crate) fn release(owned: &mut Owned, app: &App, edits: Vec<Edit>) -> Result<(), AllocError>
    ensures own { OnOk result (files_at app.now owned.new.entries
        ≡ edited edits.items (files_at app.now owned.old.entries)) }
    ensures others { KeepsOthers app.now owned.old.entries owned.new.entries }
    ensures filled { OnOk result (¬ IsBare (lookup (bytes_eq app.now) owned.new.entries)) }
    ensures count { OnOk result
        (length owned.new.entries + more_apps (files_at app.now owned.new.entries)
        ≡ length owned.old.entries
        + (if is_some (lookup (bytes_eq app.now) owned.old.entries) then 0 else 1)) }
    ensures stays { OnErr result
        (files_by_app owned.new.entries ≡ files_by_app owned.old.entries) }
{
    match owned.get_mut(app) {
        Some(bundles) => match bundles.edit_all(edits) {
            Ok(()) => {}
            Err(error) => return Err(error),
        },
        None => return release_first(owned, app, edits),
    }
    remove_if_empty(owned, app);
    Ok(())
}
