ghost use Rattle.std.specs.Prelude.{◌≡◌, ◌≢◌, ◌+◌, ℕ, List, Ok, [], ◌∷◌, ◌++◌};
ghost use Rattle.std.specs.Map.{set_value};
ghost use Rattle.std.specs.Str.{bytes_eq};
ghost use Rattle.rb_packages.specs.Packages.{files_of, OthersStay};
ghost use Rattle.rb_packages.specs.Usage.{apps_of, more_apps};
ghost use Rattle.rb_engine.specs.Change.{Removes};
ghost use Rattle.rb_engine.specs.Place.{place_of as place_at};
ghost use Rattle.rb_engine.specs.Source.{Reads, Handles};
ghost use Rattle.rb_engine.specs.Version.{next_version};
ghost use Rattle.rb_engine.specs.inner.LastChanges.{HasChanged};
ghost use Rattle.rb_engine.specs.declared.request.Payload.{Payload};
ghost use Rattle.rb_engine.specs.declared.request.Request.TheVariants.{Install, Replace, Remove};
ghost use Rattle.rb_engine.specs.declared.request.Request.TheVariants.{List as Lists};

use crate::place::{Place, PlaceFault, place_of};
use crate::request::{NameList, Reply};
use crate::versions::Versions;
use rb_packages::{App, PackFault, Packages};
use rb_validator::Bundle;
use std::alloc::Global;

/// The kind of request that stores a bundle.
#[derive(Clone, Copy, PartialEq, Eq)]
pub enum Change {
    Install,
    Replace,
}

impl From<PackFault> for Reply {
    ghost use Rattle.rb_engine.specs.Source.{not_installed_reply};

    ghost from_gives = { λ e r. r ≡ not_installed_reply e };

    fn from(fault: PackFault) -> Self {
        match fault {
            PackFault::Exists | PackFault::Twice => Reply::Exists,
            PackFault::Full => Reply::Full,
            PackFault::Memory => Reply::Memory,
        }
    }
}

pub(crate) fn install(
    packages: &mut Packages,
    versions: &mut Versions,
    place: &Place,
    bundle: Bundle,
) -> Reply
    ensures step { (app locale : List ℕ) → (payload : Payload)
        → Reads app locale payload (Ok (place.now, bundle))
        → Handles (Install app locale payload) result packages.old packages.new }
    ensures files { result ≡ Reply.Done
        → files_of place.now.app packages.new
        ≡ files_of place.now.app packages.old ++ (place.now.name, bundle) ∷ [] }
    ensures apps { result ≡ Reply.Done
        → apps_of packages.new
        ≡ apps_of packages.old + more_apps (files_of place.now.app packages.old) }
    ensures others { OthersStay place.now.app packages.old packages.new }
    ensures version { result ≡ Reply.Done → versions.new.latest ≡ next_version versions.old.latest }
    ensures change { result ≡ Reply.Done
        → HasChanged packages.old packages.new versions.old versions.new }
    ensures unchanged { result ≢ Reply.Done
        → (packages.new ≡ packages.old) × (versions.new ≡ versions.old) }
{
    match packages.install(&place.app, place.name, bundle) {
        Ok(()) => {
            versions.rise(place.app.as_bytes());
            Reply::Done
        }
        Err((fault, _)) => Reply::from(fault),
    }
}

pub(crate) fn replace(
    packages: &mut Packages,
    versions: &mut Versions,
    place: &Place,
    bundle: Bundle,
) -> Reply
    ensures step { (app locale : List ℕ) → (payload : Payload)
        → Reads app locale payload (Ok (place.now, bundle))
        → Handles (Replace app locale payload) result packages.old packages.new }
    ensures files { result ≡ Reply.Done
        → files_of place.now.app packages.new
        ≡ set_value (bytes_eq place.now.name) (files_of place.now.app packages.old) bundle }
    ensures apps { result ≡ Reply.Done
        → apps_of packages.new
        ≡ apps_of packages.old + more_apps (files_of place.now.app packages.old) }
    ensures others { OthersStay place.now.app packages.old packages.new }
    ensures version { result ≡ Reply.Done → versions.new.latest ≡ next_version versions.old.latest }
    ensures change { result ≡ Reply.Done
        → HasChanged packages.old packages.new versions.old versions.new }
    ensures unchanged { result ≢ Reply.Done
        → (packages.new ≡ packages.old) × (versions.new ≡ versions.old) }
    ensures memory { result ≢ Reply.Memory }
{
    match packages.replace(&place.app, &place.name, bundle) {
        Ok(_) => {
            versions.rise(place.app.as_bytes());
            Reply::Done
        }
        Err(_) => Reply::Absent,
    }
}

pub(crate) fn remove(
    packages: &mut Packages,
    versions: &mut Versions,
    app: &[u8],
    locale: &[u8],
) -> Reply
    ensures step { Handles (Remove app.now locale.now) result packages.old packages.new }
    ensures removed { Removes (place_at app.now locale.now) result packages.old packages.new }
    ensures version { result ≡ Reply.Done → versions.new.latest ≡ next_version versions.old.latest }
    ensures change { result ≡ Reply.Done
        → HasChanged packages.old packages.new versions.old versions.new }
    ensures unchanged { result ≢ Reply.Done
        → (packages.new ≡ packages.old) × (versions.new ≡ versions.old) }
    ensures memory { result ≢ Reply.Memory }
{
    let place = match place_of(app, locale) {
        Ok(place) => place,
        Err(fault) => return Reply::from(fault),
    };
    match packages.remove(&place.app, &place.name) {
        Ok(_) => {
            versions.rise(place.app.as_bytes());
            Reply::Done
        }
        Err(_) => Reply::Absent,
    }
}

pub(crate) fn list(packages: &Packages, alloc: Global, app: &[u8]) -> Reply
    ensures { Handles (Lists app.now) result packages.now packages.now }
{
    let app = match App::read(app) {
        Ok(app) => app,
        Err(fault) => return Reply::from(PlaceFault::from(fault)),
    };
    match packages.list(alloc, &app) {
        Ok(names) => Reply::Names(NameList::from_vec(names)),
        Err(_) => Reply::Memory,
    }
}
