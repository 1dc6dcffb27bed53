ghost use Rattle.std.specs.Prelude.{◌≡◌, [], List, ℕ, IfErr, OnOk};
ghost use Rattle.rb_packages.specs.Packages.{icudata_of, list_of};
ghost use Rattle.rb_engine.specs.Start.{Loads, IsRefused};
ghost use Rattle.rb_engine.specs.Source.{Adds};

use crate::payload::{ReadFault, payload_bundle};
use crate::request::Payload;
use rb_locales::Name;
use rb_packages::{PackFault, Packages};
use std::alloc::Global;
use thiserror::Error;

/// The reason why an engine doesn't start, with the index of the first invalid entry of ICUDATA. An
/// entry's payload is checked before its name.
#[derive(Clone, Copy, Debug, PartialEq, Eq, Error)]
pub enum StartFault {
    #[error("the text of entry {0} is not a valid bundle text")]
    BadText(usize),
    #[error("the file of entry {0} is not a valid bundle")]
    BadFile(usize),
    #[error("the name of entry {0} is that of an earlier one")]
    Twice(usize),
    #[error("out of memory")]
    Memory,
}

fn load(
    alloc: Global,
    packages: &mut Packages,
    index: usize,
    name: Name,
    payload: Payload,
) -> Result<(), StartFault>
    ensures entry { Adds index name payload (icudata_of packages.old) result
        (icudata_of packages.new) }
    ensures lists { (app : List ℕ) → list_of app packages.new ≡ list_of app packages.old }
{
    let bundle = match payload_bundle(alloc, payload) {
        Ok(bundle) => bundle,
        Err(ReadFault::BadText(_)) => return Err(StartFault::BadText(index)),
        Err(ReadFault::BadFile(_)) => return Err(StartFault::BadFile(index)),
        Err(ReadFault::Refused(_)) => return Err(StartFault::Memory),
    };
    match packages.load(name, bundle) {
        Ok(()) => Ok(()),
        Err((PackFault::Memory, _)) => Err(StartFault::Memory),
        Err(_) => Err(StartFault::Twice(index)),
    }
}

pub(crate) fn load_all(
    alloc: Global,
    packages: &mut Packages,
    entries: Vec<(Name, Payload)>,
) -> Result<(), StartFault>
    requires { icudata_of packages.old ≡ [] }
    ensures loaded { OnOk result (Loads [] entries.items (icudata_of packages.new)) }
    ensures refused { IfErr result (IsRefused entries.items) }
    ensures lists { (app : List ℕ) → list_of app packages.new ≡ list_of app packages.old }
{
    for (index, (name, payload)) in entries.into_iter().enumerate() {
        load(alloc, packages, index, name, payload)?;
    }
    Ok(())
}
