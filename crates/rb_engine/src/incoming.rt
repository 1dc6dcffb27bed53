ghost use Rattle.std.specs.Prelude.{◌≡◌, [], ◌∷◌, ◌++◌, Ok, Err, Some, IfOk, IfErr, OnOk, OnErr, length};
ghost use Rattle.std.specs.Str.{bytes_eq};
ghost use Rattle.indexmap.specs.IndexMap.{insert_entry};
ghost use Rattle.rb_packages.specs.Release.{put_fault, IsDraftJudged};
ghost use Rattle.rb_engine.specs.Answer.{refusal};
ghost use Rattle.rb_engine.specs.Place.{place_of as placed};
ghost use Rattle.rb_engine.specs.Source.{HasNone, Reads, payload_of};
ghost use Rattle.rb_engine.specs.declared.place.Place.{Place};
ghost use Rattle.rb_engine.specs.declared.place.PlaceFault.{PlaceFault};
ghost use Rattle.rb_engine.specs.Change.{IsFileOf};
ghost use Rattle.rb_engine.specs.ReadFaults.{IsFirstFault};

use crate::payload::{ReadFault, bundle_of, payload_bundle};
use crate::place::{Place, place_of};
use crate::request::{BundleSource, Payload, Reply};
use rb_locales::Name;
use rb_packages::{App, Draft, DraftFault};
use rb_validator::Bundle;
use std::alloc::Global;
use std::marker::Model;

/// A bundle that was read from a request's payload, and the name under which to store it.
#[derive(Drop)]
pub struct IncomingBundle {
    place: Place,
    bundle: Bundle,
}

impl Model for IncomingBundle {
    ghost use Rattle.std.specs.Prelude.{List, ℕ};
    ghost use Rattle.std.specs.Coded.{codes};
    ghost use Rattle.rb_engine.specs.declared.place.Place.{Place};

    ghost Value = { Place × List ℕ };

    ghost coded = { Prim.hlevel codes };

    ghost view = { λ b. (b.place, b.bundle) };
}

impl IncomingBundle {
    /// Reads an incoming bundle: checks its names, then parses and writes a text or accepts a file.
    /// Returns the first error: `BadApp`, `Reserved`, `BadLocale`, `BadText` or `BadFile`; or
    /// `Memory`. An error keeps nothing of the payload.
    pub fn read(
        alloc: Global,
        app: &[u8],
        locale: &[u8],
        source: BundleSource<'_>,
    ) -> Result<IncomingBundle, Reply>
        ensures read { Reads app.now locale.now (payload_of source.entry) result }
        ensures file { IfOk result (λ incoming. IsFileOf (payload_of source.entry) incoming.1) }
    {
        let place = place_of(app, locale)?;
        let bundle = bundle_of(alloc, source)?;
        Ok(IncomingBundle { place, bundle })
    }

    /// Reads an incoming bundle like `read`, and reports what is wrong with a text or a file: the
    /// first error that `compile` or `accept` finds. Invalid names are reported first.
    pub fn judge(
        alloc: Global,
        app: &[u8],
        locale: &[u8],
        source: BundleSource<'_>,
    ) -> Result<IncomingBundle, ReadFault>
        ensures read { IfOk result
            (λ incoming. Reads app.now locale.now (payload_of source.entry) (Ok incoming)) }
        ensures file { IfOk result (λ incoming. IsFileOf (payload_of source.entry) incoming.1) }
        ensures first { IfErr result (IsFirstFault (payload_of source.entry)) }
        ensures names { (e : PlaceFault) → placed app.now locale.now ≡ Err e
            → result ≡ Err (ReadFault.Refused (refusal e)) }
        ensures payload { (place : Place) → placed app.now locale.now ≡ Ok place
            → IfErr result (HasNone (payload_of source.entry)) }
    {
        let place = match place_of(app, locale) {
            Ok(place) => place,
            Err(fault) => return Err(ReadFault::Refused(Reply::from(fault))),
        };
        match bundle_of(alloc, source) {
            Ok(bundle) => Ok(IncomingBundle { place, bundle }),
            Err(fault) => Err(fault),
        }
    }

    /// Names a bundle that was accepted before.
    pub fn of(app: &App, name: &Name, bundle: Bundle) -> IncomingBundle
        ensures app { result.0.app ≡ app.now }
        ensures name { result.0.name ≡ name.now }
        ensures bundle { result.1 ≡ bundle }
    {
        let place = Place {
            app: *app,
            name: *name,
        };
        IncomingBundle { place, bundle }
    }

    /// Adds the bundle to the changes of a draft, under its locale's name.
    pub fn add_to(self, draft: &mut Draft) -> Result<(), DraftFault>
        ensures app { draft.new.app ≡ draft.old.app }
        ensures added { OnOk result
            (draft.new.edits ≡ draft.old.edits ++ (self.0.name, Some self.1) ∷ []) }
        ensures judged { IsDraftJudged (put_fault self.0.name draft.old) result }
        ensures size { OnOk result (draft.new.sizes
            ≡ insert_entry bytes_eq draft.old.sizes self.0.name (length self.1)) }
        ensures unchanged { OnErr result (draft.new ≡ draft.old) }
    {
        let (place, bundle) = self.into_parts();
        draft.put(place.name, bundle)
    }

    pub(crate) fn read_payload(
        alloc: Global,
        app: &[u8],
        locale: &[u8],
        payload: Payload,
    ) -> Result<IncomingBundle, Reply>
        ensures read { Reads app.now locale.now payload result }
    {
        let place = place_of(app, locale)?;
        let bundle = payload_bundle(alloc, payload)?;
        Ok(IncomingBundle { place, bundle })
    }

    pub fn app(&self) -> &App
        ensures { result.now ≡ self.now.0.app }
    {
        &self.place.app
    }

    pub fn len(&self) -> u64
        ensures { result ≡ length self.now.1 }
    {
        self.bundle.bytes().len() as u64
    }

    pub(crate) fn place(&self) -> &Place
        ensures { result.now ≡ self.now.0 }
    {
        &self.place
    }

    pub(crate) fn into_parts(self) -> (Place, Bundle)
        ensures { result ≡ self }
    {
        (self.place, self.bundle)
    }
}
