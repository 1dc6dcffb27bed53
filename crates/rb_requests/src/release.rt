//! Releases: changes of one application's bundles, all of which are made or none.
ghost use Rattle.std.specs.Prelude.{◌≡◌, ◌<◌, ◌-◌, ◌^◌, [], List, ℕ, length, min, sum_by, false};
ghost use Rattle.std.specs.Prelude.{IfErr, IfOk, OnErr, OnOk, None, Some};
ghost use Rattle.hex.specs.Hex.{decode_of};
ghost use Rattle.rb_packages.specs.App.{app_of};
ghost use Rattle.rb_packages.specs.Limits.{bundle_limit};
ghost use Rattle.rb_packages.specs.Packages.{Files, files_of};
ghost use Rattle.rb_packages.specs.Release.{IsDraftOf, edited, put_fault};
ghost use Rattle.rb_packages.specs.Usage.{apps_of};
ghost use Rattle.rb_engine.specs.Source.{payload_of};
ghost use Rattle.rb_engine.specs.declared.request.Payload.{Payload};
ghost use Rattle.rb_requests.specs.Asked.{decoded};
ghost use Rattle.rb_requests.specs.ExtendedAsked.{PutsAt, ReleaseChange, RemovesAt};
ghost use Rattle.rb_requests.specs.Limits.{is_over as over};
ghost use Rattle.rb_requests.specs.Released.{IsReleased, IsSumRefused, IsUnreleased, sum_refusal};
ghost use Rattle.rb_requests.specs.declared.limits.Limits.{Limits};
ghost use Rattle.rb_requests.specs.inner.ChangesRead.{change_seen, changes_seen};
ghost use Rattle.rb_requests.specs.inner.Drafted.{Adds, Drafts, DraftsAll, DraftsAt, IsPutRefused};
ghost use Rattle.rb_requests.specs.inner.Drafted.{refusal_by};
ghost use Rattle.rb_requests.specs.inner.Judged.{IfRefused};

use crate::ask::decode;
use crate::change_list::{ChangePayload, LineChange};
use crate::changes::{is_over, is_sum_over};
use crate::judged::{Unmade, judge, undrafted};
use crate::limits::{Limits, Refusal};
use rb_engine::{App, BUNDLE_LIMIT, BundleSource, Draft, Engine, IncomingBundle, Reply};
use rb_locales::Name;
use std::alloc::Global;

/// Decodes the file of a change, whose digits were read before.
fn file_source(alloc: Global, digits: &str) -> Result<BundleSource<'static>, Unmade>
    ensures file { (p : Payload) → decoded (decode_of digits.now) ≡ Some p
        → IfOk result (λ source. payload_of source ≡ p) }
    ensures memory { (p : Payload) → decoded (decode_of digits.now) ≡ Some p
        → IfErr result (λ unmade. unmade ≡ Unmade.Memory) }
{
    match decode(alloc, digits) {
        Ok(Some(source)) => Ok(source),
        Ok(None) => Err(Unmade::plain(Reply::BadFile.word())),
        Err(_) => Err(Unmade::Memory),
    }
}

/// Adds a bundle to a draft, unless its file is too long.
fn add_incoming(limits: &Limits, incoming: IncomingBundle, draft: &mut Draft) -> Result<(), Unmade>
    ensures app { draft.new.app ≡ draft.old.app }
    ensures added { OnOk result ((over limits.now.bundle_bytes (length incoming.1) ≡ false)
        × (put_fault incoming.0.name draft.old ≡ None)
        × Adds draft.old (incoming.0.name, Some incoming.1) draft.new) }
    ensures refused { IfErr result (λ unmade. IfRefused unmade
        (IsPutRefused limits.now draft.old incoming.0 incoming.1)) }
{
    let is_long = is_over(limits.bundle_bytes, incoming.len());
    match incoming.add_to(draft) {
        Ok(()) if is_long => Err(Unmade::plain(Refusal::BundleTooLong.word())),
        Ok(()) => Ok(()),
        Err(fault) => Err(undrafted(fault)),
    }
}

/// Judges a change with a payload, and adds it to a draft.
fn draft_put(
    alloc: Global,
    limits: &Limits,
    app: &[u8],
    locale: &[u8],
    source: BundleSource<'_>,
    draft: &mut Draft,
) -> Result<(), Unmade>
    ensures app { draft.new.app ≡ draft.old.app }
    ensures edits { Drafts limits.now app.now (PutsAt locale.now (payload_of source.entry))
        draft.old result draft.new }
{
    match judge(alloc, limits, app, locale, source) {
        Ok(incoming) => add_incoming(limits, incoming, draft),
        Err(unmade) => Err(unmade),
    }
}

/// Judges a removal, and adds it to a draft.
fn draft_removal(locale: &[u8], draft: &mut Draft) -> Result<(), Unmade>
    ensures app { draft.new.app ≡ draft.old.app }
    ensures edits { (limits : Limits) (app : List ℕ)
        → Drafts limits app (RemovesAt locale.now) draft.old result draft.new }
{
    let Ok(name) = Name::read(locale) else {
        return Err(Unmade::plain(Reply::BadLocale.word()));
    };
    match draft.remove(name) {
        Ok(()) => Ok(()),
        Err(untaken) => Err(undrafted(untaken)),
    }
}

/// Judges a change, and adds it to a draft.
fn draft_change(
    alloc: Global,
    limits: &Limits,
    app: &[u8],
    change: &LineChange<'_>,
    draft: &mut Draft,
) -> Result<(), Unmade>
    ensures app { draft.new.app ≡ draft.old.app }
    ensures edits { (c : ReleaseChange) → change_seen change.now ≡ Some c
        → Drafts limits.now app.now c draft.old result draft.new }
{
    let locale = change.locale.as_bytes();
    match change.payload {
        ChangePayload::Text(text) => {
            let source = BundleSource::Text(text.as_bytes());
            draft_put(alloc, limits, app, locale, source, draft)
        }
        ChangePayload::File(digits) => match file_source(alloc, digits) {
            Ok(source) => draft_put(alloc, limits, app, locale, source, draft),
            Err(unmade) => Err(unmade),
        },
        ChangePayload::Removal => draft_removal(locale, draft),
    }
}

/// Judges the change at an index, and adds it to a draft. One above the limit is refused for that,
/// whatever else is wrong with it.
fn draft_at(
    alloc: Global,
    limits: &Limits,
    app: &[u8],
    index: usize,
    change: &LineChange<'_>,
    draft: &mut Draft,
) -> Result<(), Unmade>
    ensures app { draft.new.app ≡ draft.old.app }
    ensures few { OnOk result (index < bundle_limit) }
    ensures edits { (c : ReleaseChange) → change_seen change.now ≡ Some c
        → DraftsAt limits.now app.now index c draft.old result draft.new }
{
    if index >= BUNDLE_LIMIT {
        return Err(Unmade::plain(Reply::Full.word()).at(index));
    }
    match draft_change(alloc, limits, app, change, draft) {
        Ok(()) => Ok(()),
        Err(unmade) => Err(unmade.at(index)),
    }
}

/// Judges changes in their order, up to the first that is refused.
fn draft_all(
    alloc: Global,
    limits: &Limits,
    app: &[u8],
    changes: &[LineChange<'_>],
    draft: &mut Draft,
) -> Result<(), Unmade>
    ensures app { draft.new.app ≡ draft.old.app }
    ensures edits { (files : Files) (cs : List ReleaseChange) → changes_seen changes.now ≡ Some cs
        → draft.old.edits ≡ [] → IsDraftOf files draft.old
        → DraftsAll limits.now app.now files cs result draft.new }
{
    for i in 0..changes.len() {
        match draft_at(alloc, limits, app, i, &changes[i], draft) {
            Ok(()) => {}
            Err(unmade) => return Err(unmade),
        }
    }
    Ok(())
}

/// Returns the limit that refuses the sum of all changes, if any.
fn refused_sum(engine: &Engine, limits: &Limits, draft: &Draft) -> Option<Refusal>
    ensures { result ≡ refusal_by limits.now (min (sum_by (λ e. e.1) draft.now.sizes) (2 ^ 64 - 1))
        (length draft.now.sizes) (length (files_of draft.now.app engine.now.packages))
        (apps_of engine.now.packages) }
{
    let then = draft.usage();
    if is_over(limits.app_bytes, then.bytes) {
        return Some(Refusal::OverQuota);
    }
    let is_new = then.bundles > 0 && engine.usage(draft.app()).bundles == 0;
    if is_new && is_sum_over(limits.apps, engine.apps(), 1) {
        return Some(Refusal::TooManyApps);
    }
    None
}

/// Judges the sum of all changes.
fn judge_sum(engine: &Engine, limits: &Limits, draft: &Draft) -> Result<(), Unmade>
    ensures free { IsDraftOf (files_of draft.now.app engine.now.packages) draft.now
        → OnOk result (sum_refusal limits.now (files_of draft.now.app engine.now.packages)
        (edited draft.now.edits (files_of draft.now.app engine.now.packages))
        (apps_of engine.now.packages) ≡ None) }
    ensures refused { IsDraftOf (files_of draft.now.app engine.now.packages) draft.now
        → IfErr result (λ unmade. IfRefused unmade
        (IsSumRefused limits.now engine.now draft.now.app draft.now.edits)) }
{
    match refused_sum(engine, limits, draft) {
        Some(refusal) => Err(Unmade::plain(refusal.word())),
        None => Ok(()),
    }
}

/// Makes the changes of a release, or none if one is refused: each is judged as it comes, after
/// those before it, and the limits on an application's bytes and on the applications by the sum of
/// all.
pub(crate) fn release(
    alloc: Global,
    engine: &mut Engine,
    limits: &Limits,
    app: &[u8],
    changes: &[LineChange<'_>],
) -> Result<(), Unmade>
    ensures released { OnOk result ((cs : List ReleaseChange) → changes_seen changes.now ≡ Some cs
        → IsReleased limits.now engine.old app.now cs engine.new) }
    ensures refused { IfErr result (λ unmade. (cs : List ReleaseChange)
        → changes_seen changes.now ≡ Some cs → IfRefused unmade
        (IsUnreleased limits.now engine.old app.now (app_of app.now) cs)) }
    ensures unchanged { OnErr result (engine.new ≡ engine.old) }
    ensures parents { engine.new.parents ≡ engine.old.parents }
{
    let name = match App::read(app) {
        Ok(name) => name,
        Err(fault) => return Err(Unmade::plain(fault.word())),
    };
    let Ok(mut draft) = engine.draft(alloc, &name) else {
        return Err(Unmade::Memory);
    };
    draft_all(alloc, limits, app, changes, &mut draft)?;
    judge_sum(engine, limits, &draft)?;
    match engine.release(draft) {
        Ok(()) => Ok(()),
        Err(_) => Err(Unmade::Memory),
    }
}
