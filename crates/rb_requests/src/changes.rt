ghost use Rattle.std.specs.Prelude.{◌≡◌, ◌+◌, ℕ, List, Ok, None, true, IsTrue};
ghost use Rattle.rb_packages.specs.Packages.{files_of};
ghost use Rattle.rb_packages.specs.Usage.{apps_of};
ghost use Rattle.rb_engine.specs.Ask.{Requests};
ghost use Rattle.rb_engine.specs.Answer.{Replies};
ghost use Rattle.rb_engine.specs.Change.{IsFileOf};
ghost use Rattle.rb_engine.specs.Place.{place_of};
ghost use Rattle.rb_engine.specs.Source.{Reads, change_request, payload_of};
ghost use Rattle.rb_engine.specs.declared.request.Payload.{Payload};
ghost use Rattle.rb_requests.specs.Limits.{is_over as over, payload_len as payload_length};
ghost use Rattle.rb_requests.specs.Limits.{takes_place as is_made, file_refusal};
ghost use Rattle.rb_requests.specs.Steps.{Answers, CallComesTo, is_read};
ghost use Rattle.rb_requests.specs.Outcomes.{reply_outcome};
ghost use Rattle.rb_requests.specs.Requested.{request_of};
ghost use Rattle.rb_requests.specs.inner.LongPayload.{long_payload};

use crate::ask::LineRequest;
use crate::limits::{Limited, Limits, Refusal};
use rb_engine::{App, BundleSource, Change, Engine, IncomingBundle, Reply};
use rb_locales::Name;
use rb_packages::BUNDLE_LIMIT;
use std::alloc::Global;

pub(crate) fn is_over(limit: Option<u64>, number: u64) -> bool
    ensures { result ≡ over limit number }
{
    match limit {
        Some(most) => most < number,
        None => false,
    }
}

pub(crate) fn is_sum_over(limit: Option<u64>, a: u64, b: u64) -> bool
    ensures { result ≡ over limit (a + b) }
{
    match limit {
        Some(most) => most < a || most - a < b,
        None => false,
    }
}

pub(crate) fn source_len(source: &BundleSource<'_>) -> u64
    ensures { result ≡ payload_length (payload_of source.now) }
{
    match source {
        BundleSource::Text(text) => text.len() as u64,
        BundleSource::File(file) => file.as_slice().len() as u64,
    }
}

/// Checks for valid names with a payload that is too long to be read.
pub(crate) fn is_too_long(
    limits: &Limits,
    app: &[u8],
    locale: &[u8],
    source: &BundleSource<'_>,
) -> bool
    ensures { result
        ≡ long_payload limits.now (place_of app.now locale.now) (payload_of source.now) }
{
    is_over(limits.bundle_bytes, source_len(source))
        && App::read(app).is_ok()
        && Name::read(locale).is_ok()
}

/// Checks whether the engine would make this change, by the stored file and the bundles' number.
fn takes_place(change: Change, held: Option<u64>, bundles: u64) -> bool
    ensures { result ≡ is_made change held bundles }
{
    match change {
        Change::Install => held.is_none() && bundles < BUNDLE_LIMIT as u64,
        Change::Replace => held.is_some(),
    }
}

fn keeps_all(limits: &Limits) -> bool
    ensures { IsTrue result
        → (limits.now.bundle_bytes ≡ None) × (limits.now.app_bytes ≡ None)
        × (limits.now.apps ≡ None) }
{
    limits.bundle_bytes.is_none() && limits.app_bytes.is_none() && limits.apps.is_none()
}

/// Returns the limit that rejects an incoming bundle, if any.
fn refused(
    engine: &Engine,
    limits: &Limits,
    change: Change,
    incoming: &IncomingBundle,
) -> Option<Refusal>
    ensures { result ≡ file_refusal limits.now change incoming.now.0.name
        (files_of incoming.now.0.app engine.now.packages)
        (apps_of engine.now.packages) incoming.now.1 }
{
    if keeps_all(limits) {
        return None;
    }
    let held = engine.file_len(incoming);
    let usage = engine.usage(incoming.app());
    if !takes_place(change, held, usage.bundles) {
        return None;
    }
    if is_over(limits.bundle_bytes, incoming.len()) {
        return Some(Refusal::BundleTooLong);
    }
    let others = usage.bytes.saturating_sub(held.unwrap_or(0));
    if is_sum_over(limits.app_bytes, others, incoming.len()) {
        return Some(Refusal::OverQuota);
    }
    if usage.bundles == 0 && is_sum_over(limits.apps, engine.apps(), 1) {
        return Some(Refusal::TooManyApps);
    }
    None
}

/// Stores an incoming bundle under limits: the part of `handle` after reading the payload. A bundle
/// that a limit rejects changes nothing, and is never answered `Memory`: only an install that no
/// limit rejects may run out of memory here.
pub fn put(
    engine: &mut Engine,
    limits: &Limits,
    change: Change,
    incoming: IncomingBundle,
) -> Limited<Reply>
    ensures step { (app locale : List ℕ) → (payload : Payload)
        → Reads app locale payload (Ok incoming)
        → IsFileOf payload incoming.1
        → is_read limits.now (place_of app locale) payload ≡ true
        → CallComesTo limits.now engine.old
        (Requests (change_request change app locale payload)) (reply_outcome result) engine.new }
    ensures memory { reply_outcome result ≡ Answers (Replies Reply.Memory)
        → (change ≡ Change.Install) × (file_refusal limits.now change incoming.0.name
        (files_of incoming.0.app engine.old.packages)
        (apps_of engine.old.packages) incoming.1 ≡ None) }
{
    match refused(engine, limits, change, &incoming) {
        Some(refusal) => Limited::Refused(refusal),
        None => Limited::Answer(engine.put(change, incoming)),
    }
}

fn read_and_put(
    engine: &mut Engine,
    alloc: Global,
    limits: &Limits,
    change: Change,
    app: &[u8],
    locale: &[u8],
    source: BundleSource<'_>,
) -> Limited<Reply>
    ensures { CallComesTo limits.now engine.old
        (Requests (change_request change app.now locale.now (payload_of source.entry)))
        (reply_outcome result) engine.new }
{
    if is_too_long(limits, app, locale, &source) {
        return Limited::Refused(Refusal::BundleTooLong);
    }
    let incoming = match IncomingBundle::read(alloc, app, locale, source) {
        Ok(incoming) => incoming,
        Err(reply) => return Limited::Answer(reply),
    };
    put(engine, limits, change, incoming)
}

/// Handles one request under limits. A rejected request changes nothing.
///
/// With valid names, a payload over `bundle_bytes` is rejected before it is read. Errors of the
/// engine come next. A change that the engine would make is rejected with the first of
/// `BundleTooLong`, `OverQuota` and `TooManyApps`.
///
/// `Memory` may come only for a list, and for a payload that is read: never for invalid names of a
/// change, a payload over `bundle_bytes`, or a removal.
pub fn handle(
    engine: &mut Engine,
    alloc: Global,
    limits: &Limits,
    request: LineRequest<'_>,
) -> Limited<Reply>
    ensures { CallComesTo limits.now engine.old (Requests (request_of request.entry))
        (reply_outcome result) engine.new }
{
    match request {
        LineRequest::Change {
            change,
            app,
            locale,
            source,
        } => {
            let (app, locale) = (app.as_bytes(), locale.as_bytes());
            read_and_put(engine, alloc, limits, change, app, locale, source)
        }
        LineRequest::Remove { app, locale } => {
            Limited::Answer(engine.remove(app.as_bytes(), locale.as_bytes()))
        }
        LineRequest::List { app } => Limited::Answer(engine.list(alloc, app.as_bytes())),
    }
}
