//! Answers extended requests.
ghost use Rattle.std.specs.Prelude.{◌≡◌, IfErr, List, OnOk, Ok, Some, None, ℕ, true};
ghost use Rattle.serde_json.specs.Data.{Data};
ghost use Rattle.rb_engine.specs.Change.{IsFileOf};
ghost use Rattle.rb_engine.specs.Place.{place_of};
ghost use Rattle.rb_engine.specs.Source.{Reads, payload_of};
ghost use Rattle.rb_engine.specs.declared.request.Payload.{Payload};
ghost use Rattle.rb_requests.specs.ExtendedAsked.{ExtendedAsk, ReleaseChange};
ghost use Rattle.rb_requests.specs.ExtendedReply.{AskReply, CalledReply, ChangeReply};
ghost use Rattle.rb_requests.specs.ExtendedReply.{ExtendedReply, ReleaseReply};
ghost use Rattle.rb_requests.specs.ExtendedReply.{is_stored, put_change as change_put};
ghost use Rattle.rb_requests.specs.Requested.{request_of};
ghost use Rattle.rb_requests.specs.Steps.{is_read};
ghost use Rattle.rb_requests.specs.Within.{outcome_line};
ghost use Rattle.rb_requests.specs.inner.ChangesRead.{changes_seen};
ghost use Rattle.rb_requests.specs.inner.ExtendedForms.{extended_in};
ghost use Rattle.rb_requests.specs.inner.ExtendedLines.{AreAllOf, line_asks};
ghost use Rattle.rb_requests.specs.inner.ExtendedTold.{PutReply, change_line, held_place};
ghost use Rattle.rb_requests.specs.inner.Judged.{IsTold};
ghost use Rattle.rb_requests.specs.inner.Line.{line_view};
ghost use Rattle.rb_requests.specs.inner.Placing.{PlacesOn};
ghost use Rattle.rb_requests.specs.inner.Starving.{LeavesOf};
ghost use Rattle.rb_engine.specs.Ask.{Requests};

use crate::answer::{
    Placed, Starved, answer_look, answer_request, answer_usage, keep_item, tell_limited,
    tell_line_error,
};
use crate::ask::{Line, LineRequest};
use crate::change_list::LineChange;
use crate::changes::put;
use crate::device::Sink;
use crate::export::{answer_export, answer_sizes};
use crate::extended_ask::{ExtendedLine, extended_of};
use crate::extended_texts::ExtendedTexts;
use crate::judged::{Unmade, judge};
use crate::limits::Limits;
use crate::release::release;
use crate::tree_reply::answer_tree;
use crate::words::LineError;
use rb_engine::{BundleSource, Change, Engine, IncomingBundle, Reply};
use rb_replies::ReplyLine;
use std::alloc::Global;

/// Stores a bundle that was read, and makes the line the reply.
fn store_read(
    alloc: Global,
    engine: &mut Engine,
    limits: &Limits,
    change: Change,
    replaced: Option<bool>,
    incoming: IncomingBundle,
    reply: &mut ReplyLine,
) -> Result<(), Starved>
    ensures reply { (app locale : List ℕ) (payload : Payload)
        → Reads app locale payload (Ok incoming)
        → IsFileOf payload incoming.1 → is_read limits.now (place_of app locale) payload ≡ true
        → OnOk result (ChangeReply limits.now engine.old change app locale payload
        (change_line limits.now replaced) reply.new engine.new) }
    ensures fault { (app locale : List ℕ) (payload : Payload)
        → Reads app locale payload (Ok incoming)
        → IsFileOf payload incoming.1 → is_read limits.now (place_of app locale) payload ≡ true
        → IfErr result (λ s. LeavesOf (ChangeReply limits.now engine.old change app locale payload
        (change_line limits.now replaced)) s engine.old engine.new) }
{
    let answer = put(engine, limits, change, incoming);
    tell_limited(alloc, limits, replaced, answer, reply)
}

/// Makes the line the reply to a change that isn't made.
fn tell_unmade(alloc: Global, unmade: Unmade, reply: &mut ReplyLine) -> Result<(), Starved>
    ensures line { OnOk result (IsTold unmade reply.new) }
    ensures memory { IfErr result (λ s. s ≡ Starved.Before) }
{
    match unmade {
        Unmade::Refused(word, detail) => Ok(reply.tell_refusal(alloc, word, detail)?),
        Unmade::Memory => Err(Starved::Before),
    }
}

/// Makes the line the reply to an install or a replacement.
fn answer_change(
    alloc: Global,
    engine: &mut Engine,
    limits: &Limits,
    change: Change,
    app: &[u8],
    locale: &[u8],
    source: BundleSource<'_>,
    reply: &mut ReplyLine,
) -> Result<(), Starved>
    ensures reply { OnOk result (ChangeReply limits.now engine.old change app.now locale.now
        (payload_of source.entry) (outcome_line limits.now) reply.new engine.new) }
    ensures fault { IfErr result (λ s. LeavesOf (ChangeReply limits.now engine.old change app.now
        locale.now (payload_of source.entry) (outcome_line limits.now)) s engine.old engine.new) }
{
    match judge(alloc, limits, app, locale, source) {
        Ok(incoming) => store_read(alloc, engine, limits, change, None, incoming, reply),
        Err(unmade) => tell_unmade(alloc, unmade, reply),
    }
}

/// Returns how a bundle is put.
fn put_change(is_there: bool) -> Change
    ensures { result ≡ change_put is_there }
{
    if is_there {
        Change::Replace
    } else {
        Change::Install
    }
}

/// Makes the line the reply to a `put`.
fn answer_put(
    alloc: Global,
    engine: &mut Engine,
    limits: &Limits,
    app: &[u8],
    locale: &[u8],
    source: BundleSource<'_>,
    reply: &mut ReplyLine,
) -> Result<(), Starved>
    ensures reply { OnOk result (PutReply limits.now engine.old app.now locale.now
        (payload_of source.entry)
        (is_stored engine.old (place_of app.now locale.now)) reply.new engine.new) }
    ensures fault { IfErr result (λ s. LeavesOf (PutReply limits.now engine.old app.now locale.now
        (payload_of source.entry)
        (is_stored engine.old (place_of app.now locale.now))) s engine.old engine.new) }
{
    let incoming = match judge(alloc, limits, app, locale, source) {
        Ok(incoming) => incoming,
        Err(unmade) => return tell_unmade(alloc, unmade, reply),
    };
    let is_there = engine.file_len(&incoming).is_some();
    let change = put_change(is_there);
    store_read(
        alloc,
        engine,
        limits,
        change,
        Some(is_there),
        incoming,
        reply,
    )
}

/// Makes the line the reply to a release.
fn answer_release(
    alloc: Global,
    engine: &mut Engine,
    limits: &Limits,
    app: &[u8],
    changes: &[LineChange<'_>],
    reply: &mut ReplyLine,
) -> Result<(), Starved>
    ensures reply { OnOk result ((cs : List ReleaseChange) → changes_seen changes.now ≡ Some cs
        → ReleaseReply limits.now engine.old app.now cs reply.new engine.new) }
    ensures fault { IfErr result (λ s. (cs : List ReleaseChange) → changes_seen changes.now ≡ Some cs
        → LeavesOf (ReleaseReply limits.now engine.old app.now cs) s engine.old engine.new) }
{
    match release(alloc, engine, limits, app, changes) {
        Ok(()) => match reply.tell_reply(alloc, &Reply::Done) {
            Ok(()) => Ok(()),
            Err(_) => Err(Starved::After),
        },
        Err(unmade) => tell_unmade(alloc, unmade, reply),
    }
}

/// Makes the line the reply to a request that has the same form without extended requests.
fn answer_plain_request(
    alloc: Global,
    engine: &mut Engine,
    limits: &Limits,
    request: LineRequest<'_>,
    reply: &mut ReplyLine,
) -> Result<(), Starved>
    ensures reply { OnOk result (CalledReply limits.now engine.old
        (Requests (request_of request.entry)) reply.new engine.new) }
    ensures fault { IfErr result (λ s. LeavesOf (CalledReply limits.now engine.old
        (Requests (request_of request.entry))) s engine.old engine.new) }
{
    match request {
        LineRequest::Change {
            change,
            app,
            locale,
            source,
        } => {
            let (app, locale) = (app.as_bytes(), locale.as_bytes());
            answer_change(alloc, engine, limits, change, app, locale, source, reply)
        }
        LineRequest::Remove { app, locale } => {
            let request = LineRequest::Remove { app, locale };
            answer_request(alloc, engine, limits, request, reply)
        }
        LineRequest::List { app } => {
            answer_request(alloc, engine, limits, LineRequest::List { app }, reply)
        }
    }
}

/// Returns the place of a reply that is in the reply line.
fn held(told: Result<(), Starved>) -> Result<Placed, Starved>
    ensures { result ≡ held_place told }
{
    match told {
        Ok(()) => Ok(Placed::Held),
        Err(starved) => Err(starved),
    }
}

fn answer_plain<S: Sink>(
    alloc: Global,
    engine: &mut Engine,
    limits: &Limits,
    line: Line<'_>,
    reply: &mut ReplyLine,
    sink: &mut S,
) -> Result<Placed, Starved>
    ensures reply { PlacesOn S.Sink result reply.new sink.old sink.new
        (λ text. CalledReply limits.now engine.old (line_view line.entry) text engine.new) }
    ensures fault { IfErr result (λ s. LeavesOf
        (CalledReply limits.now engine.old (line_view line.entry)) s engine.old engine.new) }
{
    match line {
        Line::Request(request) => {
            held(answer_plain_request(alloc, engine, limits, request, reply))
        }
        Line::Look { app, locale, path } => {
            keep_item(engine, limits, app, locale, path);
            Ok(answer_look(alloc, engine, limits, app, locale, path, reply, sink)?)
        }
    }
}

/// Makes the line the reply to a request, or writes that reply to the sink.
fn answer_line<S: Sink>(
    alloc: Global,
    engine: &mut Engine,
    limits: &Limits,
    line: ExtendedLine<'_>,
    reply: &mut ReplyLine,
    sink: &mut S,
) -> Result<Placed, Starved>
    ensures reply { PlacesOn S.Sink result reply.new sink.old sink.new
        (λ text. (ask : ExtendedAsk) → line_asks line.entry ≡ Some ask
        → AskReply limits.now engine.old ask text engine.new) }
    ensures fault { IfErr result (λ s. (ask : ExtendedAsk) → line_asks line.entry ≡ Some ask
        → LeavesOf (AskReply limits.now engine.old ask) s engine.old engine.new) }
{
    match line {
        ExtendedLine::Plain(line) => answer_plain(alloc, engine, limits, line, reply, sink),
        ExtendedLine::Put {
            app,
            locale,
            source,
        } => {
            let (app, locale) = (app.as_bytes(), locale.as_bytes());
            held(answer_put(alloc, engine, limits, app, locale, source, reply))
        }
        ExtendedLine::Export {
            app,
            locale,
            is_text,
        } => Ok(answer_export(alloc, engine, limits, app, locale, is_text, reply, sink)?),
        ExtendedLine::Tree { app, locale, path } => {
            Ok(answer_tree(alloc, engine, limits, app, locale, path, reply, sink)?)
        }
        ExtendedLine::Sizes { app } => {
            answer_sizes(alloc, engine, limits, app, reply)?;
            Ok(Placed::Held)
        }
        ExtendedLine::Usage { app } => {
            answer_usage(alloc, engine, app, reply)?;
            Ok(Placed::Held)
        }
        ExtendedLine::Release { app, changes } => {
            held(answer_release(alloc, engine, limits, app.as_bytes(), changes, reply))
        }
    }
}

/// Makes the line the reply to a line with these members, or writes that reply to the sink.
pub(crate) fn answer_members<S: Sink>(
    alloc: Global,
    engine: &mut Engine,
    limits: &Limits,
    asked: &ExtendedTexts<'_>,
    reply: &mut ReplyLine,
    sink: &mut S,
) -> Result<Placed, Starved>
    ensures reply { PlacesOn S.Sink result reply.new sink.old sink.new
        (λ text. (d : Data) → AreAllOf asked.now d
        → ExtendedReply limits.now engine.old (extended_in d) text engine.new) }
    ensures fault { IfErr result (λ s. (d : Data) → AreAllOf asked.now d → LeavesOf
        (ExtendedReply limits.now engine.old (extended_in d)) s engine.old engine.new) }
{
    match extended_of(alloc, asked)? {
        Some(line) => answer_line(alloc, engine, limits, line, reply, sink),
        None => {
            tell_line_error(alloc, LineError::BadLine, reply)?;
            Ok(Placed::Held)
        }
    }
}
