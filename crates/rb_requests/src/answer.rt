ghost use Rattle.std.specs.Prelude.{◌≡◌, IfErr, OnOk, None, false};
ghost use Rattle.serde_json.specs.Data.{Data};
ghost use Rattle.rb_packages.specs.App.{app_of};
ghost use Rattle.rb_engine.specs.Ask.{Requests, LooksUp};
ghost use Rattle.rb_engine.specs.Answer.{Finds, Replies};
ghost use Rattle.rb_engine.specs.History.{is_memory as ran_out};
ghost use Rattle.rb_engine.specs.LookResponse.{look_response};
ghost use Rattle.rb_fallback.specs.Answers.{hit_of};
ghost use Rattle.rb_requests.specs.Steps.{Answers};
ghost use Rattle.rb_views.specs.Seen.{tree_seen};
ghost use Rattle.rb_requests.specs.Within.{AnswersRead, CallReply, asked_usage};
ghost use Rattle.rb_requests.specs.Within.{error_line, is_limited as limited, outcome_line};
ghost use Rattle.rb_requests.specs.Within.{usage_in, usage_reply};
ghost use Rattle.rb_requests.specs.Requested.{request_of};
ghost use Rattle.rb_requests.specs.Words.{line_error_word};
ghost use Rattle.rb_requests.specs.Outcomes.{reply_outcome};
ghost use Rattle.rb_requests.specs.inner.ExtendedTold.{change_line};
ghost use Rattle.rb_requests.specs.inner.Line.{AreTextsOf};
ghost use Rattle.rb_requests.specs.inner.Placing.{PlacesOn};
ghost use Rattle.rb_requests.specs.inner.Starving.{DataReply, LeavesOf, starved_by};
ghost use Rattle.rb_requests.specs.inner.Starving.{untold_by, untold_reply};

use crate::ask::{Line, LineRequest, line_of, usage_app};
use crate::changes::handle;
use crate::device::{Failed, Sink};
use crate::limits::{Limited, Limits};
use crate::lookups::{look, look_unlimited};
use crate::stream::put_found;
use crate::texts::Texts;
use crate::words::LineError;
use rb_engine::{App, AppFault, Engine, LookFault, Reply};
use rb_fallback::Found;
use rb_replies::{ReplyLine, found_is_above, reply_is_above};
use rb_views::Item;
use std::alloc::{AllocError, Global};

/// Out of memory for a line.
#[derive(Clone, Copy, PartialEq, Eq)]
pub(crate) enum Starved {
    /// Nothing has changed.
    Before,
    /// The line's request may have taken effect.
    After,
}

impl From<AllocError> for Starved {
    ghost use Rattle.rb_requests.specs.declared.answer.Starved.TheVariants as starved;

    ghost from_gives = { λ _ s. s ≡ starved.Before };

    fn from(_: AllocError) -> Self {
        Starved::Before
    }
}

#[derive(Clone, Copy, PartialEq, Eq)]
pub(crate) enum Placed {
    /// In the reply line: nothing is written.
    Held,
    /// Written to the sink, or a part of it if a call of the sink failed.
    Put(Result<(), Failed>),
}

pub(crate) fn is_limited(limits: &Limits) -> bool
    ensures { result ≡ limited limits.now }
{
    let keeps = limits.bundle_bytes.is_some() || limits.app_bytes.is_some();
    let takes = limits.apps.is_some() || limits.steps.is_some();
    keeps
        || takes
        || limits.line_bytes.is_some()
        || limits.reply_bytes.is_some()
        || limits.keep_serving
}

/// Classifies a reply that memory ran out for: only a request that was done changed anything.
fn untold(reply: &Reply) -> Starved
    ensures { result ≡ untold_reply reply.now }
{
    match reply {
        Reply::Done => Starved::After,
        _ => Starved::Before,
    }
}

fn is_memory(reply: &Reply) -> bool
    ensures { result ≡ ran_out (Replies reply.now) }
{
    matches!(reply, Reply::Memory)
}

pub(crate) fn tell_word(alloc: Global, word: &str, reply: &mut ReplyLine) -> Result<(), AllocError>
    ensures { OnOk result (reply.new ≡ error_line word.now) }
{
    reply.tell_error(alloc, word)
}

/// Makes the line the reply of an error that the server itself finds.
pub(crate) fn tell_line_error(
    alloc: Global,
    error: LineError,
    reply: &mut ReplyLine,
) -> Result<(), AllocError>
    ensures { OnOk result (reply.new ≡ error_line (line_error_word error)) }
{
    tell_word(alloc, error.word(), reply)
}

pub(crate) fn answer_request(
    alloc: Global,
    engine: &mut Engine,
    limits: &Limits,
    request: LineRequest<'_>,
    reply: &mut ReplyLine,
) -> Result<(), Starved>
    ensures reply { OnOk result
        (CallReply limits.now engine.old (Requests (request_of request.entry)) reply.new engine.new) }
    ensures fault { IfErr result (λ s. LeavesOf
        (CallReply limits.now engine.old (Requests (request_of request.entry))) s engine.old engine.new) }
{
    let answer = handle(engine, alloc, limits, request);
    tell_limited(alloc, limits, None, answer, reply)
}

/// Makes the line the reply to a change of a bundle. A `put` says whether it replaced another.
fn tell_stored(
    alloc: Global,
    limits: &Limits,
    replaced: Option<bool>,
    answer: &Reply,
    reply: &mut ReplyLine,
) -> Result<(), AllocError>
    ensures { OnOk result
        (reply.new ≡ change_line limits.now replaced (Answers (Replies answer.now))) }
{
    match (replaced, answer) {
        (Some(is_replaced), Reply::Done) => reply.tell_stored(alloc, is_replaced),
        _ => tell_answer(alloc, limits, answer, reply),
    }
}

/// Makes the line the reply to a request, or the error of the limit that rejects it.
pub(crate) fn tell_limited(
    alloc: Global,
    limits: &Limits,
    replaced: Option<bool>,
    answer: Limited<Reply>,
    reply: &mut ReplyLine,
) -> Result<(), Starved>
    ensures line { OnOk result ((starved_by (reply_outcome answer) ≡ false)
        × (reply.new ≡ change_line limits.now replaced (reply_outcome answer))) }
    ensures fault { IfErr result (λ s. s ≡ untold_by answer) }
{
    let answer = match answer {
        Limited::Answer(answer) => answer,
        Limited::Refused(refusal) => return Ok(tell_word(alloc, refusal.word(), reply)?),
    };
    if is_memory(&answer) {
        return Err(untold(&answer));
    }
    match tell_stored(alloc, limits, replaced, &answer, reply) {
        Ok(()) => Ok(()),
        Err(_) => Err(untold(&answer)),
    }
}

/// Makes the line the reply to a request, or an error if that reply is longer than the limit.
fn tell_answer(
    alloc: Global,
    limits: &Limits,
    answer: &Reply,
    reply: &mut ReplyLine,
) -> Result<(), AllocError>
    ensures { OnOk result (reply.new ≡ outcome_line limits.now (Answers (Replies answer.now))) }
{
    if reply_is_above(answer, limits.reply_bytes) {
        return tell_line_error(alloc, LineError::ReplyTooLong, reply);
    }
    reply.tell_reply(alloc, answer)
}

/// Writes the reply for a found item to the sink, or makes the line an error if it is too long.
fn place_item<S: Sink>(
    alloc: Global,
    limits: &Limits,
    found: &Found<Item<'_>>,
    reply: &mut ReplyLine,
    sink: &mut S,
) -> Result<Placed, AllocError>
    ensures { PlacesOn S.Sink result reply.new sink.old sink.new
        (λ text. text ≡ outcome_line limits.now
        (Answers (Finds (hit_of tree_seen found.now) found.now.valid))) }
{
    if found_is_above(found, limits.reply_bytes) {
        tell_line_error(alloc, LineError::ReplyTooLong, reply)?;
        return Ok(Placed::Held);
    }
    Ok(Placed::Put(put_found(alloc, sink, found, reply)?))
}

/// Checks whether an item is a String of so few units that its reply is made in one piece.
fn is_short(item: Item<'_>) -> bool {
    match item.text() {
        Some(units) => units.len() <= 1024,
        None => false,
    }
}

/// Makes the line the reply to a lookup, or an error if the reply for a found item is too long.
fn tell_found(
    alloc: Global,
    limits: &Limits,
    found: &Result<Found<Item<'_>>, LookFault>,
    reply: &mut ReplyLine,
) -> Result<(), AllocError>
    ensures { OnOk result
        (reply.new ≡ outcome_line limits.now (Answers (look_response tree_seen found.now))) }
{
    reply.tell_look(alloc, found)?;
    if found.is_err() {
        return Ok(());
    }
    match limits.reply_bytes {
        Some(most) if reply.as_bytes().len() as u64 > most => {
            tell_line_error(alloc, LineError::ReplyTooLong, reply)
        }
        _ => Ok(()),
    }
}

/// Writes the reply to a lookup to the sink, or makes the line that reply if nothing or little was
/// found. Of a short item the line is made and then compared with its limit, which takes less time
/// than to count its bytes first.
fn place_found<S: Sink>(
    alloc: Global,
    limits: &Limits,
    found: &Result<Found<Item<'_>>, LookFault>,
    reply: &mut ReplyLine,
    sink: &mut S,
) -> Result<Placed, AllocError>
    ensures { PlacesOn S.Sink result reply.new sink.old sink.new
        (λ text. text ≡ outcome_line limits.now (Answers (look_response tree_seen found.now))) }
{
    if let Ok(item) = found {
        if limits.reply_bytes.is_none() || !is_short(item.node) {
            return place_item(alloc, limits, item, reply, sink);
        }
    }
    tell_found(alloc, limits, found, reply)?;
    Ok(Placed::Held)
}

pub(crate) fn answer_look<S: Sink>(
    alloc: Global,
    engine: &Engine,
    limits: &Limits,
    app: &str,
    locale: &str,
    path: &str,
    reply: &mut ReplyLine,
    sink: &mut S,
) -> Result<Placed, AllocError>
    ensures { PlacesOn S.Sink result reply.new sink.old sink.new
        (λ text. CallReply limits.now engine.now
        (LooksUp app.now locale.now path.now) text engine.now) }
{
    let (app, locale, path) = (app.as_bytes(), locale.as_bytes(), path.as_bytes());
    if limits.steps.is_none() {
        let found = look_unlimited(engine, limits, app, locale, path);
        return place_found(alloc, limits, &found, reply, sink);
    }
    answer_within(alloc, engine, limits, app, locale, path, reply, sink)
}

/// Answers a lookup under a limit on steps.
#[inline(never)]
fn answer_within<S: Sink>(
    alloc: Global,
    engine: &Engine,
    limits: &Limits,
    app: &[u8],
    locale: &[u8],
    path: &[u8],
    reply: &mut ReplyLine,
    sink: &mut S,
) -> Result<Placed, AllocError>
    ensures { PlacesOn S.Sink result reply.new sink.old sink.new
        (λ text. CallReply limits.now engine.now
        (LooksUp app.now locale.now path.now) text engine.now) }
{
    match look(engine, limits, app, locale, path) {
        Limited::Answer(found) => place_found(alloc, limits, &found, reply, sink),
        Limited::Refused(refusal) => {
            tell_word(alloc, refusal.word(), reply)?;
            Ok(Placed::Held)
        }
    }
}

/// Keeps what a lookup needs for the next ones: where it ends, or its locale's trail.
pub(crate) fn keep_item(engine: &mut Engine, limits: &Limits, app: &str, locale: &str, path: &str)
    ensures { engine.new ≡ engine.old }
{
    let steps = limits.steps.unwrap_or(u64::MAX);
    engine.keep_item(app.as_bytes(), locale.as_bytes(), path.as_bytes(), steps);
}

pub(crate) fn answer_usage(
    alloc: Global,
    engine: &Engine,
    app: &str,
    reply: &mut ReplyLine,
) -> Result<(), AllocError>
    ensures { OnOk result (reply.new ≡ usage_reply engine.now (app_of app.now)) }
{
    let fault = match App::read(app.as_bytes()) {
        Ok(app) => {
            let usage = engine.usage(&app);
            return reply.tell_usage(alloc, usage.bytes, usage.bundles);
        }
        Err(AppFault::BadApp) => Reply::BadApp,
        Err(AppFault::Reserved) => Reply::Reserved,
    };
    reply.tell_reply(alloc, &fault)
}

/// Answers a line that calls nothing: the usage, if it asks for that under a limit, or `BadLine`.
fn answer_other(
    alloc: Global,
    engine: &Engine,
    limits: &Limits,
    texts: &Texts<'_>,
    reply: &mut ReplyLine,
) -> Result<(), AllocError>
    ensures { OnOk result
        ((d : Data) → AreTextsOf texts.now d → AnswersRead limits.now engine.now None
        (asked_usage limits.now (usage_in d)) reply.new engine.now) }
{
    if is_limited(limits) {
        if let Some(app) = usage_app(texts) {
            return answer_usage(alloc, engine, app, reply);
        }
    }
    tell_line_error(alloc, LineError::BadLine, reply)
}

/// Makes the line the reply to a line with these texts, or writes that reply to the sink.
pub(crate) fn answer_texts<S: Sink>(
    alloc: Global,
    engine: &mut Engine,
    limits: &Limits,
    texts: &Texts<'_>,
    reply: &mut ReplyLine,
    sink: &mut S,
) -> Result<Placed, Starved>
    ensures reply { PlacesOn S.Sink result reply.new sink.old sink.new
        (λ text. (d : Data) → AreTextsOf texts.now d
        → DataReply limits.now engine.old d text engine.new) }
    ensures fault { IfErr result (λ s. (d : Data) → AreTextsOf texts.now d
        → LeavesOf (DataReply limits.now engine.old d) s engine.old engine.new) }
{
    match line_of(alloc, texts)? {
        None => answer_other(alloc, engine, limits, texts, reply)?,
        Some(Line::Request(request)) => answer_request(alloc, engine, limits, request, reply)?,
        Some(Line::Look { app, locale, path }) => {
            keep_item(engine, limits, app, locale, path);
            return Ok(answer_look(alloc, engine, limits, app, locale, path, reply, sink)?);
        }
    }
    Ok(Placed::Held)
}
