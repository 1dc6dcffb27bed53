//! Returns what is stored: the files of bundles, their texts, and their lengths.
ghost use Rattle.std.specs.Prelude.{◌≡◌, Some, true, option_map, IfOk, OnOk};
ghost use Rattle.rb_format.specs.File.{source_tree_of};
ghost use Rattle.rb_locales.specs.Locale.{name as name_of};
ghost use Rattle.rb_packages.specs.App.{app_of};
ghost use Rattle.rb_printer.specs.Whole.{IsBundleText};
ghost use Rattle.rb_requests.specs.ExportReply.{ExportReply, FileReply, sizes_reply};
ghost use Rattle.rb_requests.specs.inner.Placing.{PlacesOn};

use crate::answer::{Placed, tell_line_error, tell_word};
use crate::device::Sink;
use crate::limits::Limits;
use crate::long_line::{LongLine, place_line};
use crate::words::LineError;
use rb_engine::{App, Engine, Reply};
use rb_locales::Name;
use rb_printer::{PrintError, print_bundle};
use rb_replies::{ReplyLine, sizes_are_above};
use rb_tree::UnitList;
use rb_validator::Bundle;
use std::alloc::{AllocError, Global};
use std::str;

/// Prints a bundle as a text that is named after its locale.
fn text_of(alloc: Global, name: &Name, bundle: &Bundle) -> Result<Vec<u8>, PrintError>
    ensures text { IfOk result
        (λ bytes. IsBundleText bytes.items name.now (source_tree_of bundle.now)) }
{
    let units: Vec<u16> = name
        .as_bytes()
        .iter()
        .map(|byte| u16::from(*byte))
        .collect(alloc)?;
    print_bundle(alloc, &UnitList::from_vec(units), bundle)
}

fn place_text<S: Sink>(
    alloc: Global,
    limits: &Limits,
    name: &Name,
    bundle: &Bundle,
    reply: &mut ReplyLine,
    sink: &mut S,
) -> Result<Placed, AllocError>
    ensures { PlacesOn S.Sink result reply.new sink.old sink.new
        (FileReply limits.now true name.now (Some bundle.now)) }
{
    let text = match text_of(alloc, name, bundle) {
        Ok(text) => text,
        Err(PrintError::Memory) => return Err(AllocError),
        Err(error) => {
            tell_word(alloc, error.word(), reply)?;
            return Ok(Placed::Held);
        }
    };
    match str::from_utf8(&text) {
        Ok(text) => place_line(alloc, limits, LongLine::Text(text), reply, sink),
        Err(_) => Err(AllocError),
    }
}

/// Answers with the file of a bundle, or with its text, or that there is none.
fn place_bundle<S: Sink>(
    alloc: Global,
    limits: &Limits,
    name: &Name,
    bundle: Option<&Bundle>,
    is_text: bool,
    reply: &mut ReplyLine,
    sink: &mut S,
) -> Result<Placed, AllocError>
    ensures { PlacesOn S.Sink result reply.new sink.old sink.new
        (FileReply limits.now is_text name.now (option_map (λ b. b.now) bundle.entry)) }
{
    let Some(bundle) = bundle else {
        tell_word(alloc, Reply::Absent.word(), reply)?;
        return Ok(Placed::Held);
    };
    if is_text {
        place_text(alloc, limits, name, bundle, reply, sink)
    } else {
        place_line(alloc, limits, LongLine::File(bundle.bytes()), reply, sink)
    }
}

/// Answers with the file of a bundle, or with its text: `BadApp`, `Reserved`, `BadLocale` or
/// `Absent` if there is none, `TooLarge` if its text would be too long to be read again, and
/// `ReplyTooLong`.
pub(crate) fn answer_export<S: Sink>(
    alloc: Global,
    engine: &Engine,
    limits: &Limits,
    app: &str,
    locale: &str,
    is_text: bool,
    reply: &mut ReplyLine,
    sink: &mut S,
) -> Result<Placed, AllocError>
    ensures { PlacesOn S.Sink result reply.new sink.old sink.new
        (ExportReply limits.now engine.now is_text (app_of app.now) (name_of locale.now)) }
{
    let app = match App::read(app.as_bytes()) {
        Ok(app) => app,
        Err(fault) => {
            tell_word(alloc, fault.word(), reply)?;
            return Ok(Placed::Held);
        }
    };
    let Ok(name) = Name::read(locale.as_bytes()) else {
        tell_word(alloc, Reply::BadLocale.word(), reply)?;
        return Ok(Placed::Held);
    };
    let bundle = engine.bundle(&app, &name);
    place_bundle(alloc, limits, &name, bundle, is_text, reply, sink)
}

/// Answers with the names and the lengths of an application's bundles: `BadApp`, `Reserved`, and
/// `ReplyTooLong`.
pub(crate) fn answer_sizes(
    alloc: Global,
    engine: &Engine,
    limits: &Limits,
    app: &str,
    reply: &mut ReplyLine,
) -> Result<(), AllocError>
    ensures { OnOk result (reply.new ≡ sizes_reply limits.now engine.now (app_of app.now)) }
{
    let app = match App::read(app.as_bytes()) {
        Ok(app) => app,
        Err(fault) => return tell_word(alloc, fault.word(), reply),
    };
    let sizes = engine.sizes(alloc, &app)?;
    if sizes_are_above(&sizes, limits.reply_bytes) {
        return tell_line_error(alloc, LineError::ReplyTooLong, reply);
    }
    reply.tell_sizes(alloc, &sizes)
}
