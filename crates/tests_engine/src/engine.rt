use rb_engine::{Engine, LookFault, OpenLocale, Payload, Request, Upcoming};
use rb_fallback::Found;
use rb_parents::Parents;
use rb_tree::ByteList;
use rb_views::Item;
use std::alloc::Global;
use std::hash::RandomState;

type Place<'a> = (&'a str, &'a str);

/// The text that a lookup finds, the actual locale, and the valid locale.
type Hit<'a> = (&'a str, &'a str, &'a str);

/// A request or a lookup, with its answer.
#[derive(Clone, Copy)]
enum Step<'a> {
    /// An install of a text, and the word of the reply.
    Install(Place<'a>, &'a str, &'a str),
    /// A removal, and the word of the reply.
    Remove(Place<'a>, &'a str),
    /// Lookups of a path, and what they find: by name, with a hint, from an open locale, from one
    /// that the engine keeps open, and from a place that it keeps.
    Find(Place<'a>, &'a str, Hit<'a>),
    /// Lookups of a path in these ways, and their error code.
    Miss(Place<'a>, &'a str, &'a str),
}

/// Reads a step from its line, whose fields are separated by `|`:
///
/// - `install|APP|LOCALE|TEXT|WORD`
/// - `remove|APP|LOCALE|WORD`
/// - `find|APP|LOCALE|PATH|TEXT|ACTUAL|VALID`
/// - `miss|APP|LOCALE|PATH|WORD`
fn step_of(line: &str) -> Option<Step<'_>> {
    let mut fields = line.split('|');
    let op = fields.next()?;
    let (place, third) = ((fields.next()?, fields.next()?), fields.next()?);
    match op {
        "install" => Some(Step::Install(place, third, fields.next()?)),
        "remove" => Some(Step::Remove(place, third)),
        "find" => {
            let hit = (fields.next()?, fields.next()?, fields.next()?);
            Some(Step::Find(place, third, hit))
        }
        "miss" => Some(Step::Miss(place, third, fields.next()?)),
        _ => None,
    }
}

fn bytes(alloc: Global, text: &str) -> Option<ByteList> {
    Some(ByteList::from_vec(text.as_bytes().to_vec(alloc).ok()?))
}

pub(crate) fn empty_engine(rt: &HostRuntime) -> Option<Engine> {
    let alloc = rt.alloc();
    let state = RandomState::new(rt).ok()?;
    let mut engine = Engine::start(alloc, state, Vec::new(alloc), Parents::none(alloc)).ok()?;
    // Few, so that locales, items and hints take each other's places.
    engine.keep_locales(alloc, 3).ok()?;
    engine.keep_items(alloc, 2).ok()?;
    engine.keep_hints(alloc, 5).ok()?;
    Some(engine)
}

/// Installs a text, and returns the word of the reply.
fn installed(
    alloc: Global,
    engine: &mut Engine,
    place: Place<'_>,
    text: &str,
) -> Option<&'static str> {
    let (app, locale) = (bytes(alloc, place.0)?, bytes(alloc, place.1)?);
    let payload = Payload::Text(bytes(alloc, text)?);
    let request = Request::Install {
        app,
        locale,
        payload,
    };
    Some(engine.handle(alloc, request).word())
}

fn removed(alloc: Global, engine: &mut Engine, place: Place<'_>) -> Option<&'static str> {
    let (app, locale) = (bytes(alloc, place.0)?, bytes(alloc, place.1)?);
    Some(engine.handle(alloc, Request::Remove { app, locale }).word())
}

fn has_text(item: Item<'_>, text: &str) -> bool {
    let Some(units) = item.text() else {
        return false;
    };
    if units.len() != text.len() {
        return false;
    }
    for (i, b) in text.as_bytes().iter().enumerate() {
        if units.at(i) != u16::from(*b) {
            return false;
        }
    }
    true
}

fn is_hit(found: &Found<Item<'_>>, hit: Hit<'_>) -> bool {
    let (text, actual, valid) = hit;
    has_text(found.node, text)
        && found.actual.as_bytes() == actual.as_bytes()
        && found.valid.as_bytes() == valid.as_bytes()
}

pub(crate) fn opened(engine: &Engine, place: Place<'_>) -> Result<OpenLocale, LookFault> {
    engine.open_locale(place.0.as_bytes(), place.1.as_bytes())
}

fn finds(engine: &Engine, place: Place<'_>, path: &str, hit: Hit<'_>) -> bool {
    match engine.look(place.0.as_bytes(), place.1.as_bytes(), path.as_bytes()) {
        Ok(found) => is_hit(&found, hit),
        Err(_) => false,
    }
}

fn misses(engine: &Engine, place: Place<'_>, path: &str, word: &str) -> bool {
    match engine.look(place.0.as_bytes(), place.1.as_bytes(), path.as_bytes()) {
        Ok(_) => false,
        Err(fault) => fault.word() == word,
    }
}

/// Keeps a locale open, so that the next lookup is from there.
fn kept_open<'a>(engine: &'a mut Engine, place: Place<'_>) -> &'a Engine {
    engine.keep_open(place.0.as_bytes(), place.1.as_bytes());
    engine
}

/// Asks for an item once, so that the next lookup has a hint, and fetches its bundle.
fn hinted<'a>(engine: &'a mut Engine, place: Place<'_>, path: &str) -> &'a Engine {
    let (app, locale) = (place.0.as_bytes(), place.1.as_bytes());
    engine.keep_item(app, locale, path.as_bytes(), u64::MAX);
    let mut upcoming = Upcoming::new();
    upcoming.add(app, locale);
    engine.fetch(&upcoming);
    engine
}

/// Asks for an item twice, so that it is kept for the next lookup.
fn kept_item<'a>(engine: &'a mut Engine, place: Place<'_>, path: &str) -> &'a Engine {
    let (app, locale) = (place.0.as_bytes(), place.1.as_bytes());
    engine.keep_item(app, locale, path.as_bytes(), u64::MAX);
    engine.keep_item(app, locale, path.as_bytes(), u64::MAX);
    engine
}

fn finds_opened(engine: &Engine, place: Place<'_>, path: &str, hit: Hit<'_>) -> bool {
    let Ok(opened) = opened(engine, place) else {
        return false;
    };
    match engine.look_at(&opened, path.as_bytes()) {
        Ok(Ok(found)) => is_hit(&found, hit),
        _ => false,
    }
}

/// A locale that can't be opened has the error of the lookup, unless that is one of the path.
fn misses_opened(engine: &Engine, place: Place<'_>, path: &str, word: &str) -> bool {
    match opened(engine, place) {
        Ok(opened) => match engine.look_at(&opened, path.as_bytes()) {
            Ok(Err(fault)) => fault.word() == word,
            _ => false,
        },
        Err(fault) => fault.word() == word || word == "BadPath",
    }
}

fn runs(alloc: Global, engine: &mut Engine, step: Step<'_>) -> bool {
    match step {
        Step::Install(place, text, word) => installed(alloc, engine, place, text) == Some(word),
        Step::Remove(place, word) => removed(alloc, engine, place) == Some(word),
        Step::Find(place, path, hit) => {
            finds(engine, place, path, hit)
                && finds(hinted(engine, place, path), place, path, hit)
                && finds_opened(engine, place, path, hit)
                && finds(kept_open(engine, place), place, path, hit)
                && finds(kept_item(engine, place, path), place, path, hit)
        }
        Step::Miss(place, path, word) => {
            misses(engine, place, path, word)
                && misses(hinted(engine, place, path), place, path, word)
                && misses_opened(engine, place, path, word)
                && misses(kept_open(engine, place), place, path, word)
                && misses(kept_item(engine, place, path), place, path, word)
        }
    }
}

/// Runs the steps of a text, one a line, up to the first whose answer differs, or that is no step.
pub(crate) fn answers(alloc: Global, engine: &mut Engine, steps: &str) -> bool {
    for line in steps.lines() {
        let Some(step) = step_of(line) else {
            return false;
        };
        if !runs(alloc, engine, step) {
            return false;
        }
    }
    true
}
