//! `resb look`: one lookup over files.
ghost use Rattle.std.specs.Prelude.{◌≡◌, IfOk, true};
ghost use Rattle.std.specs.Process.{exit_status};
ghost use Rattle.rb_engine.specs.Kept.{state_of};
ghost use Rattle.rb_replies.specs.Replied.{reply_line};
ghost use Rattle.rb_inspect.specs.Looking.{IsFoundWith, is_found, look_status, looked_up};

use crate::inherited::packages_of;
use crate::trace::{Trace, file_named};
use rb_asked::AskedLookup;
use rb_console::{
    CommandError, Console, Form, Given, Printing, Refusal, StartError, all_given, ended, finish,
    is_text, made_of_each, not_started_on, parents_of, printed,
};
use rb_engine::{App, Engine, Payload, Reply, Request, compile};
use rb_explain::Of;
use rb_fallback::look_watched;
use rb_json::Outlet;
use rb_locales::Name;
use rb_packages::Packages;
use rb_parents::Parents;
use rb_replies::put_look;
use rb_tree::ByteList;
use std::alloc::{AllocError, Global};
use std::hash::RandomState;
use std::io;
use std::io::BufWriter;
use std::process::ExitCode;
use std::random::RandomSource;
use std::rt::Files;

/// The application that the bundles of a lookup are installed for.
const APP: &str = "look";

/// Returns the file of a bundle, compiled if it is a text.
pub(crate) fn file_of(alloc: Global, name: &str, bytes: Vec<u8>) -> Result<Vec<u8>, Refusal> {
    if !is_text(name) {
        return Ok(bytes);
    }
    match compile(alloc, &bytes) {
        Ok(file) => Ok(file),
        Err(fault) => Err(Refusal::Text(fault)),
    }
}

/// Makes a request that installs a file.
fn request(alloc: Global, name: &Name, file: &[u8]) -> Result<Request, AllocError> {
    Ok(Request::Install {
        app: ByteList::from_vec(APP.as_bytes().to_vec(alloc)?),
        locale: ByteList::from_vec(name.as_bytes().to_vec(alloc)?),
        payload: Payload::File(ByteList::from_vec(file.to_vec(alloc)?)),
    })
}

/// Installs a file.
#[tactic(auto, using(crate::proofs::Looking::step_start))]
fn install<'a>(
    alloc: Global,
    engine: &mut Engine,
    bundle: &Given<'a>,
    file: &[u8],
) -> Result<(), CommandError<'a>>
    ensures start { (state_of engine.new).start ≡ (state_of engine.old).start }
{
    let Ok(request) = request(alloc, &bundle.name, file) else {
        return Err(CommandError::NotStarted(StartError::Memory));
    };
    match engine.handle(alloc, request) {
        Reply::Done => Ok(()),
        Reply::Memory => Err(CommandError::NotStarted(StartError::Memory)),
        Reply::Exists => Err(CommandError::Refused(bundle.file, "Twice")),
        reply => Err(CommandError::Refused(bundle.file, reply.word())),
    }
}

/// Installs the files. Returns the error of the first that is refused: `Twice` if its locale was
/// given before.
fn install_all<'a>(
    alloc: Global,
    engine: &mut Engine,
    bundles: &[Given<'a>],
    files: &[Vec<u8>],
) -> Result<(), CommandError<'a>>
    ensures start { (state_of engine.new).start ≡ (state_of engine.old).start }
{
    'files: for (bundle, file) in bundles.iter().zip(files) {
        install(alloc, engine, bundle, file)?;
    }
    Ok(())
}

/// Writes the reply to a lookup over an engine, and returns whether something is found.
#[tactic(auto, using(crate::proofs::Looking::found_by))]
fn put_answer<O: Outlet>(out: &mut O, engine: &Engine, lookup: &AskedLookup<'_>) -> bool
    ensures reply { O.takes out.old out.new (reply_line (Some
        (looked_up engine.now lookup.now.locale.now lookup.now.path.now))) }
    ensures found { result
        ≡ is_found (looked_up engine.now lookup.now.locale.now lookup.now.path.now) }
{
    let (locale, path) = (lookup.locale.as_bytes(), lookup.path.as_bytes());
    let found = engine.look(APP.as_bytes(), locale, path);
    put_look(out, &found);
    found.is_ok()
}

/// Returns the status of a lookup by whether something is found, and whether the reply was written.
fn status_of<R: Eprint>(rt: &R, is_found: bool, written: io::Result<()>) -> ExitCode
    ensures { exit_status result ≡ look_status is_found written }
{
    match written {
        Ok(()) if is_found => ExitCode::SUCCESS,
        Ok(()) => ExitCode::from(1),
        Err(error) => printed(rt, Err(error)),
    }
}

/// Prints the reply to a lookup, piece by piece; the status is 0 if something is found, otherwise 1.
fn answer<R: AllocGlobal + Print + Eprint>(
    rt: &R,
    console: Console,
    engine: &Engine,
    lookup: &AskedLookup<'_>,
) -> ExitCode
    ensures found { exit_status result ≡ 0
        → is_found (looked_up engine.now lookup.now.locale.now lookup.now.path.now) ≡ true }
{
    let Ok(writer) = BufWriter::new(rt.alloc(), io::writer(rt)) else {
        return not_started_on(rt, console, StartError::Memory);
    };
    let mut out = Printing::new(writer, console.escapes());
    let is_found = put_answer(&mut out, engine, lookup);
    status_of(rt, is_found, out.end())
}

/// Returns the meaning of a lookup's error code.
fn meaning(word: &str) -> &'static str {
    for of in [Of::Lookup, Of::Request, Of::Memory] {
        if let Some(explanation) = of.explanation(word) {
            return explanation.meaning;
        }
    }
    ""
}

/// Reports the error of a traced lookup.
fn say_fault<R: Eprint>(rt: &R, console: Console, word: &str) {
    let (meaning, hint) = (meaning(word), console.hint(word));
    let _ = eprintln!(rt; "{word}: {meaning}{hint}");
}

/// Looks a path up over an application's bundles, and writes to standard error each step of the
/// search and how it ends.
fn say_search<'a, R: Eprint>(
    rt: &'a R,
    console: Console,
    bundles: &'a [Given<'a>],
    parents: &'a Parents,
    (packages, app): (&'a Packages, &App),
    (name, path): (&Name, &[u8]),
) {
    let (own, icu) = (packages.shelf(app), packages.icu_shelf());
    let mut trace = Trace {
        rt,
        console,
        bundles,
        parents,
        own,
        icu,
        level: 0,
        icudata: false,
    };
    match look_watched(own, icu, parents, name, path, &mut trace) {
        Ok(found) => {
            let _ = eprintln!(rt;
                "found in {}",
                console.on_stderr(file_named(bundles, &found.actual))
            );
        }
        Err(fault) => say_fault(rt, console, fault.word()),
    }
}

/// Traces a lookup over files by `say_search`; writes nothing if one of them is refused.
fn say_trace<R: RandomSource + AllocGlobal + Eprint>(
    rt: &R,
    console: Console,
    lookup: &AskedLookup<'_>,
    parents: &Parents,
    bundles: &[Given<'_>],
    files: &[Vec<u8>],
) {
    let Ok(app) = App::read(APP.as_bytes()) else {
        return;
    };
    let Ok(state) = RandomState::new(rt) else {
        return;
    };
    let Ok(packages) = packages_of(rt.alloc(), state, &app, bundles, files) else {
        return;
    };
    let Ok(name) = Name::read(lookup.locale.as_bytes()) else {
        return say_fault(rt, console, "BadLocale");
    };
    let asked = (&name, lookup.path.as_bytes());
    say_search(rt, console, bundles, parents, (&packages, &app), asked);
}

/// Looks up as `look_up` does, over arguments that are split.
#[tactic(auto, using(crate::proofs::Looking::found_with))]
fn look_over<'a, R: Files + RandomSource + AllocGlobal + Print + Eprint>(
    rt: &R,
    console: Console,
    lookup: &AskedLookup<'a>,
    bundles: &[Given<'a>],
) -> Result<ExitCode, CommandError<'a>>
    ensures found { IfOk result (λ status. exit_status status ≡ 0
        → IsFoundWith lookup.now.parents lookup.now.locale.now lookup.now.path.now) }
{
    let alloc = rt.alloc();
    let parents = match parents_of(rt, lookup.parents) {
        Ok(parents) => parents,
        Err(error) => return Err(CommandError::NotStarted(error)),
    };
    let Ok(state) = RandomState::new(rt) else {
        return Err(CommandError::NotStarted(StartError::NoRandomState));
    };
    let files = made_of_each(rt, bundles, |name, bytes| file_of(alloc, name, bytes))?;
    if lookup.is_traced {
        say_trace(rt, console, lookup, &parents, bundles, &files);
    }
    let Ok(mut engine) = Engine::start(alloc, state, Vec::new(alloc), parents) else {
        return Err(CommandError::NotStarted(StartError::Memory));
    };
    install_all(alloc, &mut engine, bundles, &files)?;
    Ok(answer(rt, console, &engine, lookup))
}

/// Looks up a path in the bundles of files, beginning at a locale and with fallback, and prints the
/// reply that `serve` would give. An argument is `LOCALE=FILE`, or `FILE`, whose stem is the
/// locale; a file whose name ends in `.txt` is bundle text, any other a `.res` file. There are no
/// common bundles. A traced lookup, if no file is refused, first writes to standard error which
/// names were asked at each level, what decided on the next name, how far the path was walked, and
/// where an alias leads.
///
/// The status is 0 if something is found; 1 if nothing is, and if a file is refused, with its
/// error; 2 for an argument without a locale's name, a file that can't be read, and if standard
/// output can't be written.
pub fn look_up<R: Files + RandomSource + AllocGlobal + Print + Eprint>(
    rt: &R,
    console: Console,
    lookup: &AskedLookup<'_>,
) -> ExitCode
    ensures found { exit_status result ≡ 0
        → IsFoundWith lookup.now.parents lookup.now.locale.now lookup.now.path.now }
{
    let bundles = match all_given(rt.alloc(), Form::ByStem, &lookup.files) {
        Ok(bundles) => bundles,
        Err(error) => return finish(rt, console, CommandError::NotStarted(error)),
    };
    ended(rt, console, look_over(rt, console, lookup, &bundles))
}
