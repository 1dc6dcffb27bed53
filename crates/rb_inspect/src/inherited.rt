//! `resb json --inherit`: an item of a locale, with everything that it inherits.
use crate::lookup::file_of;
use rb_asked::AskedInherited;
use rb_console::{
    CommandError, Console, Escapes, Form, Given, Printing, StartError, all_given, ended, finish,
    made_of_each, parents_of, printed,
};
use rb_engine::App;
use rb_inherit::{TreeError, TreeLimits, put_tree, tree_size};
use rb_json::Outlet;
use rb_locales::Name;
use rb_packages::{PackFault, Packages};
use rb_parents::Parents;
use rb_validator::accept;
use std::alloc::Global;
use std::hash::RandomState;
use std::io;
use std::io::BufWriter;
use std::process::ExitCode;
use std::random::RandomSource;
use std::rt::Files;

/// The application that the bundles of a tree are installed for.
const APP: &str = "json";

/// Returns the argument that an error of the tree is reported with.
fn place_of<'a>(asked: &AskedInherited<'a>) -> &'a str {
    if asked.path.is_empty() {
        asked.locale
    } else {
        asked.path
    }
}

/// Installs a file.
fn install<'a>(
    alloc: Global,
    packages: &mut Packages,
    app: &App,
    given: &Given<'a>,
    file: &[u8],
) -> Result<(), CommandError<'a>> {
    let Ok(file) = file.to_vec(alloc) else {
        return Err(CommandError::NotStarted(StartError::Memory));
    };
    let bundle = match accept(alloc, file) {
        Ok(bundle) => bundle,
        Err((fault, _)) => return Err(CommandError::Refused(given.file, fault.word())),
    };
    match packages.install(app, given.name, bundle) {
        Ok(()) => Ok(()),
        Err((PackFault::Memory, _)) => Err(CommandError::NotStarted(StartError::Memory)),
        Err((PackFault::Full, _)) => Err(CommandError::Refused(given.file, "Full")),
        Err((PackFault::Exists | PackFault::Twice, _)) => {
            Err(CommandError::Refused(given.file, "Twice"))
        }
    }
}

/// Installs the files as bundles of an application. Returns the error of the first that is refused:
/// `Twice` if its locale was given before.
pub(crate) fn packages_of<'a>(
    alloc: Global,
    state: RandomState,
    app: &App,
    bundles: &[Given<'a>],
    files: &[Vec<u8>],
) -> Result<Packages, CommandError<'a>> {
    let mut packages = Packages::new(alloc, state);
    for (given, file) in bundles.iter().zip(files) {
        install(alloc, &mut packages, app, given, file)?;
    }
    Ok(packages)
}

/// Writes the tree of an application's bundles, whose length is counted first.
fn put_inherited<'a, O: Outlet>(
    out: &mut O,
    alloc: Global,
    packages: &'a Packages,
    app: &App,
    parents: &'a Parents,
    (name, path): (&Name, &[u8]),
) -> Result<(), TreeError> {
    let (own, icu) = (packages.shelf(app), packages.icu_shelf());
    let limits = TreeLimits::none();
    let _ = tree_size(alloc, own, icu, parents, name, path, limits)?;
    put_tree(out, alloc, own, icu, parents, name, path, limits)
}

/// Prints the tree of an application's bundles.
fn print_inherited<'a, R: AllocGlobal + Print + Eprint>(
    rt: &R,
    packages: &Packages,
    app: &App,
    parents: &Parents,
    asked: &AskedInherited<'a>,
    escapes: Escapes,
) -> Result<ExitCode, CommandError<'a>> {
    let Ok(name) = Name::read(asked.locale.as_bytes()) else {
        return Err(CommandError::Refused(asked.locale, "BadLocale"));
    };
    let Ok(writer) = BufWriter::new(rt.alloc(), io::writer(rt)) else {
        return Err(CommandError::NotStarted(StartError::Memory));
    };
    let mut out = Printing::new(writer, escapes);
    let place = (&name, asked.path.as_bytes());
    match put_inherited(&mut out, rt.alloc(), packages, app, parents, place) {
        Ok(()) => Ok(printed(rt, out.end_line())),
        Err(TreeError::Memory) => Err(CommandError::NotStarted(StartError::Memory)),
        Err(error) => Err(CommandError::Refused(place_of(asked), error.word())),
    }
}

/// Prints the tree as `print_tree` does, over arguments that are split.
fn print_over<'a, R: Files + RandomSource + AllocGlobal + Print + Eprint>(
    rt: &R,
    asked: &AskedInherited<'a>,
    escapes: Escapes,
    bundles: &[Given<'a>],
) -> Result<ExitCode, CommandError<'a>> {
    let alloc = rt.alloc();
    let parents = match parents_of(rt, asked.parents) {
        Ok(parents) => parents,
        Err(error) => return Err(CommandError::NotStarted(error)),
    };
    let Ok(state) = RandomState::new(rt) else {
        return Err(CommandError::NotStarted(StartError::NoRandomState));
    };
    let Ok(app) = App::read(APP.as_bytes()) else {
        return Err(CommandError::NotStarted(StartError::Memory));
    };
    let files = made_of_each(rt, bundles, |name, bytes| file_of(alloc, name, bytes))?;
    let packages = packages_of(alloc, state, &app, bundles, &files)?;
    print_inherited(rt, &packages, &app, &parents, asked, escapes)
}

/// Prints the item at a path of a locale, with everything that it inherits from the bundles of
/// files, as one JSON value and a line feed. The arguments name bundles as those of `look_up` do.
///
/// The status is 0; 1 if a file is refused, or if there is no tree, with the file, or the path or
/// else the locale, and the error's name on standard error; 2 for `--pretty`, an argument without a
/// locale's name, a file that can't be read, and if standard output can't be written.
pub fn print_tree<R: Files + RandomSource + AllocGlobal + Print + Eprint>(
    rt: &R,
    console: Console,
    asked: &AskedInherited<'_>,
) -> ExitCode {
    if asked.is_pretty {
        let _ = eprintln!(rt; "resb: --pretty is not for --inherit");
        return ExitCode::from(2);
    }
    let bundles = match all_given(rt.alloc(), Form::ByStem, &asked.files) {
        Ok(bundles) => bundles,
        Err(error) => return finish(rt, console, CommandError::NotStarted(error)),
    };
    let escapes = console.json_escapes();
    ended(rt, console, print_over(rt, asked, escapes, &bundles))
}
