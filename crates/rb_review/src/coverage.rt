//! `resb coverage`.
use crate::coverage_output::{CoverageFormat, Printed, name_at, put_head};
use crate::data::read_data;
use rb_asked::AskedCoverage;
use rb_console::{
    CommandError, Console, Form, Given, StartError, all_given, allocated, finish, folder_of,
    not_started_on, printed, read_given, refused_on, started,
};
use rb_coverage::{Counts, Coverage, CoverageFault, Found, ProjectData};
use rb_locales::Name;
use rb_parser::{Source, parse};
use rb_project::{Modules, Project, Section, names_of, open_project, texts_of};
use rb_tree::Tree;
use std::alloc::{AllocError, Global};
use std::io;
use std::process::ExitCode;
use std::rt::Files;

/// The bundles of one folder.
#[derive(Clone, Copy)]
pub(crate) struct Module<'a> {
    pub(crate) folder: &'a str,
    /// The indexes of its first bundle, and after its last one.
    pub(crate) first: usize,
    pub(crate) past: usize,
}

/// The settings of a command, and all its bundles.
#[derive(Clone, Copy)]
struct Common<'a> {
    console: Console,
    format: CoverageFormat,
    data: &'a ProjectData,
    bundles: &'a [Given<'a>],
    has_modules: bool,
    /// The percentage of the root's keys that each locale has at least.
    least: u64,
}

/// Returns the modules of bundles that are in the order of folders.
fn modules_of<'a>(alloc: Global, bundles: &[Given<'a>]) -> Result<Vec<Module<'a>>, AllocError> {
    let mut modules: Vec<Module<'a>> = Vec::new(alloc);
    for (i, bundle) in bundles.iter().enumerate() {
        let folder = folder_of(bundle.file);
        let past = i.saturating_add(1);
        match modules.last_mut() {
            Some(module) if module.folder == folder => module.past = past,
            _ => modules.push(Module {
                folder,
                first: i,
                past,
            })?,
        }
    }
    Ok(modules)
}

/// Returns the second file of a locale, if a locale has two in a module. The bundles are in the
/// order of names.
pub(crate) fn second_file<'a>(bundles: &[Given<'a>], module: Module<'_>) -> Option<&'a str> {
    let mut before: Option<Name> = None;
    for i in module.first..module.past {
        let bundle = bundles.get(i)?;
        if before == Some(bundle.name) {
            return Some(bundle.file);
        }
        before = Some(bundle.name);
    }
    None
}

/// Reads a bundle text.
fn read_source<'a, R: Files + AllocGlobal>(
    rt: &R,
    file: &'a str,
) -> Result<Source, CommandError<'a>> {
    let text = read_given(rt, file)?;
    match parse(rt.alloc(), &text) {
        Ok(source) => Ok(source),
        Err(fault) => Err(CommandError::TextRefused(file, fault)),
    }
}

/// Reads the texts of a module, up to the first that is refused.
pub(crate) fn read_module<'a, R: Files + AllocGlobal>(
    rt: &R,
    bundles: &[Given<'a>],
    module: Module<'_>,
) -> Result<Vec<(Name, Tree, bool)>, CommandError<'a>> {
    let mut trees = Vec::new(rt.alloc());
    for i in module.first..module.past {
        let Some(bundle) = bundles.get(i) else {
            break;
        };
        let source = read_source(rt, bundle.file)?;
        if trees
            .push((bundle.name, source.tree, source.no_fallback))
            .is_err()
        {
            return Err(CommandError::NotStarted(StartError::Memory));
        }
    }
    Ok(trees)
}

/// Reports why a module can't be compared.
fn fault_status<R: Eprint>(
    rt: &R,
    console: Console,
    bundles: &[Given<'_>],
    module: Module<'_>,
    fault: CoverageFault,
) -> ExitCode {
    match fault {
        CoverageFault::NoRoot => {
            let folder = console.on_stderr(module.folder);
            let _ = eprintln!(rt; "resb: no file of the root in {folder}");
            ExitCode::from(2)
        }
        CoverageFault::Trail(i, fault) => match bundles.get(module.first.saturating_add(i)) {
            Some(bundle) => refused_on(rt, console, bundle.file, fault.word()),
            None => ExitCode::from(1),
        },
        CoverageFault::Memory => not_started_on(rt, console, StartError::Memory),
    }
}

/// Counts what is found at a key.
fn count(counts: &mut Vec<Counts>, found: &[Found]) {
    for one in found {
        if let Some(counts) = counts.get_mut(one.locale) {
            counts.add(one.finding);
        }
    }
}

/// Counts and prints what is found at the next key. Returns false after the last one.
fn put_next<R: AllocGlobal + Print>(
    rt: &R,
    printed: Printed<'_>,
    coverage: &mut Coverage<'_>,
    counts: &mut Vec<Counts>,
) -> io::Result<bool> {
    let Some(found) = coverage.next_key()? else {
        return Ok(false);
    };
    if !found.is_empty() {
        count(counts, &found);
        let path = coverage.path()?;
        printed.put_key(rt, str::from_utf8(&path).unwrap_or("?"), &found)?;
    }
    Ok(true)
}

/// Counts and prints what is found at each key.
fn put_keys<R: AllocGlobal + Print>(
    rt: &R,
    printed: Printed<'_>,
    coverage: &mut Coverage<'_>,
    counts: &mut Vec<Counts>,
) -> io::Result<()> {
    for _ in 0..u64::MAX {
        if !put_next(rt, printed, coverage, counts)? {
            break;
        }
    }
    Ok(())
}

/// Prints what is found at each key, and the table of a module. Returns the counts of its trees.
fn put_module<R: AllocGlobal + Print>(
    rt: &R,
    printed: Printed<'_>,
    coverage: &mut Coverage<'_>,
) -> io::Result<Vec<Counts>> {
    let mut counts = vec![in rt.alloc(); Counts::none(); printed.trees.len()]?;
    put_keys(rt, printed, coverage, &mut counts)?;
    let locales = coverage.locales()?;
    printed.put_table(rt, coverage.keys(), &locales, &counts)?;
    Ok(counts)
}

/// Reports the locales that have fewer of the root's keys than are wanted. Returns true if there
/// are none.
fn is_complete<R: Eprint>(
    rt: &R,
    common: Common<'_>,
    printed: Printed<'_>,
    (keys, counts): (u64, &[Counts]),
) -> bool {
    let mut is_good = true;
    for (i, counts) in counts.iter().enumerate() {
        let there = keys.saturating_sub(counts.missing);
        if there.saturating_mul(100) < keys.saturating_mul(common.least) {
            let module = common.console.on_stderr(printed.module);
            let (name, least) = (name_at(printed.trees, i), common.least);
            let _ = eprintln!(rt;
                "{module}: {name} has {there} of {keys} keys, less than {least}%"
            );
            is_good = false;
        }
    }
    is_good
}

/// Returns the status of a module whose output wasn't written.
fn unwritten_status<R: Eprint>(rt: &R, console: Console, error: io::Error) -> ExitCode {
    match error.kind() {
        io::ErrorKind::OutOfMemory => not_started_on(rt, console, StartError::Memory),
        _ => printed(rt, Err(error)),
    }
}

/// Compares the trees of a module that was read. Returns whether each locale has enough keys, or
/// the status of the command.
fn cover_read<R: AllocGlobal + Print + Eprint>(
    rt: &R,
    common: Common<'_>,
    module: Module<'_>,
    trees: &[(Name, Tree, bool)],
) -> Result<bool, ExitCode> {
    let console = common.console;
    let mut coverage = match Coverage::new(rt.alloc(), trees, common.data) {
        Ok(coverage) => coverage,
        Err(fault) => return Err(fault_status(rt, console, common.bundles, module, fault)),
    };
    let printed = Printed {
        format: common.format,
        console,
        module: module.folder,
        is_named: common.has_modules,
        trees,
    };
    match put_module(rt, printed, &mut coverage) {
        Ok(counts) => Ok(is_complete(rt, common, printed, (coverage.keys(), &counts))),
        Err(error) => Err(unwritten_status(rt, console, error)),
    }
}

/// Compares the bundles of a module. Returns whether each locale has enough keys, or the status of
/// the command.
fn cover_one<R: Files + AllocGlobal + Print + Eprint>(
    rt: &R,
    common: Common<'_>,
    module: Module<'_>,
) -> Result<bool, ExitCode> {
    if let Some(file) = second_file(common.bundles, module) {
        return Err(refused_on(rt, common.console, file, "Twice"));
    }
    match read_module(rt, common.bundles, module) {
        Ok(trees) => cover_read(rt, common, module, &trees),
        Err(error) => Err(finish(rt, common.console, error)),
    }
}

/// Compares the modules in turn, up to the first that can't be compared.
fn cover_each<R: Files + AllocGlobal + Print + Eprint>(
    rt: &R,
    common: Common<'_>,
    modules: &[Module<'_>],
) -> ExitCode {
    let mut status = ExitCode::SUCCESS;
    for module in modules {
        match cover_one(rt, common, *module) {
            Ok(true) => {}
            Ok(false) => status = ExitCode::from(1),
            Err(status) => return status,
        }
    }
    status
}

/// Returns the bundles of a command line in the order of folders and names.
pub(crate) fn ordered_bundles<'a>(
    alloc: Global,
    files: &[&'a str],
) -> Result<Vec<Given<'a>>, StartError<'a>> {
    let mut bundles = all_given(alloc, Form::ByStem, files)?;
    match bundles.sort_by_key(|bundle| (folder_of(bundle.file), bundle.name)) {
        Ok(()) => Ok(bundles),
        Err(_) => Err(StartError::Memory),
    }
}

/// Returns the table of the settings that names explicit parents: `coverage`, or else `data`.
fn parents_section(project: &Project) -> Section<'_> {
    let section = project.settings.section("coverage");
    if section.flag("cldr-parents") || section.text("parents").is_some() {
        section
    } else {
        project.settings.section("data")
    }
}

/// Finds the texts of a command, and compares their bundles in the order of folders and names.
/// Returns the status of the command also if something can't be read or is refused, once that is
/// reported.
fn cover_project<R: Files + AllocGlobal + Print + Eprint>(
    rt: &R,
    console: Console,
    format: CoverageFormat,
    asked: &AskedCoverage<'_>,
    project: &Project,
) -> Result<ExitCode, ExitCode> {
    let alloc = rt.alloc();
    let modules = allocated(rt, console, Modules::of(alloc, project))?;
    let texts = texts_of(rt, console, &modules, &asked.texts)?;
    let names = allocated(rt, console, names_of(alloc, &texts))?;
    let bundles = started(rt, console, ordered_bundles(alloc, &names))?;
    let section = parents_section(project);
    let data = read_data(rt, console, project, asked.parents, section)?;
    let modules = allocated(rt, console, modules_of(alloc, &bundles))?;
    if let Err(error) = put_head(rt, format) {
        return Err(printed(rt, Err(error)));
    }
    let section = project.settings.section("coverage");
    let common = Common {
        console,
        format,
        data: &data,
        bundles: &bundles,
        has_modules: modules.len() > 1,
        least: section.number("complete").unwrap_or(0),
    };
    Ok(cover_each(rt, common, &modules))
}

/// Compares the locales of bundle texts with what they inherit, and prints what they lack and how
/// they differ. The files of one folder are a module, which has a file of the root; modules are
/// compared one by one, in the order of their folders. A folder stands for the texts of its
/// modules; the settings of the project say which parents there are and how many keys a locale has
/// at least.
///
/// The status is 0; 1 if a text is refused, a locale has two files or no trail, or fewer keys than
/// are wanted, or memory runs out; 2 if the format is no format, the settings are refused, a module
/// has no root, an argument has no locale's name, or a file or standard output can't be read or
/// written. The first error ends the command, except too few keys.
pub fn cover_all<R: Files + AllocGlobal + Print + Eprint>(
    rt: &R,
    console: Console,
    asked: &AskedCoverage<'_>,
) -> ExitCode {
    let Some(format) = CoverageFormat::named(asked.format) else {
        let _ = eprintln!(rt; "resb: --format is table, list, json or csv");
        return ExitCode::from(2);
    };
    let project = match open_project(rt, console, asked.config, &[]) {
        Ok(project) => project,
        Err(status) => return status,
    };
    match cover_project(rt, console, format, asked, &project) {
        Ok(status) | Err(status) => status,
    }
}
