//! Reads what the settings share among all modules: explicit parents, and the bundles of ICUDATA.
use crate::coverage::{Module, ordered_bundles, read_module, second_file};
use rb_asked::ParentsSource;
use rb_console::{
    Console, Given, StartError, allocated, cannot_read_on, finish, in_folder, is_folder, is_text,
    parents_of, read_names, refused_on, started, stem,
};
use rb_coverage::ProjectData;
use rb_locales::Name;
use rb_parents::Parents;
use rb_parser::parse;
use rb_project::{Project, Section};
use rb_tree::Tree;
use std::alloc::{AllocError, Global};
use std::io;
use std::process::ExitCode;
use std::rt::Files;

/// Returns the place of the parents that settings name, given the name by which their file is
/// opened, or an empty one.
fn settings_source<'a>(section: Section<'_>, file: &'a str) -> Option<ParentsSource<'a>> {
    if section.flag("cldr-parents") {
        return Some(ParentsSource::Cldr);
    }
    if file.is_empty() {
        return None;
    }
    Some(ParentsSource::File(file))
}

/// Returns the name by which the file of a key is opened, or an empty one without the key.
fn opened_name(
    alloc: Global,
    project: &Project,
    section: Section<'_>,
    key: &str,
) -> Result<String, AllocError> {
    match section.text(key) {
        Some(file) => project.opened(alloc, file),
        None => Ok(String::new(alloc)),
    }
}

/// Reads the explicit parents of a command line, or else those of a table of the settings.
fn read_parents<R: Files + AllocGlobal + Eprint>(
    rt: &R,
    console: Console,
    project: &Project,
    asked: Option<ParentsSource<'_>>,
    section: Section<'_>,
) -> Result<Parents, ExitCode> {
    let file = allocated(
        rt,
        console,
        opened_name(rt.alloc(), project, section, "parents"),
    )?;
    let source = match asked {
        Some(source) => Some(source),
        None => settings_source(section, file.as_str()),
    };
    started(rt, console, parents_of(rt, source))
}

/// Checks whether a file's name is that of a locale's text.
fn is_of_locale(file: &str) -> bool {
    is_text(file) && Name::read(stem(file).as_bytes()).is_ok()
}

/// Returns the texts of locales among the names in a folder, each of which ends with a zero.
fn locale_files(alloc: Global, folder: &str, names: &[u8]) -> Result<Vec<String>, AllocError> {
    let mut files = Vec::new(alloc);
    for bytes in names.split(|byte| *byte == 0) {
        let file = str::from_utf8(bytes).unwrap_or("");
        if is_of_locale(file) {
            files.push(in_folder(alloc, folder, file)?)?;
        }
    }
    files.sort_by(|a: &String, b: &String| a.as_str().cmp(b.as_str()))?;
    Ok(files)
}

/// Returns the text of a name, or the texts of locales in its folder.
fn data_files<R: Files + AllocGlobal>(rt: &R, name: &str) -> io::Result<Vec<String>> {
    if is_folder(rt, name) {
        return Ok(locale_files(rt.alloc(), name, &read_names(rt, name)?)?);
    }
    let mut files = Vec::new(rt.alloc());
    files.push(String::from_str(rt.alloc(), name)?)?;
    Ok(files)
}

/// Returns the bundles of files in the order of their locales.
fn data_bundles<'a>(alloc: Global, files: &'a [String]) -> Result<Vec<Given<'a>>, StartError<'a>> {
    let mut names = Vec::new(alloc);
    for file in files {
        if names.push(file.as_str()).is_err() {
            return Err(StartError::Memory);
        }
    }
    ordered_bundles(alloc, &names)
}

/// Reads bundles that are in the order of their locales.
fn read_bundles<R: Files + AllocGlobal + Eprint>(
    rt: &R,
    console: Console,
    bundles: &[Given<'_>],
) -> Result<Vec<(Name, Tree, bool)>, ExitCode> {
    let all = Module {
        folder: "",
        first: 0,
        past: bundles.len(),
    };
    if let Some(file) = second_file(bundles, all) {
        return Err(refused_on(rt, console, file, "Twice"));
    }
    match read_module(rt, bundles, all) {
        Ok(trees) => Ok(trees),
        Err(error) => Err(finish(rt, console, error)),
    }
}

/// Reads the bundles of ICUDATA in a folder or a file, none for an empty name.
fn read_icudata<R: Files + AllocGlobal + Eprint>(
    rt: &R,
    console: Console,
    name: &str,
) -> Result<Vec<(Name, Tree, bool)>, ExitCode> {
    if name.is_empty() {
        return Ok(Vec::new(rt.alloc()));
    }
    let files = data_files(rt, name).map_err(|error| cannot_read_on(rt, console, name, "", error))?;
    let bundles = started(rt, console, data_bundles(rt.alloc(), &files))?;
    read_bundles(rt, console, &bundles)
}

/// Reads the explicit parents of a command line, or else those of a table of the settings, and the
/// bundles of ICUDATA. Returns the status of the command if they can't be read or are refused,
/// once that is reported.
pub(crate) fn read_data<R: Files + AllocGlobal + Eprint>(
    rt: &R,
    console: Console,
    project: &Project,
    asked: Option<ParentsSource<'_>>,
    section: Section<'_>,
) -> Result<ProjectData, ExitCode> {
    let parents = read_parents(rt, console, project, asked, section)?;
    let data = project.settings.section("data");
    let name = allocated(
        rt,
        console,
        opened_name(rt.alloc(), project, data, "icudata"),
    )?;
    let bundles = read_icudata(rt, console, name.as_str())?;
    Ok(ProjectData::new(parents, bundles))
}

/// The explicit parent of a text, and its aliases to nothing.
#[derive(Drop)]
pub(crate) struct TextLinks {
    parent: Option<Name>,
    /// The texts of its aliases that lead to nothing in ICUDATA, ascending.
    pub(crate) dead: Vec<Vec<u16>>,
}

/// Returns the aliases of a text that lead to nothing in ICUDATA.
fn dead_in(
    alloc: Global,
    data: &ProjectData,
    name: &Name,
    text: &[u8],
) -> Result<Vec<Vec<u16>>, AllocError> {
    if !data.has_bundles() {
        return Ok(Vec::new(alloc));
    }
    match parse(alloc, text) {
        Ok(source) => data.dead_aliases(alloc, &source.tree, name),
        Err(_) => Ok(Vec::new(alloc)),
    }
}

impl TextLinks {
    /// Returns the links of a text whose bundle should have this name, if it is known.
    pub(crate) fn of(
        alloc: Global,
        data: &ProjectData,
        name: Option<&[u8]>,
        text: &[u8],
    ) -> Result<TextLinks, AllocError> {
        let name = Name::read(name.unwrap_or(b"")).unwrap_or(Name::root());
        Ok(TextLinks {
            parent: data.parents().parent(&name),
            dead: dead_in(alloc, data, &name, text)?,
        })
    }

    /// Returns the explicit parent of the text's locale.
    pub(crate) fn parent(&self) -> Option<&[u8]> {
        match &self.parent {
            Some(name) => Some(name.as_bytes()),
            None => None,
        }
    }
}
