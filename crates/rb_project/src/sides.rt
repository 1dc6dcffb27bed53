//! The two sides of a comparison, each of which may be a module.
use crate::modules::Modules;
use crate::project::{Project, open_project};
use rb_asked::Configured;
use rb_console::{Console, allocated};
use std::alloc::{AllocError, Global};
use std::process::ExitCode;
use std::rt::Files;

/// Checks whether something has a name.
fn is_there<R: Files>(rt: &R, name: &str) -> bool {
    rt.symlink_metadata(name).is_ok()
}

/// Checks whether a word is a folder's name, or the last part of it.
fn is_named(folder: &str, word: &str) -> bool {
    let folder = folder.trim_end_matches('/');
    match folder.rsplit_once('/') {
        Some((_, last)) => folder == word || last == word,
        None => folder == word,
    }
}

/// Returns the name by which the folder of a module is opened, or a word that names none.
fn module_folder(alloc: Global, project: &Project, word: &str) -> Result<String, AllocError> {
    for row in &Modules::of(alloc, project)?.rows {
        match row.section.text("folder") {
            Some(folder) if is_named(folder, word) => return project.opened(alloc, folder),
            _ => {}
        }
    }
    String::from_str(alloc, word)
}

/// Returns the name by which a side is opened.
fn side_of<R: Files + AllocGlobal>(
    rt: &R,
    project: &Project,
    word: &str,
) -> Result<String, AllocError> {
    if is_there(rt, word) {
        String::from_str(rt.alloc(), word)
    } else {
        module_folder(rt.alloc(), project, word)
    }
}

/// Returns the names by which two sides are opened.
fn both_of<R: Files + AllocGlobal>(
    rt: &R,
    project: &Project,
    (old, new): (&str, &str),
) -> Result<(String, String), AllocError> {
    Ok((side_of(rt, project, old)?, side_of(rt, project, new)?))
}

/// Returns the names by which the sides of a comparison are opened. A word that is neither a file
/// nor a folder names the first module whose folder has that name, or ends in it. The settings are
/// read only if they are named, or for such a word.
///
/// Returns the status of the command if the settings can't be read or are refused, once that is
/// reported.
pub fn sides_of<R: Files + AllocGlobal + Eprint>(
    rt: &R,
    console: Console,
    words: Configured<'_>,
    (old, new): (&str, &str),
) -> Result<(String, String), ExitCode> {
    let is_plain = is_there(rt, old) && is_there(rt, new);
    let words = Configured {
        file: words.file,
        is_none: words.is_none || is_plain,
    };
    let project = open_project(rt, console, words, &[])?;
    allocated(rt, console, both_of(rt, &project, (old, new)))
}
