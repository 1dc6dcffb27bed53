//! The texts that the arguments of a command name.
use crate::modules::Modules;
use crate::walk::texts_below;
use rb_console::{Console, cannot_read_on, folder_of, in_folder, is_folder};
use std::alloc::{AllocError, Global};
use std::io;
use std::process::ExitCode;
use std::rt::Files;

/// A text of a command.
#[derive(Drop)]
pub struct Text {
    pub name: String,
    /// The name of the root's text, to compare with; None for the root's text itself.
    pub root: Option<String>,
}

/// Checks whether two names are those of one file.
fn are_same(alloc: Global, modules: &Modules<'_>, a: &str, b: &str) -> Result<bool, AllocError> {
    Ok(modules.project.whole(alloc, a)? == modules.project.whole(alloc, b)?)
}

/// Returns the name of a text's root, if a module says it, or None for the root's text itself.
pub fn root_of(
    alloc: Global,
    modules: &Modules<'_>,
    name: &str,
) -> Result<Option<String>, AllocError> {
    let root = match modules.of_text(alloc, name)? {
        Some(module) => modules.opened_root(alloc, module)?,
        None => None,
    };
    match root {
        Some(root) if !are_same(alloc, modules, name, root.as_str())? => Ok(Some(root)),
        _ => Ok(None),
    }
}

/// Returns the name of the text `root.txt` beside a text, or None for that text itself.
fn root_beside(alloc: Global, name: &str) -> Result<Option<String>, AllocError> {
    if name == "root.txt" || name.ends_with("/root.txt") {
        return Ok(None);
    }
    match folder_of(name) {
        "." => Ok(Some(String::from_str(alloc, "root.txt")?)),
        folder => Ok(Some(in_folder(alloc, folder, "root.txt")?)),
    }
}

/// Adds the texts of a folder that belong to a module. Without modules in the settings, a folder
/// with a `root.txt` is one. Returns false if there are none.
fn add_folder<R: Files + AllocGlobal>(
    rt: &R,
    modules: &Modules<'_>,
    texts: &mut Vec<Text>,
    folder: &str,
) -> io::Result<bool> {
    let alloc = rt.alloc();
    let is_free = modules.rows.is_empty();
    let before = texts.len();
    for name in texts_below(rt, folder, is_free)? {
        let root = if is_free {
            root_beside(alloc, name.as_str())?
        } else if modules.of_text(alloc, name.as_str())?.is_some() {
            root_of(alloc, modules, name.as_str())?
        } else {
            continue;
        };
        texts.push(Text { name, root })?;
    }
    Ok(texts.len() > before)
}

/// Adds the texts of an argument: a text, or a folder. Returns false for a folder without texts.
fn add_argument<R: Files + AllocGlobal>(
    rt: &R,
    modules: &Modules<'_>,
    texts: &mut Vec<Text>,
    argument: &str,
) -> io::Result<bool> {
    if is_folder(rt, argument) {
        return add_folder(rt, modules, texts, argument);
    }
    let name = String::from_str(rt.alloc(), argument)?;
    let root = root_of(rt.alloc(), modules, argument)?;
    texts.push(Text { name, root })?;
    Ok(true)
}

/// Returns the texts that arguments name: a folder stands for the texts of its modules, below it
/// too.
///
/// Returns the status of the command if a folder can't be read or has no text, once that is
/// reported.
pub fn texts_of<R: Files + AllocGlobal + Eprint>(
    rt: &R,
    console: Console,
    modules: &Modules<'_>,
    arguments: &[&str],
) -> Result<Vec<Text>, ExitCode> {
    let mut texts = Vec::new(rt.alloc());
    for argument in arguments {
        match add_argument(rt, modules, &mut texts, argument) {
            Ok(true) => {}
            Ok(false) => {
                let argument = console.on_stderr(argument);
                let _ = eprintln!(rt; "resb: no text of a module in {argument}");
                return Err(ExitCode::from(2));
            }
            Err(error) => return Err(cannot_read_on(rt, console, argument, "", error)),
        }
    }
    Ok(texts)
}

/// Returns the names of texts.
pub fn names_of(alloc: Global, texts: &[Text]) -> Result<Vec<&str>, AllocError> {
    let mut names = Vec::new(alloc);
    for text in texts {
        names.push(text.name.as_str())?;
    }
    Ok(names)
}
