//! `resb init`.
use crate::project::NAME;
use crate::walk::texts_below;
use rb_console::{CommandError, Console, cannot_read_on, finish, folder_of, in_folder, printed};
use std::alloc::{AllocError, Global};
use std::fs::OpenOptions;
use std::io;
use std::io::Write;
use std::process::ExitCode;
use std::rt::Files;

/// The beginning of a first settings file.
const HEAD: &str = "\
# Settings of resb for the texts in this folder and below.

[data]
# icudata = \"icudata\"         # the texts of ICUDATA, to which aliases may lead
# parents = \"parents.txt\"     # explicit parents, or: cldr-parents = true

[lint]
# allow = [\"bundle-name\"]      # warnings to leave out
# deny = [\"other-arguments\"]   # warnings that are errors

[fmt]
indent = 4
width = 100
";

/// Adds the entry of a module.
fn add_module(text: &mut String, folder: &str) -> Result<(), AllocError> {
    text.push_str("\n[[module]]\nfolder = \"")?;
    for c in folder.chars() {
        if c == '"' || c == '\\' {
            text.push('\\')?;
        }
        text.push(c)?;
    }
    text.push_str("\"\n")
}

/// Returns the name of a folder below another one, or `.` for that one.
fn below<'a>(top: &str, folder: &'a str) -> &'a str {
    let rest = match folder.strip_prefix(top) {
        Some(rest) if top != "." => rest.trim_start_matches('/'),
        _ => folder,
    };
    if rest.is_empty() { "." } else { rest }
}

/// Returns the text of a first settings file for modules, given the names of their texts.
fn first_text(alloc: Global, top: &str, texts: &[String]) -> Result<String, AllocError> {
    let mut text = String::from_str(alloc, HEAD)?;
    for name in texts {
        if name.as_str() == "root.txt" || name.as_str().ends_with("/root.txt") {
            add_module(&mut text, below(top, folder_of(name.as_str())))?;
        }
    }
    Ok(text)
}

/// Writes a file that must not exist.
fn write_new<R: Files>(rt: &R, name: &str, text: &str) -> io::Result<()> {
    let mut file = OpenOptions::new()
        .write(true)
        .create_new(true)
        .open(rt, name)?;
    file.write_all(text.as_bytes())
}

/// Writes the settings file of a folder, and returns its name.
fn write_first<R: Files + AllocGlobal>(rt: &R, name: &str, top: &str) -> io::Result<()> {
    let texts = texts_below(rt, top, true)?;
    let text = first_text(rt.alloc(), top, &texts)?;
    write_new(rt, name, text.as_str())
}

/// Writes a first settings file into a folder, with a module for each folder below it that has a
/// `root.txt`. The status is 0, or 2 if the folder can't be read, or the file is there or can't be
/// written.
pub fn init<R: Files + AllocGlobal + Print + Eprint>(
    rt: &R,
    console: Console,
    folder: &str,
) -> ExitCode {
    let name = match folder {
        "." => String::from_str(rt.alloc(), NAME),
        folder => in_folder(rt.alloc(), folder, NAME),
    };
    let Ok(name) = name else {
        return cannot_read_on(rt, console, folder, "", io::ErrorKind::OutOfMemory.into());
    };
    match write_first(rt, name.as_str(), folder) {
        Ok(()) => {
            let name = console.on_stdout(name.as_str());
            printed(rt, println!(rt; "{name}: written"))
        }
        Err(error) => finish(
            rt,
            console,
            CommandError::Unwritten(name.as_str(), error.kind()),
        ),
    }
}
