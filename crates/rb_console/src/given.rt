//! Reads the bundles that the arguments of a command name.
use crate::error::{CommandError, StartError};
use crate::files::read_file;
use rb_locales::Name;
use std::alloc::Global;
use std::rt::Files;

/// The end of a bundle text's name.
const TEXT_ENDING: &[u8] = b".txt";

/// The form in which an argument names a bundle.
#[derive(Clone, Copy)]
pub enum Form {
    /// `LOCALE=FILE`.
    Located,
    /// `LOCALE=FILE`, or `FILE`, whose stem is the locale.
    ByStem,
}

/// A file, and its bundle's locale as the argument gives it.
#[derive(Clone, Copy)]
pub struct Given<'a> {
    pub locale: &'a str,
    pub name: Name,
    pub file: &'a str,
}

/// Returns a file's name without its folder and its last ending: `de` for `texts/de.txt`.
pub fn stem(file: &str) -> &str {
    let name = match file.rsplit_once('/') {
        Some((_, name)) => name,
        None => file,
    };
    match name.rsplit_once('.') {
        Some((stem, _)) if !stem.is_empty() => stem,
        _ => name,
    }
}

/// Splits an argument at its first `=`.
fn split(form: Form, argument: &str) -> Option<Given<'_>> {
    let (locale, file) = match (argument.split_once('='), form) {
        (Some(parts), _) => parts,
        (None, Form::ByStem) => (stem(argument), argument),
        (None, Form::Located) => return None,
    };
    let name = Name::read(locale.as_bytes()).ok()?;
    Some(Given { locale, name, file })
}

/// Splits each argument at its first `=`. Errors: `BadArgument` with the first that isn't of the
/// form, or whose locale is no locale's name; `Memory` if memory runs out.
pub fn all_given<'a>(
    alloc: Global,
    form: Form,
    arguments: &[&'a str],
) -> Result<Vec<Given<'a>>, StartError<'a>> {
    let mut bundles = Vec::new(alloc);
    for argument in arguments {
        let Some(bundle) = split(form, argument) else {
            return Err(StartError::BadArgument(argument));
        };
        if bundles.push(bundle).is_err() {
            return Err(StartError::Memory);
        }
    }
    Ok(bundles)
}

/// Checks whether a file is a bundle text by its name, which ends in `.txt` in any case.
pub fn is_text(file: &str) -> bool {
    let at = file.len().saturating_sub(TEXT_ENDING.len());
    file.as_bytes()
        .get(at..)
        .is_some_and(|end| end.eq_ignore_ascii_case(TEXT_ENDING))
}

/// Reads a file as `read_file` does. Out of memory is at line 0 of a text.
pub fn read_given<'a, R: Files + AllocGlobal>(
    rt: &R,
    file: &'a str,
) -> Result<Vec<u8>, CommandError<'a>> {
    let line = if is_text(file) { ":0" } else { "" };
    match read_file(rt, file) {
        Ok(bytes) => Ok(bytes),
        Err(error) => Err(CommandError::Unread(file, line, error.kind())),
    }
}
