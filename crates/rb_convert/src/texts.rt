//! `resb text`.
use rb_asked::AskedText;
use rb_console::{Console, accepted, finish, print_bytes, printed, refused_on};
use rb_printer::{PrintError, print_bundle};
use rb_tree::UnitList;
use rb_validator::Bundle;
use std::alloc::Global;
use std::process::ExitCode;
use std::rt::Files;

/// Returns a bundle's name if none is given: that of its file, without the folders, up to the first
/// full stop.
pub fn name_of(file: &str) -> &str {
    let last = match file.rsplit_once('/') {
        Some((_, last)) => last,
        None => file,
    };
    match last.split_once('.') {
        Some((name, _)) => name,
        None => last,
    }
}

/// Returns the text of a bundle with a name.
fn bundle_text(alloc: Global, name: &str, bundle: &Bundle) -> Result<Vec<u8>, PrintError> {
    let units: Vec<u16> = name.encode_utf16().collect(alloc)?;
    print_bundle(alloc, &UnitList::from_vec(units), bundle)
}

/// Prints a file as a bundle text, whose name is the given one, or if none is given that of the
/// file up to its first full stop. The status is 0; 1 if the file is refused or its text would be
/// too large, with the error's name on standard error, and then nothing is printed; 2 if the file
/// can't be read or standard output can't be written.
pub fn text<R: Files + AllocGlobal + Print + Eprint>(
    rt: &R,
    console: Console,
    asked: &AskedText<'_>,
) -> ExitCode {
    let file = asked.file;
    let bundle = match accepted(rt, file) {
        Ok(bundle) => bundle,
        Err(error) => return finish(rt, console, error),
    };
    match bundle_text(rt.alloc(), asked.name.unwrap_or(name_of(file)), &bundle) {
        Ok(text) => printed(rt, print_bytes(rt, console, &text)),
        Err(error) => refused_on(rt, console, file, error.word()),
    }
}
