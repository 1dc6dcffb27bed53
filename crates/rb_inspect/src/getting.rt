//! `resb get`.
use crate::item::put_at;
use rb_asked::AskedGet;
use rb_console::{Console, Printing, accepted, finish, printed, refused_on};
use rb_fallback::PATH_LIMIT;
use rb_tree::{Ending, Kind, Node, path_ok, walk};
use rb_validator::Bundle;
use rb_views::root;
use std::alloc::{AllocError, Global};
use std::io;
use std::io::BufWriter;
use std::process::ExitCode;
use std::rt::Files;

/// Prints the item of a bundle at a path as JSON.
fn put_json<R: AllocGlobal + Print + Eprint>(
    rt: &R,
    console: Console,
    name: &str,
    bundle: &Bundle,
    path: &str,
) -> ExitCode {
    let Ok(writer) = BufWriter::new(rt.alloc(), io::writer(rt)) else {
        return refused_on(rt, console, name, "Memory");
    };
    let mut out = Printing::new(writer, console.escapes());
    match put_at(&mut out, root(bundle), path.as_bytes()) {
        Ok(()) => printed(rt, out.end_line()),
        Err(error) => refused_on(rt, console, path, error.word()),
    }
}

/// Returns the String to which a path leads, if it leads to one.
fn string_at<N: Node>(root: N, path: &[u8]) -> Option<N> {
    if !path_ok(path) || PATH_LIMIT < path.len() {
        return None;
    }
    match walk(root, path) {
        Ending::End(node) if node.kind() == Kind::String => Some(node),
        _ => None,
    }
}

/// Returns a String's characters. A surrogate without its other half is U+FFFD.
fn characters_of<N: Node>(alloc: Global, node: N) -> Result<String, AllocError> {
    let mut units = Vec::with_capacity(alloc, node.len())?;
    if node.kind() == Kind::String {
        for i in 0..node.len() {
            units.push(node.unit(i))?;
        }
    }
    String::from_utf16_lossy(alloc, &units)
}

/// Prints a String as its characters and a line feed, or another item as JSON.
fn put_raw<R: AllocGlobal + Print + Eprint>(
    rt: &R,
    console: Console,
    bundle: &Bundle,
    (name, path): (&str, &str),
) -> ExitCode {
    let Some(node) = string_at(root(bundle), path.as_bytes()) else {
        return put_json(rt, console, name, bundle, path);
    };
    match characters_of(rt.alloc(), node) {
        Ok(text) => printed(rt, println!(rt; "{}", console.on_stdout(text.as_str()))),
        Err(_) => refused_on(rt, console, name, "Memory"),
    }
}

/// Prints the item of a file at a path as JSON, without fallback, or an alias on the way with the
/// remaining path. On a terminal, control characters are escaped. A raw String is printed as its
/// characters and a line feed: a surrogate without its other half as U+FFFD, and on a terminal
/// control characters escaped as in names.
///
/// The status is 0; 1 if the file is refused or has no such item, with the file or the path and the
/// error's name on standard error; 2 if the file can't be read or standard output can't be written.
pub fn get<R: Files + AllocGlobal + Print + Eprint>(
    rt: &R,
    console: Console,
    asked: &AskedGet<'_>,
) -> ExitCode {
    match accepted(rt, asked.file) {
        Ok(bundle) if asked.is_raw => put_raw(rt, console, &bundle, (asked.file, asked.path)),
        Ok(bundle) => put_json(rt, console, asked.file, &bundle, asked.path),
        Err(error) => finish(rt, console, error),
    }
}
