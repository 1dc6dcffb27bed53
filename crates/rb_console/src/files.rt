//! Files that are read whole, and the ends of commands.
ghost use Rattle.std.specs.Prelude.{◌≡◌};
ghost use Rattle.std.specs.IoError.{error_kind};
ghost use Rattle.std.specs.Process.{exit_status};
ghost use Rattle.rb_console.specs.Status.{printed_status, refused_status, unread_status};

use crate::console::Console;
use rb_format::FILE_LIMIT;
use std::fs::OpenFile;
use std::io::{ErrorKind, Read};
use std::process::ExitCode;
use std::rt::Files;
use std::{fs, io};

/// The most bytes that are read of a file: one past the largest.
const MOST_READ: u64 = FILE_LIMIT as u64 + 1;

/// Reads a file, at most this many bytes.
pub fn read_at_most<R: Files + AllocGlobal>(rt: &R, name: &str, most: u64) -> io::Result<Vec<u8>> {
    let file = fs::open(rt, name)?;
    let room = file.metadata().map_or(0, |told| told.len());
    let mut bytes = Vec::with_capacity(rt.alloc(), room.saturating_add(1).min(most) as usize)?;
    file.take(most).read_to_end(&mut bytes)?;
    Ok(bytes)
}

/// Reads a file, at most one byte past the largest.
pub fn read_file<R: Files + AllocGlobal>(rt: &R, name: &str) -> io::Result<Vec<u8>> {
    read_at_most(rt, name, MOST_READ)
}

/// Reports that a file could not be read, as `cannot_read_on` does, by the cause.
pub fn not_read<R: Eprint>(
    rt: &R,
    console: Console,
    name: &str,
    line: &str,
    kind: ErrorKind,
) -> ExitCode
    ensures status { exit_status result ≡ unread_status kind }
{
    if kind == ErrorKind::OutOfMemory {
        let (name, hint) = (console.on_stderr(name), console.hint("Memory"));
        let _ = eprintln!(rt; "{name}{line}: Memory{hint}");
        return ExitCode::from(1);
    }
    let (name, cause) = (console.on_stderr(name), console.read_cause(kind));
    let _ = eprintln!(rt; "cannot read {name}{cause}");
    ExitCode::from(2)
}

/// Reports that a file could not be read: out of memory, which is printed after the name and
/// `line`, or another cause. `line` is `:0` for a text, whose errors have a line, otherwise empty.
pub fn cannot_read_on<R: Eprint>(
    rt: &R,
    console: Console,
    name: &str,
    line: &str,
    error: io::Error,
) -> ExitCode
    ensures status { exit_status result ≡ unread_status (error_kind error) }
{
    not_read(rt, console, name, line, error.kind())
}

/// Reports that a file or a path is refused, by the error's name.
pub fn refused_on<R: Eprint>(rt: &R, console: Console, place: &str, word: &str) -> ExitCode
    ensures status { exit_status result ≡ refused_status }
{
    let (place, hint) = (console.on_stderr(place), console.hint(word));
    let _ = eprintln!(rt; "{place}: {word}{hint}");
    ExitCode::from(1)
}

/// Returns the status of a command by whether its output was written. If a program that reads the
/// output has ended, as `head` does, nothing is said.
pub fn printed<R: Eprint>(rt: &R, written: io::Result<()>) -> ExitCode
    ensures status { exit_status result ≡ printed_status written }
{
    let Err(error) = written else {
        return ExitCode::SUCCESS;
    };
    if error.kind() != ErrorKind::BrokenPipe {
        let _ = eprintln!(rt; "cannot write stdout");
    }
    ExitCode::from(2)
}
