//! The errors with which a command ends.
ghost use Rattle.std.specs.Prelude.{◌≡◌, ◌≢◌, IfErr, IfOk, IsErr, Ok};
ghost use Rattle.std.specs.Process.{exit_status};
ghost use Rattle.rb_console.specs.Status.{refused_status, start_status};
ghost use Rattle.rb_console.specs.Errors.{command_status};

use crate::console::Console;
use crate::files::{not_read, refused_on};
use rb_lexer::SourceFault;
use std::alloc::AllocError;
use std::io::ErrorKind;
use std::process::ExitCode;

/// The reason why serving, or a lookup, doesn't start.
#[derive(Clone, Copy, Debug)]
pub enum StartError<'a> {
    /// An argument that names no bundle.
    BadArgument(&'a str),
    /// A file that can't be read.
    Unreadable(&'a str, ErrorKind),
    /// A file that is refused, and the error's name.
    Refused(&'a str, &'static str),
    /// The runtime has no random state.
    NoRandomState,
    /// Out of memory.
    Memory,
}

/// Reports why a command doesn't start, on a line of standard error. The status is 1 if a file is
/// refused or memory runs out, otherwise 2.
pub fn not_started_on<R: Eprint>(rt: &R, console: Console, error: StartError<'_>) -> ExitCode
    ensures status { exit_status result ≡ start_status error.entry }
{
    let (_, status) = match error {
        StartError::BadArgument(argument) => {
            let argument = console.on_stderr(argument);
            (eprintln!(rt; "bad bundle argument: {argument}"), 2)
        }
        StartError::Unreadable(file, kind) => {
            let (file, cause) = (console.on_stderr(file), console.read_cause(kind));
            (eprintln!(rt; "cannot read {file}{cause}"), 2)
        }
        StartError::Refused(file, word) => {
            let (file, hint) = (console.on_stderr(file), console.hint(word));
            (eprintln!(rt; "{file}: {word}{hint}"), 1)
        }
        StartError::NoRandomState => (eprintln!(rt; "no random state"), 2),
        StartError::Memory => (eprintln!(rt; "Memory{}", console.hint("Memory")), 1),
    };
    ExitCode::from(status)
}

/// Returns what was made, or the status of a command that doesn't start, once that is reported.
pub fn started<T: Drop, R: Eprint>(
    rt: &R,
    console: Console,
    made: Result<T, StartError<'_>>,
) -> Result<T, ExitCode>
    ensures ok { IfOk result (λ t. made.entry ≡ Ok t) }
    ensures err { IfErr result (λ _. IsErr made.entry) }
    ensures status { IfErr result (λ status. IfErr made.entry
        (λ error. exit_status status ≡ start_status error)) }
{
    match made {
        Ok(made) => Ok(made),
        Err(error) => Err(not_started_on(rt, console, error)),
    }
}

/// Returns what was made, or the status of a command that memory runs out for, once that is
/// reported.
pub fn allocated<T: Drop, R: Eprint>(
    rt: &R,
    console: Console,
    made: Result<T, AllocError>,
) -> Result<T, ExitCode>
    ensures ok { IfOk result (λ t. made ≡ Ok t) }
    ensures err { IfErr result (λ _. IsErr made) }
    ensures status { IfErr result (λ status. exit_status status ≡ 1) }
{
    match made {
        Ok(made) => Ok(made),
        Err(_) => Err(not_started_on(rt, console, StartError::Memory)),
    }
}

/// The reason why a command ends without success.
#[derive(Clone, Copy, Debug)]
pub enum CommandError<'a> {
    NotStarted(StartError<'a>),
    /// A file or a path is refused, by the error's name.
    Refused(&'a str, &'static str),
    /// A bundle text is refused, at a line.
    TextRefused(&'a str, SourceFault),
    /// A file can't be read. The second text follows its name if memory runs out.
    Unread(&'a str, &'static str, ErrorKind),
    /// A file can't be written.
    Unwritten(&'a str, ErrorKind),
    /// A file must not be written: the reason, and its name.
    BadOutput(&'static str, &'a str),
}

/// Reports the line at which a bundle text is refused, and the error.
fn text_refused<R: Eprint>(rt: &R, console: Console, file: &str, fault: SourceFault) -> ExitCode
    ensures { exit_status result ≡ refused_status }
{
    let word = fault.kind.word();
    let (file, line, hint) = (console.on_stderr(file), fault.line, console.hint(word));
    let _ = eprintln!(rt; "{file}:{line}: {word}{hint}");
    ExitCode::from(1)
}

/// Reports an error on a line of standard error. The status isn't 0.
#[tactic(auto, using(crate::proofs::Failing::fails))]
pub fn finish<R: Eprint>(rt: &R, console: Console, error: CommandError<'_>) -> ExitCode
    ensures status { exit_status result ≡ command_status error.entry }
    ensures failed { exit_status result ≢ 0 }
{
    match error {
        CommandError::NotStarted(error) => not_started_on(rt, console, error),
        CommandError::Refused(place, word) => refused_on(rt, console, place, word),
        CommandError::TextRefused(file, fault) => text_refused(rt, console, file, fault),
        CommandError::Unread(file, line, kind) => not_read(rt, console, file, line, kind),
        CommandError::Unwritten(file, kind) => {
            let (file, cause) = (console.on_stderr(file), console.write_cause(kind));
            let _ = eprintln!(rt; "cannot write {file}{cause}");
            ExitCode::from(2)
        }
        CommandError::BadOutput(reason, file) => {
            let _ = eprintln!(rt; "resb: {reason}: {}", console.on_stderr(file));
            ExitCode::from(2)
        }
    }
}

/// Ends a command, with its status or with an error.
pub fn ended<R: Eprint>(
    rt: &R,
    console: Console,
    outcome: Result<ExitCode, CommandError<'_>>,
) -> ExitCode
    ensures ok { IfOk outcome.entry (λ status. exit_status result ≡ exit_status status) }
    ensures err { IfErr outcome.entry (λ e. exit_status result ≡ command_status e) }
    ensures failed { IfErr outcome.entry (λ e. exit_status result ≢ 0) }
{
    match outcome {
        Ok(status) => status,
        Err(error) => finish(rt, console, error),
    }
}
