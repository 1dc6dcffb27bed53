//! `resb check`.
ghost use Rattle.std.specs.Prelude.{◌≡◌, ◌≢◌, IfErr};
ghost use Rattle.std.specs.Process.{exit_status};

use rb_asked::AskedCheck;
use rb_console::{CommandError, Console, JsonText, accepted, each, failed, finish, printed};
use rb_validator::Bundle;
use std::process::ExitCode;
use std::rt::{Clock, Files};

/// Checks the only file.
fn check_only<R: Files + AllocGlobal + Print + Eprint>(
    rt: &R,
    console: Console,
    name: &str,
) -> ExitCode {
    match accepted(rt, name) {
        Ok(_) if console.is_quiet => ExitCode::SUCCESS,
        Ok(bundle) => {
            let visits = bundle.visits();
            printed(rt, println!(rt; "ok, {visits} visits"))
        }
        Err(error) => finish(rt, console, error),
    }
}

/// Prints that a file is accepted, and returns its status: 1 if it isn't.
fn checked<R: Print + Eprint>(
    rt: &R,
    console: Console,
    name: &str,
    accepted: Result<Bundle, CommandError<'_>>,
) -> ExitCode
    ensures refused { IfErr accepted.entry (λ error. exit_status result ≡ 1) }
{
    match accepted {
        Err(refusal) => failed(rt, console, refusal),
        Ok(_) if console.is_quiet => ExitCode::SUCCESS,
        Ok(bundle) => {
            let (name, visits) = (console.on_stdout(name), bundle.visits());
            printed(rt, println!(rt; "{name}: ok, {visits} visits"))
        }
    }
}

/// Prints an object for a file, and returns its status: 1 if the file isn't accepted, 2 if standard
/// output can't be written.
fn checked_json<R: Print + Eprint>(
    rt: &R,
    console: Console,
    name: &str,
    accepted: Result<Bundle, CommandError<'_>>,
) -> ExitCode
    ensures refused { IfErr accepted.entry (λ error. exit_status result ≢ 0) }
{
    let file = JsonText(name);
    match accepted {
        Ok(_) if console.is_quiet => ExitCode::SUCCESS,
        Ok(bundle) => {
            let visits = bundle.visits();
            printed(
                rt,
                println!(rt; "{{\"file\":\"{file}\",\"visits\":{visits}}}"),
            )
        }
        Err(CommandError::Refused(_, code)) => {
            match println!(rt; "{{\"code\":\"{code}\",\"file\":\"{file}\"}}") {
                Ok(()) => ExitCode::from(1),
                Err(error) => printed(rt, Err(error)),
            }
        }
        Err(error) => failed(rt, console, error),
    }
}

/// Checks files, and prints `ok` and the number of tables and arrays entered for each that is
/// accepted, or with JSON an object for each in a line, with the error's name if the file is
/// refused. If there are several, each line begins with the file's name. That a file can't be read
/// is said on standard error.
///
/// The status is 0; 1 if a file is refused, with the error's name on standard error, or one of
/// several can't be read; 2 if the only file can't be read, and as soon as standard output can't be
/// written.
pub fn check<R: Files + Clock + AllocGlobal + Print + Eprint>(
    rt: &R,
    console: Console,
    asked: &AskedCheck<'_>,
) -> ExitCode {
    let console = console.quieted(asked.is_quiet);
    if asked.is_json {
        return each(
            rt,
            console,
            &asked.files,
            |name| checked_json(rt, console, name, accepted(rt, name)),
        );
    }
    match asked.files.as_slice() {
        [name] => check_only(rt, console, name),
        names => each(
            rt,
            console,
            names,
            |name| checked(rt, console, name, accepted(rt, name)),
        ),
    }
}
