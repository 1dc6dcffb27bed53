//! Commands over many files.
ghost use Rattle.std.specs.Prelude.{◌≡◌};
ghost use Rattle.std.specs.Process.{exit_status};
ghost use Rattle.rb_console.specs.Status.{later_status};
ghost use Rattle.rb_console.specs.Each.{AreRun};

use crate::console::Console;
use crate::error::{CommandError, finish};
use crate::progress::Progress;
use std::process::ExitCode;
use std::rt::Clock;

/// Reports an error of one file of many.
pub fn failed<R: Eprint>(rt: &R, console: Console, error: CommandError<'_>) -> ExitCode
    ensures { exit_status result ≡ 1 }
{
    let _ = finish(rt, console, error);
    ExitCode::from(1)
}

/// Combines the statuses of files: the last one that isn't 0.
fn after(status: ExitCode, one: ExitCode) -> ExitCode
    ensures { exit_status result ≡ later_status (exit_status status) (exit_status one) }
{
    if one == ExitCode::SUCCESS {
        status
    } else {
        one
    }
}

/// Runs a command on each file in order, until a status is 2, and reports the progress. Returns the
/// last status that isn't 0.
pub fn each<R: Clock + Eprint, F>(rt: &R, console: Console, names: &[&str], run: F) -> ExitCode
where
    F: Fn(&str) -> ExitCode,
    requires { F.IsAlwaysCallable run }
    ensures { AreRun (λ name one. F.post run name one) names.now 0 (exit_status result) }
{
    let mut progress = Progress::new(rt, console, names.len());
    let mut status = ExitCode::SUCCESS;
    for name in names {
        progress.clear();
        status = after(status, run(name));
        if status == ExitCode::from(2) {
            return status;
        }
        progress.step();
    }
    progress.clear();
    status
}
