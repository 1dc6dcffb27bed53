//! The command line of a program: what it asks for, and why none can be asked for.
use crate::raw_arguments::first_bad_argument;
use rb_arguments::{Asked, asked_by, commands_for};
use rb_console::{Console, ShownBytes, printed};
use std::io::{ErrorKind, IsTerminal};
use std::process::ExitCode;
use std::random::RandomSource;
use std::rt::{Clock, Env, Files};
use std::{env, io};

/// The commands of a program.
pub trait Commands {
    /// Runs a command, and returns its status.
    fn run<R>(&self, rt: &R, console: Console, asked: Asked<'_>) -> ExitCode
    where
        R: Files + RandomSource + Clock + AllocGlobal + Input + Print + Eprint + Env + Clone + Drop;
}

/// Prints to a terminal why a command line is refused, or the help that it asks for. The words are
/// parsed again as the terminal shows them, so that the message has no control character of theirs.
fn refuse_on_terminal<R: AllocGlobal + Print + Eprint>(
    rt: &R,
    console: Console,
    words: &[String],
) -> io::Result<ExitCode> {
    let alloc = rt.alloc();
    let mut shown = Vec::new(alloc);
    for word in words {
        shown.push(format!(in alloc; "{}", console.on_stderr(word))?)?;
    }
    let command = commands_for(alloc, shown.get(1).map(|word| word.as_str()))?;
    match command.try_get_matches_from(shown.as_slice()) {
        Ok(_) => Ok(ExitCode::from(2)),
        Err(error) => {
            error.print(rt)?;
            Ok(ExitCode::from(error.exit_code() as u8))
        }
    }
}

/// Returns what the words of a command line ask for, or the status after its help or its refusal is
/// printed.
fn asked_on<'a, R: AllocGlobal + Print + Eprint>(
    rt: &R,
    console: Console,
    words: &'a [String],
) -> io::Result<Result<Asked<'a>, ExitCode>> {
    let alloc = rt.alloc();
    let command = commands_for(alloc, words.get(1).map(|word| word.as_str()))?;
    let matches = match command.try_get_matches_from(words) {
        Ok(matches) => matches,
        Err(_) if console.is_terminal => return Ok(Err(refuse_on_terminal(rt, console, words)?)),
        Err(error) => {
            error.print(rt)?;
            return Ok(Err(ExitCode::from(error.exit_code() as u8)));
        }
    };
    Ok(asked_by(alloc, &matches)?.ok_or(ExitCode::from(2)))
}

/// Names the first argument that isn't UTF-8 on a line of standard error.
fn not_utf8<R: AllocGlobal + Eprint + Env>(rt: &R, console: Console) -> io::Result<()> {
    match first_bad_argument(rt) {
        Some(bytes) => {
            let bytes = bytes.as_slice();
            let argument = ShownBytes { bytes, console };
            eprintln!(rt; "bad argument: it isn't UTF-8: {argument}")
        }
        None => eprintln!(rt; "bad argument: it isn't UTF-8"),
    }
}

/// Says on a line of standard error why no command was run: out of memory, an argument that isn't
/// UTF-8, or a help that can't be written, of which nothing is said if its reader has ended. The
/// status is 1 after out of memory, and else 2.
fn not_run<R: AllocGlobal + Eprint + Env>(rt: &R, console: Console, error: io::Error) -> ExitCode {
    let (_, status) = match error.kind() {
        ErrorKind::OutOfMemory => (eprintln!(rt; "Memory"), 1),
        ErrorKind::InvalidData => (not_utf8(rt, console), 2),
        _ => return printed(rt, Err(error)),
    };
    ExitCode::from(status)
}

/// Reads the command line, and runs the command that it asks for.
fn run_words<C: Commands, R>(rt: &R, console: Console, commands: &C) -> io::Result<ExitCode>
where
    R: Files + RandomSource + Clock + AllocGlobal + Input + Print + Eprint + Env + Clone + Drop,
{
    let words: Vec<String> = env::args(rt)?.collect(rt.alloc())?;
    Ok(match asked_on(rt, console, &words)? {
        Ok(asked) => commands.run(rt, console, asked),
        Err(status) => status,
    })
}

/// Runs a program that has these commands.
pub fn run_program<C: Commands>(rt: HostRuntime, commands: &C) -> ExitCode {
    let console = Console {
        is_quiet: false,
        is_terminal: rt.stderr().is_terminal(),
        is_output_terminal: rt.stdout().is_terminal(),
    };
    match run_words(&rt, console, commands) {
        Ok(status) => status,
        Err(error) => not_run(&rt, console, error),
    }
}

/// Says that a program is a part of `resb` without the command. The status is 2.
pub fn lacking<R: Eprint>(rt: &R) -> ExitCode {
    let _ = eprintln!(rt; "resb: this program is a part of resb, and lacks the command");
    ExitCode::from(2)
}
