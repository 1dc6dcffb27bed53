use crate::bundle_commands::{coverage, lines, look};
use crate::description::Description;
use crate::file_commands::{check, compile, diff, get, json, text};
use crate::serving::serve;
use crate::text_commands::{explain, fmt, init, lint};
use clap::Command;
use std::alloc::{AllocError, Global};

const HELP: &str = "\
Example:
  resb compile de.txt de.res

Status:
  0  the command succeeded
  1  a text, a file or a path is refused, bundles differ (diff), a text would change (fmt --check),
     serving ended early, or out of memory
  2  the command line is invalid, or a file or standard output can't be read or written

Errors are printed to standard error, a line each. 'resb help COMMAND' says more of a command.";

/// The names of the commands, in the order of the help.
const NAMES: [&str; 14] = [
    "compile", "check", "get", "lint", "fmt", "coverage", "init", "explain", "lines", "look",
    "text", "json", "diff", "serve",
];

/// Returns the description of a command. Each comes from a separate function, as the time to prove a
/// function grows with the square of the table that it names.
fn description_of(name: &str) -> Option<Description> {
    Some(match name {
        "compile" => compile(),
        "check" => check(),
        "get" => get(),
        "lint" => lint(),
        "fmt" => fmt(),
        "coverage" => coverage(),
        "init" => init(),
        "explain" => explain(),
        "lines" => lines(),
        "look" => look(),
        "text" => text(),
        "json" => json(),
        "diff" => diff(),
        "serve" => serve(),
        _ => return None,
    })
}

fn bare<'a>(alloc: Global) -> Result<Command<'a>, AllocError> {
    Ok(
        Command::new(alloc, "resb")
            .bin_name("resb")?
            .version("1.1.0")
            .about("Compiles, checks, reads and serves ICU resource bundles")
            .after_help(HELP)
            .subcommand_required(true),
    )
}

/// Makes the command line of some of the commands.
fn with_commands<'a>(alloc: Global, names: &[&str]) -> Result<Command<'a>, AllocError> {
    let mut made = Vec::new(alloc);
    for name in names {
        if let Some(description) = description_of(name) {
            made.push(description.made(alloc)?)?;
        }
    }
    bare(alloc)?.subcommands(made)
}

/// Makes only the command that a command line can enter, given its first word after the program's
/// name, or all commands if the word is none. That command accepts and rejects the same as among
/// all; making all takes longer than most commands run.
pub fn commands_for<'a>(alloc: Global, word: Option<&str>) -> Result<Command<'a>, AllocError> {
    match word {
        Some(word) if NAMES.contains(&word) => with_commands(alloc, &[word]),
        _ => with_commands(alloc, &NAMES),
    }
}
