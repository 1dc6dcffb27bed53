//! `resb fmt`.
use crate::difference::difference;
use rb_asked::AskedFormat;
use rb_console::{
    CommandError, Console, ShownName, allocated, each, failed, print_bytes, printed, read_text,
    replace_text,
};
use rb_layout::{FormatFault, Style, format_in};
use rb_lexer::{SourceFault, SourceKind};
use rb_project::{Modules, Section, names_of, open_project, texts_of};
use std::alloc::{AllocError, Global};
use std::io;
use std::process::ExitCode;
use std::random::RandomSource;
use std::rt::{Clock, Files};

/// The way to treat a text that formatting changes.
#[derive(Clone, Copy, PartialEq, Eq)]
enum FormatMode {
    /// It is replaced, or printed if it came from standard input.
    Write,
    /// Its name is printed.
    Check,
    /// The difference is printed.
    Difference,
}

/// Returns the way that is asked for.
fn mode_of(asked: &AskedFormat<'_>) -> FormatMode {
    match (asked.is_diff, asked.is_check) {
        (true, _) => FormatMode::Difference,
        (false, true) => FormatMode::Check,
        (false, false) => FormatMode::Write,
    }
}

/// Returns the error of a command for that of formatting a text.
fn command_error(name: &str, fault: FormatFault) -> CommandError<'_> {
    let (kind, line) = match fault {
        FormatFault::Refused(fault) => return CommandError::TextRefused(name, fault),
        FormatFault::Differs => return CommandError::BadOutput("the formatted text differs", name),
        FormatFault::TooLarge => (SourceKind::TooLarge, 1),
        FormatFault::Memory => (SourceKind::Memory, 0),
    };
    CommandError::TextRefused(name, SourceFault { kind, line })
}

/// Returns the status of a text that isn't formatted, once that is printed.
fn unformatted<R: Eprint>(rt: &R, written: io::Result<()>) -> ExitCode {
    let status = printed(rt, written);
    if status == ExitCode::SUCCESS {
        ExitCode::from(1)
    } else {
        status
    }
}

/// Replaces a text by the formatted one, and prints its name.
fn replace<R: Files + RandomSource + AllocGlobal + Print + Eprint>(
    rt: &R,
    console: Console,
    name: &str,
    text: &[u8],
    formatted: &[u8],
) -> ExitCode {
    match replace_text(rt, name, text, formatted) {
        Ok(true) if console.is_quiet => ExitCode::SUCCESS,
        Ok(true) => {
            let name = console.on_stdout(name);
            printed(rt, println!(rt; "{name}: formatted"))
        }
        Ok(false) => {
            let reason = "the text changed while it was formatted";
            failed(rt, console, CommandError::BadOutput(reason, name))
        }
        Err(error) => failed(rt, console, CommandError::Unwritten(name, error.kind())),
    }
}

/// Returns the difference of a text and the formatted one, with the lines that name the text.
fn named_difference(
    alloc: Global,
    name: ShownName<'_>,
    text: &[u8],
    formatted: &[u8],
) -> Result<(String, Vec<u8>), AllocError> {
    let head = format!(in alloc; "--- {name}\n+++ {name}\n")?;
    let lines = difference(alloc, text, formatted)?;
    Ok((head, lines))
}

/// Prints the difference of a text and the formatted one.
fn print_difference<R: AllocGlobal + Print + Eprint>(
    rt: &R,
    console: Console,
    name: &str,
    text: &[u8],
    formatted: &[u8],
) -> ExitCode {
    let shown = console.on_stdout(name);
    let Ok((head, lines)) = named_difference(rt.alloc(), shown, text, formatted) else {
        return failed(rt, console, command_error(name, FormatFault::Memory));
    };
    if let Err(error) = rt.write_all(head.as_bytes()) {
        return printed(rt, Err(error));
    }
    unformatted(rt, print_bytes(rt, console, &lines))
}

/// Does with a text and the formatted one what the mode says.
fn finish_one<R: Files + RandomSource + AllocGlobal + Print + Eprint>(
    rt: &R,
    console: Console,
    mode: FormatMode,
    name: &str,
    text: &[u8],
    formatted: &[u8],
) -> ExitCode {
    if mode == FormatMode::Write && name == "-" {
        return printed(rt, print_bytes(rt, console, formatted));
    }
    if text == formatted {
        return ExitCode::SUCCESS;
    }
    match mode {
        FormatMode::Write => replace(rt, console, name, text, formatted),
        FormatMode::Check => {
            let name = console.on_stdout(name);
            unformatted(rt, println!(rt; "{name}"))
        }
        FormatMode::Difference => print_difference(rt, console, name, text, formatted),
    }
}

/// Formats one text.
fn format_one<R: Files + RandomSource + Input + AllocGlobal + Print + Eprint>(
    rt: &R,
    console: Console,
    (mode, style): (FormatMode, Style),
    name: &str,
) -> ExitCode {
    let text = match read_text(rt, name) {
        Ok(text) => text,
        Err(error) => {
            return failed(rt, console, CommandError::Unread(name, ":0", error.kind()));
        }
    };
    match format_in(rt.alloc(), &text, style) {
        Ok(formatted) => finish_one(rt, console, mode, name, &text, &formatted),
        Err(fault) => failed(rt, console, command_error(name, fault)),
    }
}

/// Returns the style that the settings of a project ask for, by their table of it.
fn style_of(section: Section<'_>) -> Style {
    let standard = Style::standard();
    Style {
        indent: section
            .number("indent")
            .map_or(standard.indent, |n| n as usize),
        width: section
            .number("width")
            .map_or(standard.width, |n| n as usize),
    }
}

/// Formats the texts of a command in its project. Returns the status of the command also if the
/// settings are refused, or a folder has no texts, once that is reported.
fn format_project<R: Files + RandomSource + Clock + Input + AllocGlobal + Print + Eprint>(
    rt: &R,
    console: Console,
    asked: &AskedFormat<'_>,
) -> Result<ExitCode, ExitCode> {
    let project = open_project(rt, console, asked.config, &[])?;
    let modules = allocated(rt, console, Modules::of(rt.alloc(), &project))?;
    let texts = texts_of(rt, console, &modules, &asked.texts)?;
    let names = allocated(rt, console, names_of(rt.alloc(), &texts))?;
    let (mode, style) = (mode_of(asked), style_of(project.settings.section("fmt")));
    Ok(each(
        rt,
        console,
        &names,
        |name| format_one(rt, console, (mode, style), name),
    ))
}

/// Formats each bundle text in place, or does with those that formatting changes what the mode
/// says. A text `-` is standard input, and is printed formatted. A text that is formatted already
/// is left alone, and so is one with an error, which is a line like that of `compile`; the other
/// texts are formatted. A file is written beside its place and renamed, or in place if it would
/// else lose its owner, its group or a further name. A link leads to the file that is replaced, and
/// a file that changed since it was read is left alone. A folder stands for the texts of its
/// modules, and the settings of the project choose the style.
///
/// The status is 0; 1 if a text is refused, can't be read or written, or in another mode than
/// `Write` would change; 2 if the settings are refused or a folder has no text of a module, and
/// as soon as standard output can't be written.
pub fn format_all<R: Files + RandomSource + Clock + Input + AllocGlobal + Print + Eprint>(
    rt: &R,
    console: Console,
    asked: &AskedFormat<'_>,
) -> ExitCode {
    match format_project(rt, console.quieted(asked.is_quiet), asked) {
        Ok(status) | Err(status) => status,
    }
}
