//! `resb compile`.
use crate::making::{Language, MakeError, file_of, not_made};
use rb_asked::{AskedCompile, Compiling};
use rb_console::{
    CommandError, Console, Decision, Output, Wanted, are_same_file, finish, output_of, print_bytes,
    printed, read_input_at_most, write_output,
};
use std::io;
use std::process::ExitCode;
use std::random::RandomSource;
use std::rt::Files;

/// The name under which the metadata of standard input are read.
const STANDARD_INPUT: &str = "/dev/stdin";

/// The reason why a file is refused that exists and is no bundle.
const FOREIGN: &str = "OUT isn't a bundle file, and --force isn't given";

/// Returns the language of the texts.
pub(crate) fn language_of(how: Compiling) -> Language {
    if how.is_json {
        Language::Json {
            no_fallback: how.no_fallback,
        }
    } else {
        Language::Bundle
    }
}

/// Decides how the file `output` is written. Refuses a bundle text, one of the texts that are read,
/// a file that is no bundle, unless that is wanted, and with JSON a JSON text by its name.
pub(crate) fn chosen_output<'a, R: Files + AllocGlobal>(
    rt: &R,
    how: Compiling,
    output: &'a str,
    is_input: bool,
) -> Result<Output, CommandError<'a>> {
    if how.is_json && output.ends_with(".json") {
        return Err(CommandError::BadOutput("OUT is a JSON text", output));
    }
    let wanted = Wanted {
        is_input,
        is_forced: how.is_forced,
    };
    let chosen = output_of(rt, output, wanted);
    match chosen.decision {
        Decision::RefuseText => Err(CommandError::BadOutput("OUT is a bundle text", output)),
        Decision::RefuseInput => Err(CommandError::BadOutput("OUT is IN", output)),
        Decision::RefuseForeign => Err(CommandError::BadOutput(FOREIGN, output)),
        _ => Ok(chosen),
    }
}

/// Compiles the text `input`, which was read, to the file `output`, as `chosen` says, and returns
/// the file's length.
pub(crate) fn compile_to<'a, R: Files + RandomSource + AllocGlobal>(
    rt: &R,
    language: Language,
    (input, text): (&'a str, io::Result<Vec<u8>>),
    (output, chosen): (&'a str, &Output),
) -> Result<usize, MakeError<'a>> {
    let file = file_of(rt.alloc(), language, input, text)?;
    match write_output(rt, chosen, &file) {
        Ok(()) => Ok(file.len()),
        Err(error) => Err(MakeError::Other(CommandError::Unwritten(output, error.kind()))),
    }
}

/// Compiles the text `input`, which was read, to standard output, and prints nothing else.
fn print_compiled<R: AllocGlobal + Print + Eprint>(
    rt: &R,
    console: Console,
    language: Language,
    input: &str,
    text: io::Result<Vec<u8>>,
) -> ExitCode {
    match file_of(rt.alloc(), language, input, text) {
        Ok(file) => printed(rt, print_bytes(rt, console, &file)),
        Err(error) => not_made(rt, console, error),
    }
}

/// Decides how the output is written, or returns None if it is standard output.
fn output_asked<'a, R: Files + AllocGlobal>(
    rt: &R,
    asked: &AskedCompile<'a>,
) -> Result<Option<Output>, CommandError<'a>> {
    if asked.output == "-" {
        return Ok(None);
    }
    let source = if asked.input == "-" {
        STANDARD_INPUT
    } else {
        asked.input
    };
    let is_input = are_same_file(rt, source, asked.output);
    let chosen = chosen_output(rt, asked.how, asked.output, is_input)?;
    if chosen.decision == Decision::Print {
        return Ok(None);
    }
    Ok(Some(chosen))
}

/// Compiles a text to a file, and prints the file's length. The text is compiled before anything is
/// written. The status is 0; 1 if the text is refused, with its line and the fault's name on
/// standard error, or out of memory; 2 if the output is a bundle text by its name (`.txt`), the
/// text itself or a file that is no bundle, and if a file or standard output can't be read or
/// written. With JSON the text has the form of `resb json` (docs/JSON.md), errors have a line, a
/// column and a JSON pointer, and the output isn't a JSON text by its name (`.json`), either.
///
/// An ordinary file is written beside its place and renamed, so an older one stays until the new
/// one is whole, and stays if that can't be written. A link leads to the file that is replaced; it
/// stays a link. If the output is standard output, only the file is written there, as to `-`.
pub fn compile<R: Files + RandomSource + Input + AllocGlobal + Print + Eprint>(
    rt: &R,
    console: Console,
    asked: &AskedCompile<'_>,
) -> ExitCode {
    let console = console.quieted(asked.how.is_quiet);
    let language = language_of(asked.how);
    let chosen = match output_asked(rt, asked) {
        Ok(chosen) => chosen,
        Err(error) => return finish(rt, console, error),
    };
    let text = read_input_at_most(rt, asked.input, language.most_read());
    let Some(chosen) = chosen else {
        return print_compiled(rt, console, language, asked.input, text);
    };
    match compile_to(rt, language, (asked.input, text), (asked.output, &chosen)) {
        Ok(_) if console.is_quiet => ExitCode::SUCCESS,
        Ok(count) => printed(rt, println!(rt; "wrote {count} bytes")),
        Err(error) => not_made(rt, console, error),
    }
}
