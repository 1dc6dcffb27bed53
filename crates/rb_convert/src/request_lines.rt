//! `resb lines`: request lines that install files.
use crate::making::{Language, MakeError, file_of, not_made};
use json::Writer;
use rb_asked::AskedLines;
use rb_console::{
    CommandError, Console, EscapingWriter, Form, Given, Refusal, StartError, all_given, is_text,
    made_of_each, not_started_on, printed, read_at_most, refused_on,
};
use rb_format::is_short_enough;
use rb_lexer::Tokens;
use rb_packages::App;
use std::alloc::{AllocError, Global};
use std::io;
use std::io::{BufWriter, Write};
use std::process::ExitCode;
use std::rt::Files;

/// Returns the member `op` of the lines, or None if `--op` is no change.
fn op_of(op: Option<&str>) -> Option<&'static str> {
    match op {
        None | Some("install") => Some("install"),
        Some("replace") => Some("replace"),
        Some(_) => None,
    }
}

/// Refuses a text that isn't UTF-8, which a line can't have, and a text or a file that is too long
/// for any server.
fn refuse_content(alloc: Global, file: &str, bytes: &[u8]) -> Result<(), Refusal> {
    if !is_text(file) {
        return if is_short_enough(bytes) {
            Ok(())
        } else {
            Err(Refusal::TooLong)
        };
    }
    if str::from_utf8(bytes).is_ok() && bytes.len() <= rb_lexer::SOURCE_LIMIT {
        return Ok(());
    }
    match Tokens::of(alloc, bytes) {
        Ok(_) => Ok(()),
        Err(fault) => Err(Refusal::Text(fault)),
    }
}

/// The language of a JSON text, as lines without `no_fallback` have it.
const JSON: Language = Language::Json { no_fallback: false };

/// Compiles JSON texts, up to the first that is refused.
fn json_files<'a, R: Files + AllocGlobal>(
    rt: &R,
    bundles: &[Given<'a>],
) -> Result<Vec<Vec<u8>>, MakeError<'a>> {
    let mut files = Vec::new(rt.alloc());
    for bundle in bundles {
        let json = read_at_most(rt, bundle.file, JSON.most_read());
        let file = file_of(rt.alloc(), JSON, bundle.file, json)?;
        if files.push(file).is_err() {
            return Err(MakeError::Other(CommandError::NotStarted(StartError::Memory)));
        }
    }
    Ok(files)
}

/// Reads the files, or compiles them if they are JSON texts.
fn contents<'a, R: Files + AllocGlobal>(
    rt: &R,
    is_json: bool,
    bundles: &[Given<'a>],
) -> Result<Vec<Vec<u8>>, MakeError<'a>> {
    if is_json {
        return json_files(rt, bundles);
    }
    let alloc = rt.alloc();
    let read = made_of_each(rt, bundles, |file, bytes| {
        refuse_content(alloc, file, &bytes)?;
        Ok(bytes)
    });
    match read {
        Ok(contents) => Ok(contents),
        Err(error) => Err(MakeError::Other(error)),
    }
}

/// The member of a line that has a bundle: `text`, or `file` in hexadecimal.
fn put_content(
    out: &mut Writer,
    alloc: Global,
    is_text: bool,
    bytes: &[u8],
) -> Result<(), AllocError> {
    match str::from_utf8(bytes) {
        Ok(text) if is_text => {
            out.key("text")?;
            out.string(text)
        }
        _ => {
            let digits = hex::encode(alloc, bytes)?;
            out.key("file")?;
            out.string(digits.as_str())
        }
    }
}

/// Makes the line that installs or replaces a bundle.
fn line_of(
    alloc: Global,
    (op, app): (&str, &str),
    bundle: &Given<'_>,
    is_text: bool,
    bytes: &[u8],
) -> Result<Vec<u8>, AllocError> {
    let mut out = Writer::new(Vec::new(alloc));
    out.begin_object()?;
    out.key("op")?;
    out.string(op)?;
    out.key("app")?;
    out.string(app)?;
    out.key("locale")?;
    out.string(bundle.locale)?;
    put_content(&mut out, alloc, is_text, bytes)?;
    out.end_object()?;
    let mut line = out.into_inner();
    line.push(b'\n')?;
    Ok(line)
}

/// Writes the lines, each made when it is written.
fn write_lines<R: AllocGlobal + Print>(
    rt: &R,
    console: Console,
    (op, asked): (&str, &AskedLines<'_>),
    bundles: &[Given<'_>],
    contents: &[Vec<u8>],
) -> io::Result<()> {
    let alloc = rt.alloc();
    let buffer = BufWriter::new(alloc, io::writer(rt))?;
    let mut out = EscapingWriter::new(buffer, console.escapes());
    for (bundle, bytes) in bundles.iter().zip(contents) {
        let is_text = !asked.is_json && is_text(bundle.file);
        let line = line_of(alloc, (op, asked.app), bundle, is_text, bytes)?;
        out.write_all(&line)?;
    }
    out.flush()
}

/// Prints the lines, and returns the status.
fn print_lines<R: AllocGlobal + Print + Eprint>(
    rt: &R,
    console: Console,
    (op, asked): (&str, &AskedLines<'_>),
    bundles: &[Given<'_>],
    contents: &[Vec<u8>],
) -> ExitCode {
    match write_lines(rt, console, (op, asked), bundles, contents) {
        Ok(()) => ExitCode::SUCCESS,
        Err(error) if error.kind() == io::ErrorKind::OutOfMemory => {
            not_started_on(rt, console, StartError::Memory)
        }
        Err(error) => printed(rt, Err(error)),
    }
}

/// Prints a request line for each file, which installs its bundle for an application, or replaces
/// one: by its text if the file's name ends in `.txt`, otherwise as a file. JSON texts
/// (docs/JSON.md) are compiled. An argument is `LOCALE=FILE`, or `FILE`, whose stem is the locale.
///
/// All files are read before anything is printed. The status is 0; 1 if `app` is no application's
/// name, a text isn't UTF-8, a text or a file is too long, a JSON text is refused, or memory runs
/// out, with the error's name; 2 for another change than `install` and `replace`, an argument
/// without a locale's name, and if a file or standard output can't be read or written.
pub fn lines<R: Files + AllocGlobal + Print + Eprint>(
    rt: &R,
    console: Console,
    asked: &AskedLines<'_>,
) -> ExitCode {
    let Some(op) = op_of(asked.op) else {
        let _ = eprintln!(rt; "resb: --op is install or replace");
        return ExitCode::from(2);
    };
    if let Err(fault) = App::read(asked.app.as_bytes()) {
        return refused_on(rt, console, asked.app, fault.word());
    }
    let bundles = match all_given(rt.alloc(), Form::ByStem, &asked.files) {
        Ok(bundles) => bundles,
        Err(error) => return not_started_on(rt, console, error),
    };
    match contents(rt, asked.is_json, &bundles) {
        Ok(contents) => print_lines(rt, console, (op, asked), &bundles, &contents),
        Err(error) => not_made(rt, console, error),
    }
}
