//! Makes the file of a bundle text, or of a JSON text.
ghost use Rattle.std.specs.Prelude.{◌≡◌, IfOk};
ghost use Rattle.std.specs.Process.{exit_status};
ghost use Rattle.rb_tree.specs.Parts.{Fits};
ghost use Rattle.rb_tree.specs.View.{view_of};

use rb_console::{CommandError, Console, finish};
use rb_format::FILE_LIMIT;
use rb_json_reader::{JSON_LIMIT, JsonFault, JsonFaultKind, read_tree};
use rb_tree::Tree;
use rb_writer::write;
use std::alloc::{AllocError, Global};
use std::io;
use std::process::ExitCode;

/// The language of a text that is compiled.
#[derive(Clone, Copy)]
pub(crate) enum Language {
    Bundle,
    /// JSON, whose file may have the flag *no fallback*.
    Json { no_fallback: bool },
}

impl Language {
    /// Returns the most bytes that are read of a text: one past the longest.
    pub(crate) fn most_read(self) -> u64 {
        match self {
            Language::Bundle => FILE_LIMIT as u64 + 1,
            Language::Json { .. } => JSON_LIMIT as u64 + 1,
        }
    }

    /// Returns the place in a text at which memory runs out.
    pub(crate) fn no_place(self) -> &'static str {
        match self {
            Language::Bundle => ":0",
            Language::Json { .. } => ":0:0",
        }
    }
}

/// The reason why a text isn't compiled.
#[derive(Debug, Drop)]
pub(crate) enum MakeError<'a> {
    /// A JSON text is refused.
    Json(&'a str, JsonFault),
    Other(CommandError<'a>),
}

/// Reports the place at which a JSON text is refused, the error and the path.
fn json_refused<R: Eprint>(rt: &R, console: Console, file: &str, fault: &JsonFault) -> ExitCode
    ensures { exit_status result ≡ 1 }
{
    let (word, line, column) = (fault.kind.word(), fault.line, fault.column);
    let (file, hint) = (console.on_stderr(file), console.hint(word));
    let gap = if fault.path.is_empty() { "" } else { " " };
    let path = console.on_stderr(fault.path.as_str());
    let _ = eprintln!(rt; "{file}:{line}:{column}: {word}{gap}{path}{hint}");
    ExitCode::from(1)
}

/// Reports an error on a line of standard error.
pub(crate) fn not_made<R: Eprint>(rt: &R, console: Console, error: MakeError<'_>) -> ExitCode {
    match error {
        MakeError::Json(file, fault) => json_refused(rt, console, file, &fault),
        MakeError::Other(error) => finish(rt, console, error),
    }
}

/// Makes the error of a JSON text for which memory runs out.
fn out_of_memory<'a>(alloc: Global, input: &'a str) -> MakeError<'a> {
    let fault = JsonFault {
        kind: JsonFaultKind::Memory,
        line: 0,
        column: 0,
        path: String::new(alloc),
    };
    MakeError::Json(input, fault)
}

/// Reads the tree of a JSON text.
fn tree_of<'a>(alloc: Global, input: &'a str, json: &[u8]) -> Result<Tree, MakeError<'a>>
    ensures { IfOk result (λ t. Fits (view_of t)) }
{
    match read_tree(alloc, json) {
        Ok(tree) => Ok(tree),
        Err(fault) => Err(MakeError::Json(input, fault)),
    }
}

/// Writes the file of a tree, without spare capacity.
fn file_of_tree(alloc: Global, tree: &Tree, no_fallback: bool) -> Result<Vec<u8>, AllocError>
    requires { Fits (view_of tree.now) }
{
    let mut file = write(alloc, tree, no_fallback)?;
    file.shrink_to_fit();
    Ok(file)
}

fn file_of_json<'a>(
    alloc: Global,
    input: &'a str,
    json: &[u8],
    no_fallback: bool,
) -> Result<Vec<u8>, MakeError<'a>> {
    let tree = tree_of(alloc, input, json)?;
    match file_of_tree(alloc, &tree, no_fallback) {
        Ok(file) => Ok(file),
        Err(_) => Err(out_of_memory(alloc, input)),
    }
}

fn file_of_text<'a>(alloc: Global, input: &'a str, text: &[u8]) -> Result<Vec<u8>, MakeError<'a>> {
    match rb_compiler::compile(alloc, text) {
        Ok(file) => Ok(file),
        Err(fault) => Err(MakeError::Other(CommandError::TextRefused(input, fault))),
    }
}

/// Makes the file of a text that was read from `input`.
pub(crate) fn file_of<'a>(
    alloc: Global,
    language: Language,
    input: &'a str,
    text: io::Result<Vec<u8>>,
) -> Result<Vec<u8>, MakeError<'a>> {
    let text = match text {
        Ok(text) => text,
        Err(error) => {
            let error = CommandError::Unread(input, language.no_place(), error.kind());
            return Err(MakeError::Other(error));
        }
    };
    match language {
        Language::Bundle => file_of_text(alloc, input, &text),
        Language::Json { no_fallback } => file_of_json(alloc, input, &text, no_fallback),
    }
}
