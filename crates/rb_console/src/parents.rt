//! Explicit parents, of a file or CLDR's.
ghost use Rattle.std.specs.Prelude.{IfOk, Some};
ghost use Rattle.rb_parents.specs.Family.{parent_of};
ghost use Rattle.rb_console.specs.Starting.{AreParentsFor, AreParentsIn};
ghost use Rattle.rb_asked.specs.declared.shared.ParentsSource.TheVariants as source;

use crate::cldr::CLDR_PARENTS;
use crate::error::StartError;
use crate::files::read_file;
use rb_asked::ParentsSource;
use rb_lexer::SourceKind;
use rb_parents::{Parents, ParentsFault};
use rb_parser::parse;
use std::alloc::Global;
use std::io::ErrorKind;
use std::rt::Files;

/// The place of an error in CLDR's parents.
const CLDR_OPTION: &str = "--cldr-parents";

/// Returns the error of a file that can't be read.
fn reading_error(file: &str, kind: ErrorKind) -> StartError<'_> {
    match kind {
        ErrorKind::OutOfMemory => StartError::Memory,
        kind => StartError::Unreadable(file, kind),
    }
}

/// Returns the error of a bundle text.
fn text_error(file: &str, kind: SourceKind) -> StartError<'_> {
    match kind {
        SourceKind::Memory => StartError::Memory,
        kind => StartError::Refused(file, kind.word()),
    }
}

/// Returns the error of explicit parents.
fn parents_error(file: &str, fault: ParentsFault) -> StartError<'_> {
    match fault {
        ParentsFault::Memory => StartError::Memory,
        fault => StartError::Refused(file, fault.word()),
    }
}

/// Reads a file.
pub fn bytes_of<'a, R: Files + AllocGlobal>(
    rt: &R,
    file: &'a str,
) -> Result<Vec<u8>, StartError<'a>> {
    match read_file(rt, file) {
        Ok(bytes) => Ok(bytes),
        Err(error) => Err(reading_error(file, error.kind())),
    }
}

/// Reads explicit parents from a bundle text.
fn parents_in<'a>(alloc: Global, file: &'a str, text: &[u8]) -> Result<Parents, StartError<'a>>
    ensures { IfOk result (λ p. AreParentsIn text.now (parent_of p)) }
{
    let source = match parse(alloc, text) {
        Ok(source) => source,
        Err(fault) => return Err(text_error(file, fault.kind)),
    };
    match Parents::read(alloc, &source.tree) {
        Ok(parents) => Ok(parents),
        Err(fault) => Err(parents_error(file, fault)),
    }
}

/// Reads the explicit parents of a file.
fn parents_in_file<'a, R: Files + AllocGlobal>(
    rt: &R,
    file: &'a str,
) -> Result<Parents, StartError<'a>>
    ensures { IfOk result (λ p. AreParentsFor (Some (source.File file.entry)) (parent_of p)) }
{
    match bytes_of(rt, file) {
        Ok(text) => parents_in(rt.alloc(), file, &text),
        Err(error) => Err(error),
    }
}

/// Reads explicit parents where they are, or returns none without a place. Returns the error of the
/// file, or of its text or parents.
pub fn parents_of<'a, R: Files + AllocGlobal>(
    rt: &R,
    source: Option<ParentsSource<'a>>,
) -> Result<Parents, StartError<'a>>
    ensures { IfOk result (λ p. AreParentsFor source.entry (parent_of p)) }
{
    match source {
        None => Ok(Parents::none(rt.alloc())),
        Some(ParentsSource::File(file)) => parents_in_file(rt, file),
        Some(ParentsSource::Cldr) => parents_in(rt.alloc(), CLDR_OPTION, CLDR_PARENTS.as_bytes()),
    }
}
