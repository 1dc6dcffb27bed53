//! Reads texts and bundles.
use crate::error::CommandError;
use crate::files::{read_at_most, read_file};
use rb_format::FILE_LIMIT;
use rb_validator::{Bundle, accept};
use std::io;
use std::io::Read;
use std::rt::Files;

/// The file that standard input is, for commands that read it as one.
const STANDARD_INPUT: &str = "/dev/stdin";

/// Reads standard input, at most this many bytes.
fn read_input<R: Input + AllocGlobal>(rt: &R, most: u64) -> io::Result<Vec<u8>> {
    let mut bytes = Vec::new(rt.alloc());
    rt.reader().take(most).read_to_end(&mut bytes)?;
    Ok(bytes)
}

/// Reads at most this many bytes of a file, or of standard input if its name is `-`.
pub fn read_input_at_most<R: Files + Input + AllocGlobal>(
    rt: &R,
    input: &str,
    most: u64,
) -> io::Result<Vec<u8>> {
    if input == "-" {
        read_input(rt, most)
    } else {
        read_at_most(rt, input, most)
    }
}

/// Reads a bundle text, from standard input if its name is `-`.
pub fn read_text<R: Files + Input + AllocGlobal>(rt: &R, input: &str) -> io::Result<Vec<u8>> {
    read_input_at_most(rt, input, FILE_LIMIT as u64 + 1)
}

/// Reads the bundle in the file `name`, or on standard input if that is `-`. Errors: `Unread` if the
/// file can't be read, `Refused` with the code of `accept` if it is no bundle.
pub fn accepted<'a, R: Files + AllocGlobal>(
    rt: &R,
    name: &'a str,
) -> Result<Bundle, CommandError<'a>> {
    let file = if name == "-" { STANDARD_INPUT } else { name };
    let bytes = match read_file(rt, file) {
        Ok(bytes) => bytes,
        Err(error) => return Err(CommandError::Unread(name, "", error.kind())),
    };
    match accept(rt.alloc(), bytes) {
        Ok(bundle) => Ok(bundle),
        Err((fault, _)) => Err(CommandError::Refused(name, fault.word())),
    }
}
