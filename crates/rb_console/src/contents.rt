//! Reads the files of bundles, and transforms each.
use crate::error::{CommandError, StartError};
use crate::given::{Given, read_given};
use rb_lexer::SourceFault;
use std::rt::Files;

/// The reason why a file's contents are refused.
#[derive(Clone, Copy, Debug)]
pub enum Refusal {
    /// A bundle text is refused, at a line.
    Text(SourceFault),
    /// A file is too long for any server.
    TooLong,
}

impl Refusal {
    /// Returns the error of a file.
    fn of(self, file: &str) -> CommandError<'_> {
        match self {
            Refusal::Text(fault) => CommandError::TextRefused(file, fault),
            Refusal::TooLong => CommandError::Refused(file, "TooLong"),
        }
    }
}

/// Applies `make` to each bundle's file, by its name and its bytes, in order. A file is read when
/// those before it are done.
pub fn made_of_each<'a, R: Files + AllocGlobal, F>(
    rt: &R,
    bundles: &[Given<'a>],
    make: F,
) -> Result<Vec<Vec<u8>>, CommandError<'a>>
where
    F: Fn(&str, Vec<u8>) -> Result<Vec<u8>, Refusal>,
    requires { F.IsAlwaysCallable make }
{
    let mut made = Vec::new(rt.alloc());
    for bundle in bundles {
        let bytes = read_given(rt, bundle.file)?;
        let content = match make(bundle.file, bytes) {
            Ok(content) => content,
            Err(refusal) => return Err(refusal.of(bundle.file)),
        };
        if made.push(content).is_err() {
            return Err(CommandError::NotStarted(StartError::Memory));
        }
    }
    Ok(made)
}
