//! Shows a name that isn't UTF-8.
use crate::console::Console;
use std::fmt;

/// A name or an argument in a message: each byte that isn't UTF-8 as `\xff`, the text between as a
/// name.
#[derive(Clone, Copy)]
pub struct ShownBytes<'a> {
    pub bytes: &'a [u8],
    pub console: Console,
}

impl<'a> fmt::Display for ShownBytes<'a> {
    fn fmt<W: fmt::Write>(&self, f: &mut fmt::Formatter<W>) -> fmt::Result {
        for chunk in self.bytes.utf8_chunks() {
            write!(f, "{}", self.console.on_stderr(chunk.valid()))?;
            for byte in chunk.invalid() {
                write!(f, "\\x{byte:02x}")?;
            }
        }
        Ok(())
    }
}
