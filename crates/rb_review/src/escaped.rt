//! Texts as other formats write them.
use rb_console::Console;
use std::fmt;

/// A file's name as a relative reference of a URI.
#[derive(Clone, Copy)]
pub(crate) struct UriText<'a>(pub(crate) &'a str);

impl<'a> fmt::Display for UriText<'a> {
    fn fmt<W: fmt::Write>(&self, f: &mut fmt::Formatter<W>) -> fmt::Result {
        for byte in self.0.as_bytes() {
            if byte.is_ascii_alphanumeric() || b"-._~/".contains(byte) {
                f.write_char(char::from(*byte))?;
            } else {
                let code = *byte;
                write!(f, "%{code:02X}")?;
            }
        }
        Ok(())
    }
}

/// A text in a workflow command of GitHub: a message, or the value of a property. On a terminal,
/// what it acts on is escaped.
#[derive(Clone, Copy)]
pub(crate) struct GitHubText<'a> {
    pub(crate) text: &'a str,
    pub(crate) is_property: bool,
    pub(crate) console: Console,
}

impl<'a> GitHubText<'a> {
    /// Returns the escape of a character that a workflow command can't have as it is.
    fn escape(&self, c: char) -> Option<&'static str> {
        match c {
            '%' => Some("%25"),
            '\r' => Some("%0D"),
            '\n' => Some("%0A"),
            ':' if self.is_property => Some("%3A"),
            ',' if self.is_property => Some("%2C"),
            _ => None,
        }
    }
}

impl<'a> fmt::Display for GitHubText<'a> {
    fn fmt<W: fmt::Write>(&self, f: &mut fmt::Formatter<W>) -> fmt::Result {
        for c in self.text.chars() {
            match self.escape(c) {
                Some(escape) => f.write_str(escape)?,
                None => write!(f, "{}", self.console.char_on_stdout(c))?,
            }
        }
        Ok(())
    }
}
