//! Texts about something that has a name.
use std::fmt;

/// Returns a stored text.
pub(crate) fn shown(bytes: &[u8]) -> &str {
    str::from_utf8(bytes).unwrap_or("?")
}

/// Writes a text with a name in place of its `*`.
pub(crate) fn write_named<W: fmt::Write>(
    f: &mut fmt::Formatter<W>,
    text: &str,
    name: &str,
) -> fmt::Result {
    match text.split_once('*') {
        Some((before, after)) => write!(f, "{before}{name}{after}"),
        None => f.write_str(text),
    }
}
