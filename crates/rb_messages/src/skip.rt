//! Finds the end of what begins at an offset of a text.
ghost use Rattle.std.specs.Prelude.{◌≤◌, length};

use crate::characters::{APOSTROPHE, is_letter, is_name, is_numeral, is_white};

/// Returns the offset after the white space at an offset.
pub(crate) fn skip_white(text: &[u16], at: usize) -> usize
    requires { at ≤ length text.now }
    ensures from { at ≤ result }
    ensures within { result ≤ length text.now }
{
    match text[at..].iter().position(|unit| !is_white(*unit)) {
        Some(count) => at + count,
        None => text.len(),
    }
}

/// Returns the offset after the name or selector at an offset.
pub(crate) fn skip_name(text: &[u16], at: usize) -> usize
    requires { at ≤ length text.now }
    ensures from { at ≤ result }
    ensures within { result ≤ length text.now }
{
    match text[at..].iter().position(|unit| !is_name(*unit)) {
        Some(count) => at + count,
        None => text.len(),
    }
}

/// Returns the offset after the letters at an offset.
pub(crate) fn skip_letters(text: &[u16], at: usize) -> usize
    requires { at ≤ length text.now }
    ensures from { at ≤ result }
    ensures within { result ≤ length text.now }
{
    match text[at..].iter().position(|unit| !is_letter(*unit)) {
        Some(count) => at + count,
        None => text.len(),
    }
}

/// Returns the offset after the characters of a number at an offset.
pub(crate) fn skip_numerals(text: &[u16], at: usize) -> usize
    requires { at ≤ length text.now }
    ensures from { at ≤ result }
    ensures within { result ≤ length text.now }
{
    match text[at..].iter().position(|unit| !is_numeral(*unit)) {
        Some(count) => at + count,
        None => text.len(),
    }
}

/// Returns the offset of the next apostrophe, or the end of the text.
pub(crate) fn find_apostrophe(text: &[u16], at: usize) -> usize
    requires { at ≤ length text.now }
    ensures from { at ≤ result }
    ensures within { result ≤ length text.now }
{
    match text[at..].iter().position(|unit| *unit == APOSTROPHE) {
        Some(count) => at + count,
        None => text.len(),
    }
}

/// Returns the offset of the apostrophe that ends a quoted text, or the end of the text. Two apostrophes
/// are one in the quoted text.
pub(crate) fn find_quote_end(text: &[u16], from: usize) -> usize
    requires { from ≤ length text.now }
    ensures from { from ≤ result }
    ensures within { result ≤ length text.now }
{
    let mut at = find_apostrophe(text, from);
    while at + 1 < text.len() && text[at + 1] == APOSTROPHE {
        at = find_apostrophe(text, at + 2);
    }
    at
}
