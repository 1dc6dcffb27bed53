//! The punctuation that ends a string.
use crate::units::{Class, count_of, past_last};

const STOP: u16 = 0x2E;

/// Punctuation that ends a string, in any script.
#[derive(Clone, Copy, PartialEq, Eq)]
pub enum Ending {
    Stop,
    Colon,
    Ellipsis,
    Question,
    Exclamation,
}

impl Ending {
    /// Returns the punctuation as English writes it.
    pub fn shown(self) -> &'static str {
        match self {
            Ending::Stop => ".",
            Ending::Colon => ":",
            Ending::Ellipsis => "…",
            Ending::Question => "?",
            Ending::Exclamation => "!",
        }
    }
}

/// Returns the punctuation that a unit is: in ASCII, of full width, or that of a script.
fn ending_of(unit: u16) -> Option<Ending> {
    match unit {
        STOP | 0xFF0E | 0x3002 | 0xFF61 => Some(Ending::Stop),
        // Armenian, Arabic (Urdu), Devanagari, Burmese, Ethiopic and Khmer
        0x0589 | 0x06D4 | 0x0964 | 0x104B | 0x1362 | 0x17D4 => Some(Ending::Stop),
        0x3A | 0xFF1A | 0x1365 | 0x1366 => Some(Ending::Colon),
        0x2026 | 0x22EF => Some(Ending::Ellipsis),
        // also Greek, Arabic and Ethiopic
        0x3F | 0xFF1F | 0x037E | 0x061F | 0x1367 => Some(Ending::Question),
        0x21 | 0xFF01 => Some(Ending::Exclamation),
        _ => None,
    }
}

/// Checks for a letter of a script whose sentences end without a full stop: Thai, Lao and Tibetan.
fn is_of_open_script(unit: u16) -> bool {
    matches!(unit, 0x0E01..=0x0FFF)
}

/// Returns a string up to its last unit that is neither a blank, a closing quote nor a bracket.
fn body(text: &[u16]) -> &[u16] {
    text.get(..past_last(text, Class::Body)).unwrap_or(&[])
}

/// Returns the punctuation that a string ends with, before blanks, quotes and brackets.
fn punctuation_at_end(text: &[u16]) -> Option<Ending> {
    let inside = body(text);
    if inside.ends_with(&[STOP, STOP]) {
        return Some(Ending::Ellipsis);
    }
    ending_of(*inside.last()?)
}

/// Checks whether a string may stand for one that ends with some punctuation.
fn ends_as(text: &[u16], wanted: Ending) -> bool {
    if let Some(found) = punctuation_at_end(text) {
        return found == wanted;
    }
    match (body(text).last(), wanted) {
        // Greek writes its question mark as a semicolon.
        (Some(last), Ending::Question) => *last == 0x3B,
        (Some(last), Ending::Stop) => is_of_open_script(*last),
        _ => false,
    }
}

/// Returns the punctuation that a string's source ends with, if the string ends with neither that
/// nor its peer in another script. A full stop after one word may be an abbreviation's.
pub fn lacking_ending(here: &[u16], source: &[u16]) -> Option<Ending> {
    let wanted = punctuation_at_end(source)?;
    let is_word = wanted == Ending::Stop && count_of(source, 0, Class::Ink) == source.len();
    if is_word || ends_as(here, wanted) {
        None
    } else {
        Some(wanted)
    }
}
