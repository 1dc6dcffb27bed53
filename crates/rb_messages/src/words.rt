//! Words and lengths of strings.
use crate::units::{is_digit, is_letter};

/// Checks for a digit or a letter of a script that puts blanks between words.
fn is_word_unit(unit: u16) -> bool {
    is_letter(unit)
        || is_digit(unit)
        || matches!(unit, 0xC0..=0xD6 | 0xD8..=0xF6 | 0xF8..=0x24F | 0x370..=0x37D | 0x37F..=0x587)
}

fn is_word_at(text: &[u16], at: Option<usize>) -> bool {
    match at.and_then(|at| text.get(at)) {
        Some(unit) => is_word_unit(*unit),
        None => false,
    }
}

/// Checks whether a text has a word between two offsets, and not as a part of a longer one.
fn has_word(text: &[u16], word: &[u16], first: usize, past: usize) -> bool {
    let is_there = match text.get(first..past) {
        Some(units) => units == word,
        None => false,
    };
    let joins_before = is_word_at(text, Some(first)) && is_word_at(text, first.checked_sub(1));
    let joins_after = is_word_at(text, past.checked_sub(1)) && is_word_at(text, Some(past));
    is_there && !joins_before && !joins_after
}

/// Returns the first unit at which a text has a word, or several with blanks, and not as a part of
/// a longer word. Capitals count. An empty word is nowhere.
pub fn find_word(text: &[u16], word: &[u16]) -> Option<usize> {
    let first = word.first()?;
    for (at, unit) in text.iter().enumerate() {
        if unit == first && has_word(text, word, at, at.saturating_add(word.len())) {
            return Some(at);
        }
    }
    None
}

/// Counts the characters of a text: a pair of surrogates is one.
pub fn character_count(text: &[u16]) -> usize {
    let mut count: usize = 0;
    for unit in text {
        if !matches!(*unit, 0xDC00..=0xDFFF) {
            count = count.saturating_add(1);
        }
    }
    count
}
