//! Finds the marks of a string.
use crate::mark::{Mark, MarkKind};
use crate::units::{
    Class, begins_with, count_of, is_among, is_blank, is_letter, is_name, is_one_of, past_last,
};
use std::alloc::{AllocError, Global};

const PERCENT: u16 = 0x25;

const DOLLAR: u16 = 0x24;

const LEFT_BRACE: u16 = 0x7B;

const RIGHT_BRACE: u16 = 0x7D;

const LESS: u16 = 0x3C;

const GREATER: u16 = 0x3E;

const AMPERSAND: u16 = 0x26;

/// The tags of HTML that texts have.
const TAGS: &str = "a abbr b big blockquote body br code dd div dl dt em font h1 h2 h3 h4 \
    hr html i img kbd li ol p pre q s small span strong sub sup table td th tr u ul";

const ENTITIES: &str = "lt gt amp quot";

const SCHEMES: &str = "http:// https:// ftp://";

/// Returns the length of a conversion of `printf`, or 0. A space is no flag here, as `50 % de` is a text.
fn conversion_length(text: &[u16]) -> usize {
    let mut at: usize = 1;
    let digits = count_of(text, at, Class::Digit);
    let is_numbered = digits > 0 && text.get(at.saturating_add(digits)) == Some(&DOLLAR);
    if is_numbered {
        at = at.saturating_add(digits).saturating_add(1);
    }
    at = at.saturating_add(count_of(text, at, Class::Flag));
    at = at.saturating_add(count_of(text, at, Class::Size));
    let is_conversion = match text.get(at) {
        Some(unit) => is_conversion_letter(*unit),
        None => false,
    };
    let past = at.saturating_add(1);
    let is_word = match text.get(past) {
        Some(unit) => is_letter(*unit),
        None => false,
    };
    if is_conversion && (is_numbered || !is_word) {
        past
    } else {
        0
    }
}

/// Checks for the letter that ends a conversion, such as `d` and `s`; `@` is Objective-C's.
fn is_conversion_letter(unit: u16) -> bool {
    is_among(unit, "diuoxXefgcs@")
}

/// Checks whether a name in braces may be a variable's: `${...}` is prose.
fn is_variable(inside: &[u16]) -> bool {
    match inside.first() {
        Some(first) => is_name(*first) && !matches!(*first, 0x2D | 0x2E),
        None => false,
    }
}

/// Returns the length of a variable such as `${name}`, or 0.
fn variable_length(text: &[u16]) -> usize {
    let inside = match text.get(2..) {
        Some(inside) if text.get(1) == Some(&LEFT_BRACE) => inside,
        _ => return 0,
    };
    let count = count_of(inside, 0, Class::Name);
    if is_variable(inside) && inside.get(count) == Some(&RIGHT_BRACE) {
        count.saturating_add(3)
    } else {
        0
    }
}

/// Returns the length of a tag of HTML up to its name's end, or 0: attributes are texts too.
fn tag_length(text: &[u16]) -> usize {
    let start: usize = if text.get(1) == Some(&0x2F) { 2 } else { 1 };
    let inside = text.get(start..).unwrap_or(&[]);
    let count = count_of(inside, 0, Class::Name);
    let name = inside.get(..count).unwrap_or(&[]);
    let is_ended = match inside.get(count) {
        Some(unit) => *unit == GREATER || *unit == 0x2F || is_blank(*unit),
        None => false,
    };
    if is_ended && is_one_of(name, TAGS) {
        start.saturating_add(count)
    } else {
        0
    }
}

/// Returns the length of an entity, such as `&lt;`, or 0.
fn entity_length(text: &[u16]) -> usize {
    let inside = text.get(1..).unwrap_or(&[]);
    let count = count_of(inside, 0, Class::Letter);
    let name = inside.get(..count).unwrap_or(&[]);
    if inside.get(count) == Some(&0x3B) && is_one_of(name, ENTITIES) {
        count.saturating_add(2)
    } else {
        0
    }
}

fn has_scheme(text: &[u16]) -> bool {
    for scheme in SCHEMES.split(' ') {
        if begins_with(text, scheme.as_bytes()) {
            return true;
        }
    }
    false
}

/// Returns the length of an address, without the punctuation after it, or 0.
fn address_length(text: &[u16]) -> usize {
    if !has_scheme(text) {
        return 0;
    }
    let whole = text.get(..count_of(text, 0, Class::Address)).unwrap_or(&[]);
    past_last(whole, Class::AddressEnd)
}

/// Returns the length of a number, with points and commas between its digits.
fn number_length(text: &[u16]) -> usize {
    let whole = text.get(..count_of(text, 0, Class::Numeral)).unwrap_or(&[]);
    past_last(whole, Class::Digit)
}

/// Returns the mark that a text begins with, and its length, or 0.
fn mark_at(text: &[u16], before: Option<u16>) -> (MarkKind, usize) {
    let Some(unit) = text.first().copied() else {
        return (MarkKind::Number, 0);
    };
    match unit {
        PERCENT if text.get(1) == Some(&PERCENT) => (MarkKind::Placeholder, 0),
        PERCENT if before == Some(PERCENT) => (MarkKind::Placeholder, 0),
        PERCENT => (MarkKind::Placeholder, conversion_length(text)),
        DOLLAR => (MarkKind::Placeholder, variable_length(text)),
        LESS => (MarkKind::Tag, tag_length(text)),
        AMPERSAND => (MarkKind::Tag, entity_length(text)),
        0x66 | 0x68 => (MarkKind::Address, address_length(text)),
        0x30..=0x39 if is_number_start(before) => (MarkKind::Number, number_length(text)),
        _ => (MarkKind::Number, 0),
    }
}

/// Checks whether a number may begin after a unit: not in a word, a name or an argument.
fn is_number_start(before: Option<u16>) -> bool {
    match before {
        Some(unit) => !is_name(unit)
            && !matches!(unit, LEFT_BRACE | 0x23 | 0x2C | 0x3A | 0x3D)
            && unit < 0x80,
        None => true,
    }
}

/// Returns the marks of a string, in its order. `Err` means out of memory.
pub fn marks_of(alloc: Global, text: &[u16]) -> Result<Vec<Mark>, AllocError> {
    let mut marks = Vec::new(alloc);
    let mut past = 0;
    let mut before = None;
    for (at, unit) in text.iter().enumerate() {
        if at >= past {
            let (kind, length) = mark_at(text.get(at..).unwrap_or(&[]), before);
            if length > 0 {
                past = at.saturating_add(length);
                marks.push(Mark {
                    kind,
                    first: at,
                    past,
                })?;
            }
        }
        before = Some(*unit);
    }
    Ok(marks)
}
