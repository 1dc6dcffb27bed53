//! Patterns of dates and numbers in messages, as ICU reads them.
use crate::units::{
    Class, begins_with, count_of, is_digit, is_letter, is_one_of, past_last, place_of,
};

/// A doubtful part of a pattern of a date or a number.
#[derive(Clone, Copy)]
pub enum PatternFault {
    /// `Y`, the year of weeks, without a week.
    WeekYear,
    /// `D`, the day of the year, beside a month.
    DayOfYear,
    /// `m`, minutes, in a pattern of a date without hours.
    Minutes,
    /// `M`, months, in a pattern of a time.
    Months,
    /// A letter that means nothing in a date.
    Letter(char),
    /// A comma, or a zero after `#`, behind the decimal point.
    Decimal,
}

/// The names of styles that are no patterns.
const NAMES: &str = "short medium long full integer currency percent";

/// Returns a style without the blanks around it.
fn trimmed(style: &[u16]) -> &[u16] {
    let blanks = count_of(style, 0, Class::Blank);
    style
        .get(blanks..past_last(style, Class::Ink))
        .unwrap_or(&[])
}

/// Checks whether a style is a name or a skeleton.
fn is_named(style: &[u16]) -> bool {
    style.is_empty() || begins_with(style, b"::") || is_one_of(style, NAMES)
}

/// Returns the bit of a letter, or 0.
fn bit_of(unit: u16) -> u64 {
    if is_letter(unit) {
        1u64 << (u64::from(unit) % 64)
    } else {
        0
    }
}

/// Returns the set of the letters of a pattern that aren't in apostrophes.
fn letters_of(pattern: &[u16]) -> u64 {
    let mut letters = 0u64;
    let mut is_quoted = false;
    for unit in pattern {
        if *unit == 0x27 {
            is_quoted = !is_quoted;
        } else if !is_quoted {
            letters |= bit_of(*unit);
        }
    }
    letters
}

/// Checks whether a set has one of some letters.
fn has_any(letters: u64, some: &[u8]) -> bool {
    for letter in some {
        if letters & bit_of(u16::from(*letter)) != 0 {
            return true;
        }
    }
    false
}

/// The letters that mean something in patterns of dates.
const LETTERS: &[u8] = b"GyYuUrQqMLwWdDFgEecabBhHKkmsSAzZOvVXx";

fn known_letters() -> u64 {
    let mut bits = 0u64;
    for letter in LETTERS {
        bits |= bit_of(u16::from(*letter));
    }
    bits
}

/// Returns the first letter of a pattern that means nothing.
fn unknown_letter(pattern: &[u16], letters: u64) -> Option<char> {
    let known = known_letters();
    if letters & !known == 0 {
        return None;
    }
    for unit in pattern {
        if bit_of(*unit) & !known != 0 {
            return char::from_u32(u32::from(*unit));
        }
    }
    None
}

/// Returns what is doubtful in the style of a date or a time.
pub fn date_fault(style: &[u16]) -> Option<PatternFault> {
    let pattern = trimmed(style);
    if is_named(pattern) {
        return None;
    }
    let letters = letters_of(pattern);
    let (has_hours, has_months) = (has_any(letters, b"hHkK"), has_any(letters, b"ML"));
    let has_day = has_any(letters, b"yd");
    if let Some(letter) = unknown_letter(pattern, letters) {
        Some(PatternFault::Letter(letter))
    } else if has_any(letters, b"Y") && !has_any(letters, b"w") {
        Some(PatternFault::WeekYear)
    } else if has_any(letters, b"D") && has_months {
        Some(PatternFault::DayOfYear)
    } else if has_any(letters, b"m") && has_day && !has_hours && !has_any(letters, b"s") {
        Some(PatternFault::Minutes)
    } else if has_months && has_hours && !has_day {
        Some(PatternFault::Months)
    } else {
        None
    }
}

/// Returns what follows the decimal point in the part of a pattern for positive numbers.
fn fraction_of(pattern: &[u16]) -> Option<&[u16]> {
    let positive = match place_of(pattern, 0x3B) {
        Some(end) => pattern.get(..end)?,
        None => pattern,
    };
    positive.get(place_of(positive, 0x2E)?.saturating_add(1)..)
}

/// Returns what is doubtful in the style of a number.
pub fn number_fault(style: &[u16]) -> Option<PatternFault> {
    let pattern = trimmed(style);
    if is_named(pattern) {
        return None;
    }
    let fraction = fraction_of(pattern)?;
    let mut has_hash = false;
    for unit in fraction {
        match *unit {
            0x27 => return None,
            0x23 => has_hash = true,
            0x2C => return Some(PatternFault::Decimal),
            digit if is_digit(digit) && has_hash => return Some(PatternFault::Decimal),
            _ => {}
        }
    }
    None
}
