//! The characters of patterns: Unicode's `Pattern_White_Space` and `Pattern_Syntax` (UAX #31), which never change.

pub(crate) const APOSTROPHE: u16 = 0x27;

pub(crate) const LEFT_BRACE: u16 = 0x7B;

pub(crate) const RIGHT_BRACE: u16 = 0x7D;

pub(crate) const BAR: u16 = 0x7C;

pub(crate) const HASH: u16 = 0x23;

pub(crate) const COMMA: u16 = 0x2C;

pub(crate) const EQUALS: u16 = 0x3D;

pub(crate) const COLON: u16 = 0x3A;

pub(crate) const LESS: u16 = 0x3C;

pub(crate) const LESS_OR_EQUAL: u16 = 0x2264;

pub(crate) const INFINITY: u16 = 0x221E;

pub(crate) const PLUS: u16 = 0x2B;

pub(crate) const MINUS: u16 = 0x2D;

pub(crate) const DOT: u16 = 0x2E;

/// Checks for `Pattern_White_Space`.
pub(crate) fn is_white(unit: u16) -> bool {
    matches!(
        unit,
        0x09..=0x0D | 0x20 | 0x85 | 0x200E | 0x200F | 0x2028 | 0x2029
    )
}

/// Checks for `Pattern_Syntax` in ASCII.
fn is_ascii_syntax(unit: u16) -> bool {
    matches!(
        unit,
        0x21..=0x2F | 0x3A..=0x40 | 0x5B..=0x5E | 0x60 | 0x7B..=0x7E
    )
}

/// Checks for `Pattern_Syntax` in Latin-1.
fn is_latin_syntax(unit: u16) -> bool {
    matches!(
        unit,
        0xA1..=0xA7 | 0xA9 | 0xAB | 0xAC | 0xAE | 0xB0 | 0xB1 | 0xB6 | 0xBB | 0xBF | 0xD7 | 0xF7
    )
}

/// Checks for `Pattern_Syntax` past Latin-1.
fn is_wide_syntax(unit: u16) -> bool {
    matches!(
        unit,
        0x2010..=0x2027
            | 0x2030..=0x203E
            | 0x2041..=0x2053
            | 0x2055..=0x205E
            | 0x2190..=0x245F
            | 0x2500..=0x2775
            | 0x2794..=0x2BFF
            | 0x2E00..=0x2E7F
            | 0x3001..=0x3003
            | 0x3008..=0x3020
            | 0x3030
            | 0xFD3E
            | 0xFD3F
            | 0xFE45
            | 0xFE46
    )
}

/// Checks whether a unit can be in a name or a selector: it is neither white space nor syntax.
pub(crate) fn is_name(unit: u16) -> bool {
    let is_syntax = match unit {
        0..=0x7F => is_ascii_syntax(unit),
        0x80..=0xFF => is_latin_syntax(unit),
        _ => is_wide_syntax(unit),
    };
    !is_syntax && !is_white(unit)
}

/// Checks whether a unit can be in the name of a type: an ASCII letter.
pub(crate) fn is_letter(unit: u16) -> bool {
    matches!(unit, 0x41..=0x5A | 0x61..=0x7A)
}

/// Checks whether a unit can be in a number, as ICU takes it up.
pub(crate) fn is_numeral(unit: u16) -> bool {
    matches!(unit, 0x30..=0x39 | 0x45 | 0x65) || matches!(unit, PLUS | MINUS | DOT | INFINITY)
}

/// Checks whether units are an ASCII word, where upper-case letters count as lower-case ones.
pub(crate) fn is_word(units: &[u16], word: &[u8]) -> bool {
    units.len() == word.len()
        && units
            .iter()
            .zip(word)
            .all(|(unit, byte)| lower(*unit) == u16::from(*byte))
}

fn lower(unit: u16) -> u16 {
    match unit {
        0x41..=0x5A => unit + 0x20,
        _ => unit,
    }
}

/// Checks whether units are exactly an ASCII word.
pub(crate) fn is_exactly(units: &[u16], word: &[u8]) -> bool {
    units.len() == word.len()
        && units
            .iter()
            .zip(word)
            .all(|(unit, byte)| *unit == u16::from(*byte))
}
