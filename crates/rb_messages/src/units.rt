//! Kinds of UTF-16 units.

pub(crate) fn is_digit(unit: u16) -> bool {
    matches!(unit, 0x30..=0x39)
}

/// Checks for an ASCII letter.
pub(crate) fn is_letter(unit: u16) -> bool {
    matches!(unit, 0x41..=0x5A | 0x61..=0x7A)
}

/// Checks for white space, which also the no-break space is.
pub(crate) fn is_blank(unit: u16) -> bool {
    matches!(unit, 0x09..=0x0D | 0x20 | 0x85 | 0xA0 | 0x2028 | 0x2029)
}

/// Checks for a unit of a name between braces, such as `user.name`.
pub(crate) fn is_name(unit: u16) -> bool {
    is_letter(unit) || is_digit(unit) || matches!(unit, 0x2D | 0x2E | 0x5F)
}

/// Checks whether a text begins with ASCII characters.
pub(crate) fn begins_with(text: &[u16], prefix: &[u8]) -> bool {
    for (at, byte) in prefix.iter().enumerate() {
        if text.get(at) != Some(&u16::from(*byte)) {
            return false;
        }
    }
    true
}

/// Checks whether units are exactly an ASCII word.
fn is_exactly(units: &[u16], word: &[u8]) -> bool {
    units.len() == word.len() && begins_with(units, word)
}

/// Checks whether units are one of some ASCII words, with a space between each.
pub(crate) fn is_one_of(units: &[u16], words: &str) -> bool {
    for word in words.split(' ') {
        if is_exactly(units, word.as_bytes()) {
            return true;
        }
    }
    false
}

/// Checks whether a unit is one of some characters.
pub(crate) fn is_among(unit: u16, characters: &str) -> bool {
    for c in characters.chars() {
        if u32::from(c) == u32::from(unit) {
            return true;
        }
    }
    false
}

/// Returns the first place of a unit.
pub(crate) fn place_of(text: &[u16], wanted: u16) -> Option<usize> {
    for (at, unit) in text.iter().enumerate() {
        if *unit == wanted {
            return Some(at);
        }
    }
    None
}

/// A class of units.
#[derive(Clone, Copy)]
pub(crate) enum Class {
    Digit,
    Letter,
    Name,
    /// A flag, a digit or a dot of a conversion.
    Flag,
    /// A letter of a size, such as `l` in `%ld`.
    Size,
    /// A character of an address: ASCII that is neither a blank, a bracket nor a quote.
    Address,
    /// A digit, or a point or a comma between digits.
    Numeral,
    /// A character that ends no address: the punctuation of a sentence doesn't.
    AddressEnd,
    /// White space.
    Blank,
    /// Any unit but white space.
    Ink,
    /// Any unit but white space and closing quotes and brackets.
    Body,
}

impl Class {
    fn has(self, unit: u16) -> bool {
        match self {
            Class::Digit => is_digit(unit),
            Class::Letter => is_letter(unit),
            Class::Name => is_name(unit),
            Class::Flag => is_digit(unit) || matches!(unit, 0x23 | 0x2A | 0x2B | 0x2D | 0x2E),
            Class::Size => matches!(unit, 0x68 | 0x6C | 0x71 | 0x7A),
            Class::Address => is_address(unit),
            Class::Numeral => is_digit(unit) || matches!(unit, 0x2C | 0x2E),
            Class::AddressEnd => !matches!(unit, 0x21 | 0x2C | 0x2E | 0x3A | 0x3B | 0x3F),
            Class::Blank => is_blank(unit),
            Class::Ink => !is_blank(unit),
            Class::Body => !is_blank(unit) && !is_closer(unit),
        }
    }
}

/// Checks for a closing quote or bracket.
fn is_closer(unit: u16) -> bool {
    is_among(unit, "\"')]»‘’“”›》」』】）")
}

fn is_address(unit: u16) -> bool {
    matches!(
        unit,
        0x21 | 0x23..=0x26 | 0x2A..=0x3B | 0x3D | 0x3F..=0x5A | 0x5F | 0x61..=0x7A | 0x7E
    )
}

/// Returns the number of units of a class from an offset of a text on.
pub(crate) fn count_of(text: &[u16], at: usize, class: Class) -> usize {
    let mut count: usize = 0;
    for unit in text.get(at..).unwrap_or(&[]) {
        if !class.has(*unit) {
            break;
        }
        count = count.saturating_add(1);
    }
    count
}

/// Returns the offset after the last unit of a class, or 0.
pub(crate) fn past_last(text: &[u16], class: Class) -> usize {
    let mut past = 0;
    for (at, unit) in text.iter().enumerate() {
        if class.has(*unit) {
            past = at.saturating_add(1);
        }
    }
    past
}
