//! Doubtful escapes.
use crate::warning::Doubt;

/// Checks whether a letter has a meaning after a backslash.
fn is_escape_letter(letter: u8) -> bool {
    b"abefnrtvuUxc".contains(&letter)
}

/// Returns the number of hexadecimal digits that bytes begin with, up to a limit.
fn digit_count(bytes: &[u8], limit: usize) -> usize {
    let mut count: usize = 0;
    for byte in bytes {
        if count >= limit || !byte.is_ascii_hexdigit() {
            break;
        }
        count = count.saturating_add(1);
    }
    count
}

/// Checks for two backslashes where one would begin an escape by number.
fn is_doubled(window: &[u8]) -> bool {
    match window {
        [b'\\', b'\\', b'u', digits @ ..] => digit_count(digits, 4) == 4,
        [b'\\', b'\\', b'U', digits @ ..] => digit_count(digits, 8) == 8,
        [b'\\', b'\\', b'x', digits @ ..] => digit_count(digits, 2) == 2,
        _ => false,
    }
}

/// Returns what is doubtful in the escape that a text begins with.
pub(crate) fn escape_doubt(window: &[u8]) -> Option<Doubt> {
    if is_doubled(window) {
        return Some(Doubt::TwoBackslashes);
    }
    match window.get(1) {
        Some(letter) if letter.is_ascii_alphabetic() && !is_escape_letter(*letter) => {
            Some(Doubt::Escape(char::from(*letter)))
        }
        _ => None,
    }
}
