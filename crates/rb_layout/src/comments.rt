//! Compares the comments of two texts.
use crate::scan::Scanner;
use bstr::ByteSlice;

/// Checks whether two texts have the same comments in the same order.
pub(crate) fn have_same_comments(old: &[u8], new: &[u8]) -> bool {
    if old.find_byte(b'/').is_none() && new.find_byte(b'/').is_none() {
        return true;
    }
    let mut olds = Scanner::new(old);
    let mut news = Scanner::new(new);
    for _ in 0..=old.len() {
        match (olds.read_comment(), news.read_comment()) {
            (None, None) => return true,
            (Some(a), Some(b)) if a == b => {}
            _ => return false,
        }
    }
    false
}
