use bstr::ByteSlice;
use std::alloc::{AllocError, Global};

/// Checks whether a text begins with white space of more than one byte: U+2029 or U+FEFF.
fn is_wide_white(rest: &[u8]) -> bool {
    match rest {
        [0xE2, 0x80, 0xA9, ..] | [0xEF, 0xBB, 0xBF, ..] => true,
        _ => false,
    }
}

/// Counts the bytes of a line that formatting keeps: those of no white space.
pub(crate) fn kept_bytes(line: &[u8]) -> usize {
    let mut count: usize = 0;
    let mut skipped: usize = 0;
    for i in 0..line.len() {
        if skipped > 0 {
            skipped -= 1;
        } else if is_wide_white(&line[i..]) {
            skipped = 2;
        } else if !matches!(line[i], b' ' | b'\t' | b'\r' | b'\n') {
            count = count.saturating_add(1);
        }
    }
    count
}

/// Splits a text into lines, each with its line feed.
pub(crate) fn lines_of(alloc: Global, text: &[u8]) -> Result<Vec<&[u8]>, AllocError> {
    let mut lines = Vec::new(alloc);
    let mut rest = text;
    for _ in 0..text.len() {
        let Some(end) = rest.find_byte(b'\n') else {
            break;
        };
        let past = end.saturating_add(1);
        lines.push(rest.get(..past).unwrap_or(rest))?;
        rest = rest.get(past..).unwrap_or(&[]);
    }
    if !rest.is_empty() {
        lines.push(rest)?;
    }
    Ok(lines)
}
