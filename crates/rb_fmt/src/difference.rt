//! Writes the difference of two texts in the unified format.
use crate::changes::{Change, changes_of};
use crate::lines::lines_of;
use std::alloc::{AllocError, Global};

/// The equal lines that are shown before and after changed ones.
const CONTEXT: usize = 3;

/// Returns the number with which a header names lines: that of the first, or of the line before
/// if there are none.
fn shown_first(first: usize, count: usize) -> usize {
    if count == 0 {
        first
    } else {
        first.saturating_add(1)
    }
}

/// Returns the index after the changes from `first` on that are shown together.
fn hunk_past(changes: &[Change], first: usize) -> usize {
    for i in first..changes.len() {
        let next = i.saturating_add(1);
        let (Some(change), Some(after)) = (changes.get(i), changes.get(next)) else {
            return changes.len();
        };
        if after.old.saturating_sub(change.old_past) > 2 * CONTEXT {
            return next;
        }
    }
    changes.len()
}

fn put_line(out: &mut Vec<u8>, sign: u8, line: &[u8]) -> Result<(), AllocError> {
    out.push(sign)?;
    out.extend_from_slice(line)?;
    match line.last() {
        Some(b'\n') => Ok(()),
        _ => out.extend_from_slice(b"\n\\ No newline at end of file\n"),
    }
}

fn put_lines(
    out: &mut Vec<u8>,
    sign: u8,
    lines: &[&[u8]],
    first: usize,
    past: usize,
) -> Result<(), AllocError> {
    for line in lines.get(first..past).unwrap_or(&[]) {
        put_line(out, sign, line)?;
    }
    Ok(())
}

/// Writes the header of a hunk.
fn put_header(out: &mut Vec<u8>, alloc: Global, shown: Change) -> Result<(), AllocError> {
    let old_count = shown.old_past.saturating_sub(shown.old);
    let new_count = shown.new_past.saturating_sub(shown.new);
    let old_first = shown_first(shown.old, old_count);
    let new_first = shown_first(shown.new, new_count);
    let header = format!(in alloc; "@@ -{old_first},{old_count} +{new_first},{new_count} @@\n")?;
    out.extend_from_slice(header.as_bytes())
}

/// Writes changes with the equal lines around them.
fn put_hunk(
    out: &mut Vec<u8>,
    alloc: Global,
    old: &[&[u8]],
    new: &[&[u8]],
    changes: &[Change],
) -> Result<(), AllocError> {
    let (Some(first), Some(last)) = (changes.first(), changes.last()) else {
        return Ok(());
    };
    let before = first.old.min(CONTEXT);
    let after = old.len().saturating_sub(last.old_past).min(CONTEXT);
    let shown = Change {
        old: first.old.saturating_sub(before),
        old_past: last.old_past.saturating_add(after),
        new: first.new.saturating_sub(before),
        new_past: last.new_past.saturating_add(after),
    };
    put_header(out, alloc, shown)?;
    let mut at = shown.old;
    for change in changes {
        put_lines(out, b' ', old, at, change.old)?;
        put_lines(out, b'-', old, change.old, change.old_past)?;
        put_lines(out, b'+', new, change.new, change.new_past)?;
        at = change.old_past;
    }
    put_lines(out, b' ', old, at, shown.old_past)
}

/// Returns the difference of a text and the formatted one in the unified format, without the lines
/// that name the texts.
pub(crate) fn difference(alloc: Global, old: &[u8], new: &[u8]) -> Result<Vec<u8>, AllocError> {
    let old_lines = lines_of(alloc, old)?;
    let new_lines = lines_of(alloc, new)?;
    let changes = changes_of(alloc, &old_lines, &new_lines)?;
    let mut out = Vec::new(alloc);
    let mut first = 0;
    for _ in 0..changes.len() {
        if first >= changes.len() {
            break;
        }
        let past = hunk_past(&changes, first);
        let hunk = changes.get(first..past).unwrap_or(&[]);
        put_hunk(&mut out, alloc, &old_lines, &new_lines, hunk)?;
        first = past;
    }
    Ok(out)
}
