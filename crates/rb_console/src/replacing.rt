//! Replaces a text that was read by a changed one.
use crate::older::{Expected, opened, replace};
use crate::output::{FileKind, located};
use std::io;
use std::random::RandomSource;
use std::rt::Files;

/// Replaces the text in an ordinary file, links followed, which has the bytes `older`. The new text
/// is written beside it and renamed over it, with its permissions; or it is written in place, where
/// its owner, its group or a further name would be lost. Returns false, and leaves the file alone, if
/// it has other bytes by then. If writing fails the older text stays whole.
pub fn replace_text<R: Files + RandomSource + AllocGlobal>(
    rt: &R,
    name: &str,
    older: &[u8],
    newer: &[u8],
) -> io::Result<bool> {
    let (kind, target) = located(rt, name)?;
    if kind != FileKind::Ordinary {
        return Err(io::Error::from(io::ErrorKind::Unsupported));
    }
    let target = target.as_str();
    let opened = opened(rt, target)?;
    replace(rt, target, (opened, Expected::Text(older)), newer)
}
