use std::alloc::{AllocError, Global};

/// The kinds of parts that a translation keeps as they are.
#[derive(Clone, Copy, PartialEq, Eq)]
pub enum MarkKind {
    /// A conversion of `printf`, such as `%d` and `%1$s`, or a variable, such as `${name}`.
    Placeholder,
    /// A tag of HTML, or an entity that stands for a character of its syntax.
    Tag,
    /// The address of a page.
    Address,
    /// A number in digits.
    Number,
}

/// A part of a string that its translation keeps.
#[derive(Clone, Copy)]
pub struct Mark {
    pub kind: MarkKind,
    pub first: usize,
    pub past: usize,
}

impl Mark {
    /// Returns the units of the part in its text.
    pub fn of(self, text: &[u16]) -> &[u16] {
        text.get(self.first..self.past).unwrap_or(&[])
    }
}

/// Returns the units of marks in order, each with the index of its mark.
fn sorted<'a>(
    alloc: Global,
    text: &'a [u16],
    marks: &[Mark],
) -> Result<Vec<(&'a [u16], usize)>, AllocError> {
    let mut all = Vec::with_capacity(alloc, marks.len())?;
    for (i, mark) in marks.iter().enumerate() {
        all.push((mark.of(text), i))?;
    }
    all.sort_by_key(|entry| entry.0)?;
    Ok(all)
}

/// Checks whether the mark at an index has some units.
fn has_units(marks: &[(&[u16], usize)], at: usize, units: &[u16]) -> bool {
    match marks.get(at) {
        Some(mark) => mark.0 == units,
        None => false,
    }
}

/// Returns the marks that others lack, each once, given the units of both in order.
fn lacking(
    alloc: Global,
    marks: &[Mark],
    wanted: &[(&[u16], usize)],
    others: &[(&[u16], usize)],
    is_set: bool,
) -> Result<Vec<Mark>, AllocError> {
    let mut found = Vec::new(alloc);
    let mut next: usize = 0;
    let mut last: &[u16] = &[];
    for (units, i) in wanted {
        let past = others.partition_point(|other| other.0 < *units);
        next = next.max(past);
        if has_units(others, if is_set { past } else { next }, units) {
            next = next.saturating_add(1);
        } else if last != *units {
            if let Some(mark) = marks.get(*i) {
                found.push(*mark)?;
            }
            last = units;
        }
    }
    Ok(found)
}

/// Returns the marks of a text that another text lacks, in the order of the text and each once: those that
/// it has less often, or, if `is_set`, not at all. `Err` means out of memory.
pub fn marks_lacking(
    alloc: Global,
    here: (&[u16], &[Mark]),
    other: (&[u16], &[Mark]),
    is_set: bool,
) -> Result<Vec<Mark>, AllocError> {
    let wanted = sorted(alloc, here.0, here.1)?;
    let others = sorted(alloc, other.0, other.1)?;
    let mut found = lacking(alloc, here.1, &wanted, &others, is_set)?;
    found.sort_by_key(|mark: &Mark| mark.first)?;
    Ok(found)
}
