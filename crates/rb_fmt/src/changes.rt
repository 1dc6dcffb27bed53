//! Finds the lines that formatting changed.
use crate::lines::kept_bytes;
use std::alloc::{AllocError, Global};

/// Lines of a text and the lines that replace them, each by the index of the first and the index
/// after the last.
#[derive(Clone, Copy)]
pub(crate) struct Change {
    pub(crate) old: usize,
    pub(crate) old_past: usize,
    pub(crate) new: usize,
    pub(crate) new_past: usize,
}

/// Checks whether a line of a text is there and equals another line.
fn is_line(found: Option<&&[u8]>, line: &[u8]) -> bool {
    match found {
        Some(found) => *found == line,
        None => false,
    }
}

/// The lines of two texts up to which they correspond. As formatting keeps all bytes but white
/// space, lines correspond where equally many of these bytes were passed.
#[derive(Drop)]
struct Matching<'a> {
    old: &'a [&'a [u8]],
    new: &'a [&'a [u8]],
    old_at: usize,
    new_at: usize,
}

impl<'a> Matching<'a> {
    fn is_at_end(&self) -> bool {
        self.old_at >= self.old.len() && self.new_at >= self.new.len()
    }

    /// Passes equal lines.
    fn skip_equal(&mut self) {
        for _ in 0..self.old.len() {
            match (self.old.get(self.old_at), self.new.get(self.new_at)) {
                (Some(a), Some(b)) if *a == *b => {}
                _ => return,
            }
            self.old_at = self.old_at.saturating_add(1);
            self.new_at = self.new_at.saturating_add(1);
        }
    }

    /// Passes an empty line that only the new text has. Returns false if there is none.
    fn pass_new_empty(&mut self) -> bool {
        match self.new.get(self.new_at) {
            Some(line) if kept_bytes(line) == 0 => {
                self.new_at = self.new_at.saturating_add(1);
                true
            }
            _ => false,
        }
    }

    /// Passes empty lines that only the old text has. Returns false if there are none.
    fn pass_old_empty(&mut self) -> bool {
        let begin = self.old_at;
        let next = self.new.get(self.new_at);
        for line in self.old.get(begin..).unwrap_or(&[]) {
            if kept_bytes(line) > 0 || is_line(next, line) {
                break;
            }
            self.old_at = self.old_at.saturating_add(1);
        }
        self.old_at > begin
    }

    /// Passes lines of both texts, at least one, until equally many bytes were passed.
    fn pass_changed(&mut self) {
        let mut old_bytes: usize = 0;
        let mut new_bytes: usize = 0;
        for _ in 0..self.old.len().saturating_add(self.new.len()) {
            let (old, new) = (self.old.get(self.old_at), self.new.get(self.new_at));
            match (old, new) {
                (Some(line), _) if old_bytes <= new_bytes || new.is_none() => {
                    old_bytes = old_bytes.saturating_add(kept_bytes(line));
                    self.old_at = self.old_at.saturating_add(1);
                }
                (_, Some(line)) => {
                    new_bytes = new_bytes.saturating_add(kept_bytes(line));
                    self.new_at = self.new_at.saturating_add(1);
                }
                _ => return,
            }
            if old_bytes == new_bytes {
                return;
            }
        }
    }

    /// Returns the next change, or `None` at the end.
    fn next_change(&mut self) -> Option<Change> {
        self.skip_equal();
        if self.is_at_end() {
            return None;
        }
        let (old, new) = (self.old_at, self.new_at);
        if !self.pass_new_empty() && !self.pass_old_empty() {
            self.pass_changed();
        }
        Some(Change {
            old,
            old_past: self.old_at,
            new,
            new_past: self.new_at,
        })
    }
}

/// Finds the changes between the lines of two texts, in order, in linear time.
pub(crate) fn changes_of(
    alloc: Global,
    old: &[&[u8]],
    new: &[&[u8]],
) -> Result<Vec<Change>, AllocError> {
    let mut matching = Matching {
        old,
        new,
        old_at: 0,
        new_at: 0,
    };
    let mut changes: Vec<Change> = Vec::new(alloc);
    for _ in 0..old.len().saturating_add(new.len()) {
        let Some(change) = matching.next_change() else {
            break;
        };
        changes.push(change)?;
    }
    Ok(changes)
}
