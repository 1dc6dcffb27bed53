//! Lists whose appends don't fail at once: a search notes that memory ran out, and ends with the error.
use std::alloc::{AllocError, Global};

/// An allocator that notes whether an allocation failed. What a search finds after that isn't used.
#[derive(Clone, Copy)]
pub(crate) struct Heap {
    pub(crate) alloc: Global,
    has_failed: bool,
}

impl Heap {
    pub(crate) fn new(alloc: Global) -> Heap {
        Heap {
            alloc,
            has_failed: false,
        }
    }

    /// Notes that an allocation failed.
    pub(crate) fn fail(&mut self) {
        self.has_failed = true;
    }

    /// Notes that an allocation failed in a copy.
    pub(crate) fn join(&mut self, copy: Heap) {
        self.has_failed = self.has_failed || copy.has_failed;
    }

    /// Notes whether an outcome is that an allocation failed.
    pub(crate) fn note(&mut self, outcome: Result<(), AllocError>) {
        if outcome.is_err() {
            self.has_failed = true;
        }
    }

    /// Appends an item to a list.
    pub(crate) fn push<T: Drop>(&mut self, list: &mut Vec<T>, item: T) {
        if list.push(item).is_err() {
            self.has_failed = true;
        }
    }

    /// Appends bytes to a list.
    pub(crate) fn extend(&mut self, list: &mut Vec<u8>, bytes: &[u8]) {
        self.note(list.extend_from_slice(bytes));
    }

    /// Returns a list that was made, or an empty one if an allocation failed.
    pub(crate) fn list<T: Drop>(&mut self, made: Result<Vec<T>, AllocError>) -> Vec<T> {
        match made {
            Ok(list) => list,
            Err(_) => {
                self.has_failed = true;
                Vec::new(self.alloc)
            }
        }
    }

    /// Returns what was made, or an error if an allocation failed.
    pub(crate) fn finish<T: Drop>(self, made: T) -> Result<T, AllocError> {
        if self.has_failed {
            Err(AllocError)
        } else {
            Ok(made)
        }
    }
}
