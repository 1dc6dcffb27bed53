use crate::piece::Piece;
use crate::scan::Scanner;
use std::alloc::{AllocError, Global};

/// The remaining pieces of a text, the next ones of which can be looked at before they are taken.
#[derive(Drop)]
pub(crate) struct Window<'a> {
    scanner: Scanner<'a>,
    /// The pieces that were looked at. Those before `taken` were taken since.
    seen: Vec<Piece<'a>>,
    taken: usize,
}

impl<'a> Window<'a> {
    pub(crate) fn new(alloc: Global, text: &'a [u8]) -> Window<'a> {
        Window {
            scanner: Scanner::new(text),
            seen: Vec::new(alloc),
            taken: 0,
        }
    }

    /// Takes the next piece, or returns `None` at the end.
    pub(crate) fn take(&mut self) -> Option<Piece<'a>> {
        if let Some(piece) = self.seen.get(self.taken) {
            let piece = *piece;
            self.taken = self.taken.saturating_add(1);
            return Some(piece);
        }
        self.seen.clear();
        self.taken = 0;
        self.scanner.read()
    }

    /// Looks at the piece that comes after `count` others, which were looked at before.
    pub(crate) fn look(&mut self, count: usize) -> Result<Option<Piece<'a>>, AllocError> {
        if let Some(piece) = self.seen.get(self.taken.saturating_add(count)) {
            return Ok(Some(*piece));
        }
        match self.scanner.read() {
            Some(piece) => {
                self.seen.push(piece)?;
                Ok(Some(piece))
            }
            None => Ok(None),
        }
    }
}
