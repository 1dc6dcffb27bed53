//! Comments that limit the length of strings: `// resb-lint: max 20` before an entry.
use crate::allowed::{directive, has_directive};
use crate::entry_paths::paths_of;
use crate::heap::Heap;
use crate::piece::Piece;
use crate::position::Position;
use crate::scan::{Quoting, Visit, visit_pieces};
use std::alloc::{AllocError, Global};

/// The maximum number of characters of the strings at a path and below.
#[derive(Drop)]
pub struct PathLength {
    pub path: String,
    pub longest: usize,
}

#[derive(Drop)]
struct LengthSearch<'a> {
    text: &'a [u8],
    position: Position,
    /// The number of the last comment, whose entry hasn't begun.
    next: Option<usize>,
    places: Vec<(u64, u64)>,
    lengths: Vec<usize>,
    heap: Heap,
}

/// Returns the number of a comment that limits the length, given its words after `resb-lint:`.
pub(crate) fn longest_of(words: &str) -> Option<usize> {
    words
        .trim()
        .strip_prefix("max ")?
        .trim()
        .parse::<usize>()
        .ok()
}

impl<'a> Visit for LengthSearch<'a> {
    fn piece(&mut self, piece: &Piece) {
        if let Some(longest) = self.next.take() {
            self.position.advance(self.text, piece.first);
            let place = (self.position.line, self.position.column);
            self.heap.push(&mut self.places, place);
            self.heap.push(&mut self.lengths, longest);
        }
    }

    fn comment(&mut self, _at: usize, comment: &str) {
        if let Some(words) = directive(comment) {
            self.next = longest_of(words).or(self.next);
        }
    }
}

/// Returns lengths with the paths of their entries.
fn with_paths(heap: &mut Heap, paths: Vec<String>, lengths: &[usize]) -> Vec<PathLength> {
    let mut found = Vec::new(heap.alloc);
    for path in paths {
        let longest = lengths.get(found.len()).copied().unwrap_or(usize::MAX);
        heap.push(&mut found, PathLength { path, longest });
    }
    found
}

/// Returns the limits that comments of a text set, each with the path of the next entry, which is
/// empty before the bundle's name. `Err` means out of memory.
pub fn lengths_in(alloc: Global, text: &[u8]) -> Result<Vec<PathLength>, AllocError> {
    if !has_directive(text) {
        return Ok(Vec::new(alloc));
    }
    let mut search = LengthSearch {
        text,
        position: Position::first(),
        next: None,
        places: Vec::new(alloc),
        lengths: Vec::new(alloc),
        heap: Heap::new(alloc),
    };
    visit_pieces(text, Quoting::OverLines, &mut search);
    let mut heap = search.heap;
    let paths = paths_of(&mut heap, text, &search.places);
    let found = with_paths(&mut heap, paths, &search.lengths);
    heap.finish(found)
}
