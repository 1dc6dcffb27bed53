//! The paths of the entries at places of a text.
use crate::heap::Heap;
use crate::piece::{Piece, unquoted};
use crate::position::Position;
use crate::scan::{Quoting, Visit, visit_pieces};
use rb_lexer::PieceKind;
use std::alloc::{AllocError, Global};

/// A search for the paths of ascending places, each a line and a column.
#[derive(Drop)]
struct PathSearch<'a> {
    heap: Heap,
    text: &'a [u8],
    places: &'a [(u64, u64)],
    position: Position,
    /// The keys of the open braces, with slashes between them; `ends` are the lengths before each.
    path: Vec<u8>,
    ends: Vec<usize>,
    /// The last text that may be a key.
    key: Option<Piece>,
    is_type: bool,
    found: Vec<String>,
}

impl<'a> PathSearch<'a> {
    /// Gives the current path to the places before a byte.
    fn flush(&mut self, at: usize) {
        self.position.advance(self.text, at);
        let here = (self.position.line, self.position.column);
        let next = self.places.get(self.found.len()..).unwrap_or(&[]);
        for place in next {
            if *place >= here {
                break;
            }
            self.add_path();
        }
    }

    /// Gives the current path to the next place.
    fn add_path(&mut self) {
        match String::from_utf8_lossy(self.heap.alloc, &self.path) {
            Ok(path) => self.heap.push(&mut self.found, path),
            Err(_) => self.heap.fail(),
        }
    }

    /// Adds the last key to the path. The first brace is the bundle's, whose name isn't in paths.
    fn open(&mut self) {
        let end = self.path.len();
        if !self.ends.is_empty() {
            self.add_key();
        }
        self.key = None;
        self.heap.push(&mut self.ends, end);
    }

    fn add_key(&mut self) {
        if !self.path.is_empty() {
            self.heap.push(&mut self.path, b'/');
        }
        if let Some(key) = self.key {
            self.heap
                .extend(&mut self.path, unquoted(key.of(self.text)));
        }
    }

    fn close(&mut self) {
        if let Some(end) = self.ends.pop() {
            self.path.truncate(end);
        }
        self.key = None;
    }
}

impl<'a> Visit for PathSearch<'a> {
    fn piece(&mut self, piece: &Piece) {
        let is_type = self.is_type;
        self.is_type = piece.kind == PieceKind::Colon;
        match piece.kind {
            PieceKind::Quoted | PieceKind::Run if !is_type => {
                self.flush(piece.first);
                self.key = Some(*piece);
            }
            PieceKind::LeftBrace => self.open(),
            PieceKind::RightBrace => {
                self.flush(piece.past);
                self.close();
            }
            PieceKind::Comma => self.key = None,
            _ => {}
        }
    }
}

/// Returns the paths of the entries at ascending places.
pub(crate) fn paths_of(heap: &mut Heap, text: &[u8], places: &[(u64, u64)]) -> Vec<String> {
    let alloc = heap.alloc;
    let mut search = PathSearch {
        heap: *heap,
        text,
        places,
        position: Position::first(),
        path: Vec::new(alloc),
        ends: Vec::new(alloc),
        key: None,
        is_type: false,
        found: Vec::new(alloc),
    };
    visit_pieces(text, Quoting::OverLines, &mut search);
    search.flush(text.len());
    heap.join(search.heap);
    search.found
}

/// Returns the paths of the entries at ascending places, each a line and a column: keys as they are
/// written, with slashes between them. What is in an array has the path of the array.
pub fn paths_at(
    alloc: Global,
    text: &[u8],
    places: &[(u64, u64)],
) -> Result<Vec<String>, AllocError> {
    let mut heap = Heap::new(alloc);
    let paths = paths_of(&mut heap, text, places);
    heap.finish(paths)
}
