use crate::collector::Collector;
use crate::piece::{Piece, narrow};
use crate::warning::Doubt;
use rb_lexer::PieceKind;
use std::alloc::Global;

/// The body after an open brace.
#[derive(Clone, Copy)]
struct OpenBody {
    /// It is an array or a vector: it has a comma, or the type says so.
    is_list: bool,
    /// It is a vector, whose numbers aren't quoted.
    is_vector: bool,
    /// The length of `noted` before it.
    noted: u32,
    has_quoted: bool,
    /// The second word of the first text without quotes in it.
    loose: Option<u32>,
}

/// Checks whether a text is meant to continue the one before it: a comment is between them, or it begins a
/// line, further right than the line that the other one begins.
fn is_continued(text: &[u8], a: &Piece, b: &Piece) -> bool {
    let gap = text.get(a.past..b.first).unwrap_or(&[]);
    gap.contains(&b'/') || a.begins_line && b.begins_line && b.column > a.column
}

/// Returns the body of a value of a type, which is empty if no type is given.
fn body_of(of_type: &[u8], noted: usize) -> OpenBody {
    let is_vector = of_type == b"intvector".as_slice();
    OpenBody {
        is_list: is_vector || of_type == b"array".as_slice(),
        is_vector,
        noted: narrow(noted as u64),
        has_quoted: false,
        loose: None,
    }
}

/// Reports each quoted piece next to an unquoted one, and adjacent texts in an array or a vector.
#[derive(Drop)]
pub(crate) struct AdjacentSearch {
    open: Vec<OpenBody>,
    /// The ends of texts that another one follows, within open braces.
    noted: Vec<u32>,
}

impl AdjacentSearch {
    pub(crate) fn new(alloc: Global) -> AdjacentSearch {
        AdjacentSearch {
            open: Vec::new(alloc),
            noted: Vec::new(alloc),
        }
    }

    fn enter(&mut self, of_type: &[u8], warnings: &mut Collector<'_>) {
        let body = body_of(of_type, self.noted.len());
        warnings.heap.push(&mut self.open, body);
    }

    /// Closes a body. Only in a list are adjacent texts doubtful.
    fn leave(&mut self, warnings: &mut Collector<'_>) {
        let Some(open) = self.open.pop() else {
            return;
        };
        if open.is_list {
            self.leave_list(open, warnings);
        }
        self.noted.truncate(open.noted as usize);
    }

    /// Reports adjacent texts of a list, and a text without quotes among others.
    fn leave_list(&self, open: OpenBody, warnings: &mut Collector<'_>) {
        for past in self.noted.get(open.noted as usize..).unwrap_or(&[]) {
            warnings.add(*past as usize, Doubt::Joined);
        }
        if let Some(at) = open.loose {
            if open.has_quoted {
                warnings.add(at as usize, Doubt::LooseItem);
            }
        }
    }

    /// Notes quotes in the innermost body.
    fn note_kind(&mut self, piece: &Piece) {
        if let Some(open) = self.open.last_mut() {
            open.has_quoted = open.has_quoted || piece.kind == PieceKind::Quoted;
        }
    }

    /// Notes two words without quotes in the innermost body.
    fn note_loose(&mut self, piece: &Piece) {
        if let Some(open) = self.open.last_mut() {
            open.loose = open.loose.or(Some(narrow(piece.first as u64)));
        }
    }

    fn comma(&mut self) {
        if let Some(open) = self.open.last_mut() {
            open.is_list = true;
        }
    }

    /// Takes two texts side by side.
    fn meet(&mut self, text: &[u8], a: &Piece, b: &Piece, warnings: &mut Collector<'_>) {
        if a.spans_lines || b.spans_lines {
            return;
        }
        if a.kind != b.kind {
            return warnings.add(b.first, Doubt::Mixed);
        }
        let is_vector = match self.open.last() {
            Some(open) => open.is_vector,
            None => false,
        };
        if a.kind == PieceKind::Run {
            self.note_loose(a);
        }
        if (a.kind == PieceKind::Quoted || is_vector) && !is_continued(text, a, b) {
            warnings.heap.push(&mut self.noted, narrow(a.past as u64));
        }
    }

    /// Takes the next piece, and the one before it.
    pub(crate) fn step(
        &mut self,
        text: &[u8],
        before: &Piece,
        piece: &Piece,
        warnings: &mut Collector<'_>,
    ) {
        self.note_kind(piece);
        match piece.kind {
            PieceKind::LeftBrace if before.is_text() => self.enter(before.of(text), warnings),
            PieceKind::LeftBrace => self.enter(b"", warnings),
            PieceKind::RightBrace => self.leave(warnings),
            PieceKind::Comma => self.comma(),
            PieceKind::Quoted | PieceKind::Run if before.is_text() => self.meet(
                text, before, piece, warnings,
            ),
            _ => {}
        }
    }
}
