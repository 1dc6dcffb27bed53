use crate::piece::Piece;
use rb_lexer::PieceKind;

/// A text counts as indented if, of the lines that follow a brace, at least this many are indented
/// further for each one that is not.
const INDENTED: usize = 9;

/// Counts braces and indented lines.
#[derive(Clone, Copy)]
pub(crate) struct Layout {
    /// The number of open braces.
    open: u64,
    /// A brace closed none.
    has_extra: bool,
    further: usize,
    others: usize,
}

impl Layout {
    pub(crate) fn new() -> Layout {
        Layout {
            open: 0,
            has_extra: false,
            further: 0,
            others: 0,
        }
    }

    /// Takes the next piece.
    pub(crate) fn step(&mut self, piece: &Piece) {
        match piece.kind {
            PieceKind::LeftBrace => self.open = self.open.saturating_add(1),
            PieceKind::RightBrace if self.open == 0 => self.has_extra = true,
            PieceKind::RightBrace => self.open = self.open.saturating_sub(1),
            _ => {}
        }
    }

    /// Compares the columns of a brace and of the line that follows it.
    pub(crate) fn compare(&mut self, brace: &Piece, next: &Piece) {
        if brace.kind != PieceKind::LeftBrace
            || !next.begins_line
            || next.kind == PieceKind::RightBrace
        {
            return;
        }
        if next.column > brace.column {
            self.further = self.further.saturating_add(1);
        } else {
            self.others = self.others.saturating_add(1);
        }
    }

    /// Checks whether a brace is missing. A text that compiles has as many of each kind, in any
    /// layout.
    pub(crate) fn lacks_brace(&self) -> bool {
        self.open > 0 || self.has_extra
    }

    /// Checks whether the text is indented, so that columns show where a brace is missing.
    pub(crate) fn is_indented(&self) -> bool {
        self.further > 0 && self.further / INDENTED >= self.others
    }
}
