//! Decides whether a body is on one line.
use crate::piece::Piece;
use crate::window::Window;
use rb_lexer::PieceKind;
use std::alloc::AllocError;

/// The deepest level at which lines are broken by their length.
pub(crate) const DEEPEST: usize = 12;

/// The most pieces of a body on one line.
const MOST: usize = 64;

/// The most numbers that are on one line, however long the line is.
const FEW: usize = 4;

/// The pieces of a body so far.
#[derive(Clone, Copy)]
struct Body {
    texts: usize,
    columns: usize,
    /// There are commas or comments.
    is_list: bool,
    /// A text is quoted, or there is a comment.
    is_other: bool,
    /// A line ends after the left brace.
    begins_line: bool,
    /// A line ends between two pieces.
    has_break: bool,
}

impl Body {
    fn new() -> Body {
        Body {
            texts: 0,
            columns: 0,
            is_list: false,
            is_other: false,
            begins_line: false,
            has_break: false,
        }
    }

    /// Adds a piece. Returns false if the body can't be on one line.
    fn add(&mut self, piece: &Piece<'_>, is_first: bool) -> bool {
        match piece.kind {
            PieceKind::Quoted | PieceKind::Run => {
                self.texts = self.texts.saturating_add(1);
            }
            PieceKind::Comma => self.is_list = true,
            PieceKind::BlockComment if !piece.source.contains('\n') => self.is_list = true,
            _ => return false,
        }
        self.is_other |= matches!(piece.kind, PieceKind::Quoted | PieceKind::BlockComment);
        if piece.breaks > 0 {
            if is_first {
                self.begins_line = true;
            } else {
                self.has_break = true;
            }
        }
        let gap = if piece.kind == PieceKind::Comma { 0 } else { 1 };
        self.columns = self
            .columns
            .saturating_add(piece.columns())
            .saturating_add(gap);
        !self.has_break && !(self.is_list && self.begins_line)
    }

    /// Decides at the right brace, given the column of the left one, the level inside and the
    /// columns of a line.
    fn is_inline(&self, end: &Piece<'_>, column: usize, level: usize, line: usize) -> bool {
        if self.texts > 0 && !self.is_list {
            return true;
        }
        if self.begins_line || end.breaks > 0 {
            return false;
        }
        let is_short = !self.is_other && self.texts <= FEW;
        is_short || level > DEEPEST || column.saturating_add(self.columns).saturating_add(3) <= line
    }
}

/// Checks whether the body whose left brace was taken is on one line. Its brace ends at this
/// column; the level is that inside the body, and `line` the columns of a line.
pub(crate) fn is_inline(
    window: &mut Window<'_>,
    column: usize,
    level: usize,
    line: usize,
) -> Result<bool, AllocError> {
    let mut body = Body::new();
    for i in 0..MOST {
        let Some(piece) = window.look(i)? else {
            return Ok(false);
        };
        if piece.kind == PieceKind::RightBrace {
            return Ok(body.is_inline(&piece, column, level, line));
        }
        if !body.add(&piece, i == 0) {
            return Ok(false);
        }
    }
    Ok(false)
}
