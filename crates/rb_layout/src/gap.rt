//! Chooses the white space between two pieces.
use crate::piece::Piece;
use rb_lexer::PieceKind;

/// The white space before a piece.
#[derive(Clone, Copy, PartialEq, Eq)]
pub(crate) enum Gap {
    Nothing,
    Space,
    Line,
    BlankLine,
}

/// The context of a piece: the piece before it, and the body around it.
#[derive(Clone, Copy)]
pub(crate) struct Before {
    /// The piece before it, or none at the start of the text.
    pub(crate) kind: Option<PieceKind>,
    /// An item begins a new line here: after a left brace, a right brace and a line comment.
    pub(crate) owes_line: bool,
    /// The body is on one line.
    pub(crate) is_inline: bool,
}

impl Before {
    fn is_text(&self) -> bool {
        matches!(self.kind, Some(PieceKind::Quoted | PieceKind::Run))
    }

    /// Returns a new line, and a blank one before it where the text has one, except after a brace.
    fn line(&self, breaks: usize) -> Gap {
        if breaks > 1 && self.kind != Some(PieceKind::LeftBrace) {
            Gap::BlankLine
        } else {
            Gap::Line
        }
    }

    fn line_or(&self, breaks: usize, gap: Gap) -> Gap {
        if self.owes_line || breaks > 0 {
            self.line(breaks)
        } else {
            gap
        }
    }

    fn before_comment(&self, breaks: usize) -> Gap {
        if breaks > 0 || self.kind == Some(PieceKind::LineComment) {
            self.line(breaks)
        } else {
            Gap::Space
        }
    }

    fn before_right_brace(&self) -> Gap {
        if self.is_inline {
            Gap::Space
        } else {
            Gap::Line
        }
    }

    /// Returns the gap before a left brace or a colon.
    fn before_body(&self, breaks: usize, after_text: Gap) -> Gap {
        if self.owes_line || self.kind == Some(PieceKind::Comma) {
            self.line(breaks)
        } else if self.is_text() {
            after_text
        } else {
            self.line_or(breaks, Gap::Space)
        }
    }

    fn before_text(&self, breaks: usize) -> Gap {
        if self.kind == Some(PieceKind::Colon) {
            Gap::Nothing
        } else if self.is_inline {
            Gap::Space
        } else {
            self.line_or(breaks, Gap::Space)
        }
    }

    /// Returns the gap before a piece, however long its line is.
    pub(crate) fn gap(&self, piece: &Piece<'_>) -> Gap {
        if self.kind.is_none() {
            return Gap::Nothing;
        }
        match piece.kind {
            PieceKind::LineComment | PieceKind::BlockComment => self.before_comment(piece.breaks),
            PieceKind::Comma if self.kind == Some(PieceKind::LineComment) => Gap::Line,
            PieceKind::Comma => Gap::Nothing,
            PieceKind::RightBrace => self.before_right_brace(),
            PieceKind::LeftBrace => self.before_body(piece.breaks, Gap::Space),
            PieceKind::Colon => self.before_body(piece.breaks, Gap::Nothing),
            _ => self.before_text(piece.breaks),
        }
    }
}
