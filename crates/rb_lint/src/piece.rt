use rb_lexer::PieceKind;

/// A piece of a text or a punctuation character.
#[derive(Clone, Copy)]
pub(crate) struct Piece {
    pub(crate) kind: PieceKind,
    /// The first byte; `past` is the byte after the last.
    pub(crate) first: usize,
    pub(crate) past: usize,
    /// The line in which it begins, from 1.
    pub(crate) line: u64,
    pub(crate) last_line: u64,
    /// The column of the first piece in that line, from 1.
    pub(crate) column: u64,
    pub(crate) begins_line: bool,
    /// It is quoted and spans lines.
    pub(crate) spans_lines: bool,
    /// It has a control of the writing direction that it doesn't close.
    pub(crate) is_turned: bool,
}

impl Piece {
    pub(crate) fn is_text(&self) -> bool {
        matches!(self.kind, PieceKind::Quoted | PieceKind::Run)
    }

    /// Returns the bytes of the piece in its text.
    pub(crate) fn of<'a>(&self, text: &'a [u8]) -> &'a [u8] {
        text.get(self.first..self.past).unwrap_or(&[])
    }
}

/// Returns the bytes between quotes, or all of a text that isn't in quotes.
pub(crate) fn unquoted(bytes: &[u8]) -> &[u8] {
    match bytes {
        [b'"', inside @ .., b'"'] => inside,
        _ => bytes,
    }
}

/// Converts a number to a narrow one, or to the largest: what is stored for each open brace is kept
/// small.
pub(crate) fn narrow(number: u64) -> u32 {
    u32::try_from(number).unwrap_or(u32::MAX)
}
