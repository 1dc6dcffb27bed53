use rb_lexer::PieceKind;

/// A piece of a text that isn't white space. An unquoted one has the comments inside it. A line
/// comment is without its line end and the blanks before that.
#[derive(Clone, Copy)]
pub(crate) struct Piece<'a> {
    pub(crate) kind: PieceKind,
    pub(crate) source: &'a str,
    /// The number of line feeds between the piece before it and this one.
    pub(crate) breaks: usize,
}

impl<'a> Piece<'a> {
    pub(crate) fn is_comment(&self) -> bool {
        matches!(self.kind, PieceKind::LineComment | PieceKind::BlockComment)
    }

    pub(crate) fn is_text(&self) -> bool {
        matches!(self.kind, PieceKind::Quoted | PieceKind::Run)
    }

    /// Returns the columns of the piece: its characters, of which 400 bytes are counted.
    pub(crate) fn columns(&self) -> usize {
        let bytes = self.source.as_bytes();
        bytes
            .get(..400)
            .unwrap_or(bytes)
            .iter()
            .filter(|byte| !matches!(**byte, 0x80..=0xBF))
            .count()
    }
}
