use crate::piece::Piece;
use rb_lexer::PieceKind;

/// Returns the characters of a piece, or None if it has escapes.
fn characters<'a>(text: &'a [u8], piece: &Piece) -> Option<&'a [u8]> {
    let bytes = text.get(piece.first..piece.past)?;
    if bytes.contains(&b'\\') {
        return None;
    }
    match (piece.kind, bytes) {
        (PieceKind::Quoted, [b'"', inside @ .., b'"']) => Some(inside),
        (PieceKind::Run, _) => Some(bytes),
        _ => None,
    }
}

/// Checks whether a bundle's name, if the first piece is all of it, differs from its file's.
pub(crate) fn is_other_name(text: &[u8], name: &Piece, next: &Piece, stem: &[u8]) -> bool {
    match characters(text, name) {
        Some(bytes) => bytes != stem && !next.is_text(),
        None => false,
    }
}
