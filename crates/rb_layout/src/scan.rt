//! Reads the pieces of a text that has no lexical errors.
use crate::piece::Piece;
use rb_lexer::{PieceKind, first_piece};

/// The unread rest of a text.
#[derive(Clone, Copy)]
pub(crate) struct Scanner<'a> {
    rest: &'a str,
    /// The line feeds since the last piece.
    breaks: usize,
}

/// Returns the part of a text before its rest.
fn before<'a>(text: &'a str, rest: &str) -> &'a str {
    let width = text.len().saturating_sub(rest.len());
    text.get(..width).unwrap_or("")
}

fn line_feeds(text: &str) -> usize {
    text.as_bytes()
        .iter()
        .filter(|byte| **byte == b'\n')
        .count()
}

/// Returns what follows an unquoted piece, given what follows its first run. Comments are inside
/// the piece if another run follows them.
fn past_runs(after: &str) -> &str {
    let mut past = after;
    let mut ahead = after;
    for _ in 0..after.len() {
        match first_piece(ahead) {
            Some((PieceKind::Run, rest)) => {
                past = rest;
                ahead = rest;
            }
            Some((PieceKind::LineComment | PieceKind::BlockComment, rest)) => ahead = rest,
            _ => break,
        }
    }
    past
}

impl<'a> Scanner<'a> {
    /// Returns the pieces of a text, of which one that isn't UTF-8 has none.
    pub(crate) fn new(text: &'a [u8]) -> Scanner<'a> {
        Scanner {
            rest: str::from_utf8(text).unwrap_or(""),
            breaks: 0,
        }
    }

    /// Skips white space. Returns the kind of the next piece, and what follows it.
    fn first(&mut self) -> Option<(PieceKind, &'a str)> {
        let (kind, after) = first_piece(self.rest)?;
        if kind != PieceKind::White {
            return Some((kind, after));
        }
        let white = before(self.rest, after);
        self.breaks = self.breaks.saturating_add(line_feeds(white));
        self.rest = after;
        first_piece(after)
    }

    /// Takes a piece, given what follows it.
    fn take(&mut self, kind: PieceKind, after: &'a str) -> Piece<'a> {
        let source = before(self.rest, after);
        let breaks = self.breaks;
        self.rest = after;
        self.breaks = 0;
        if kind != PieceKind::LineComment {
            return Piece {
                kind,
                source,
                breaks,
            };
        }
        self.breaks = line_feeds(source);
        Piece {
            kind,
            source: source.trim_end_matches(|c| matches!(c, ' ' | '\t' | '\n' | '\r' | '\u{2029}')),
            breaks,
        }
    }

    /// Reads the next piece, or returns `None` at the end.
    pub(crate) fn read(&mut self) -> Option<Piece<'a>> {
        let (kind, after) = self.first()?;
        let past = match kind {
            PieceKind::Run => past_runs(after),
            _ => after,
        };
        Some(self.take(kind, past))
    }

    /// Reads the next comment, also inside an unquoted piece, or returns `None` if no more come.
    pub(crate) fn read_comment(&mut self) -> Option<&'a str> {
        for _ in 0..=self.rest.len() {
            let (kind, after) = self.first()?;
            let piece = self.take(kind, after);
            if piece.is_comment() {
                return Some(piece.source);
            }
        }
        None
    }
}
