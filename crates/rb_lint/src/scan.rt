//! Passes the pieces of a text, which may have any errors, with their lines and columns.
use crate::direction::Direction;
use crate::piece::Piece;
use rb_lexer::{PieceKind, TextPart, first_part, first_piece};

/// The ways to end a quoted piece other than by a quote.
#[derive(Clone, Copy, PartialEq, Eq)]
pub(crate) enum Quoting {
    /// In no other way, as in bundle texts.
    OverLines,
    /// With its line, so that a missing quote affects only that line.
    WithinLine,
}

/// A quote or comment that isn't closed at the end of a text, with the offset at which it begins.
#[derive(Clone, Copy)]
pub(crate) enum Open {
    Nothing,
    Quote(usize),
    Comment(usize),
}

/// Takes the pieces of a text, one by one.
pub(crate) trait Visit {
    fn piece(&mut self, piece: &Piece);

    /// Takes an escape at an offset, with its code point, and the rest of its piece from it on.
    fn escape(&mut self, _at: usize, _code: Option<u32>, _rest: &str) {}

    /// Takes a comment of one line at an offset.
    fn comment(&mut self, _at: usize, _comment: &str) {}
}

#[derive(Drop)]
struct Scan {
    quoting: Quoting,
    at: usize,
    line: u64,
    column: u64,
    begins_line: bool,
    open: Open,
}

impl Scan {
    fn next_line(&mut self) {
        self.line = self.line.saturating_add(1);
        self.column = 1;
        self.begins_line = true;
    }

    fn pass_lines(&mut self, source: &str) {
        for byte in source.bytes() {
            if byte == b'\n' {
                self.next_line();
            }
        }
    }

    /// Counts lines, and columns before a line's first piece; a tab moves to the next column after
    /// a multiple of 8.
    fn pass_white(&mut self, white: &str) {
        for byte in white.bytes() {
            match byte {
                b'\n' => self.next_line(),
                b' ' if self.begins_line => self.column = self.column.saturating_add(1),
                b'\t' if self.begins_line => {
                    self.column = (self.column.saturating_sub(1) / 8)
                        .saturating_add(1)
                        .saturating_mul(8)
                        .saturating_add(1);
                }
                _ => {}
            }
        }
    }

    /// Returns a piece that begins here.
    fn piece(&self, kind: PieceKind, source: &str) -> Piece {
        Piece {
            kind,
            first: self.at,
            past: self.at.saturating_add(source.len()),
            line: self.line,
            last_line: self.line,
            column: self.column,
            begins_line: self.begins_line,
            spans_lines: false,
            is_turned: false,
        }
    }

    /// Passes the escapes of a piece to a visitor. Returns the writing direction at its end.
    fn pass_parts<V: Visit>(&self, source: &str, visitor: &mut V) -> Direction {
        let mut direction = Direction::new();
        let mut rest = source;
        for _ in 0..source.len() {
            let Some((part, after)) = first_part(rest) else {
                break;
            };
            match part {
                TextPart::Plain(c) => direction.step(c),
                TextPart::Escape(code) => {
                    let within = source.len().saturating_sub(rest.len());
                    visitor.escape(self.at.saturating_add(within), code, rest);
                }
            }
            rest = after;
        }
        direction
    }

    /// Passes a text to a visitor. Returns its width.
    fn pass_text<V: Visit>(&mut self, kind: PieceKind, whole: &str, visitor: &mut V) -> usize {
        let is_quoted = kind != PieceKind::Run;
        let source = match whole.split_once('\n') {
            Some((line, _)) if is_quoted && self.quoting == Quoting::WithinLine => line,
            _ => whole,
        };
        let kind = if is_quoted { PieceKind::Quoted } else { kind };
        let mut piece = self.piece(kind, source);
        piece.is_turned = self.pass_parts(source, visitor).is_open();
        piece.spans_lines = is_quoted && whole.contains('\n');
        self.pass_lines(source);
        piece.last_line = self.line;
        self.begins_line = false;
        visitor.piece(&piece);
        source.len()
    }

    /// Passes a piece to a visitor, unless it is white space. Returns its width.
    fn pass<V: Visit>(&mut self, kind: PieceKind, source: &str, visitor: &mut V) -> usize {
        match kind {
            PieceKind::White => self.pass_white(source),
            PieceKind::LineComment => {
                visitor.comment(self.at, source);
                self.pass_lines(source);
            }
            PieceKind::BlockComment => self.pass_lines(source),
            PieceKind::OpenComment => self.open = Open::Comment(self.at),
            PieceKind::OpenQuote => {
                self.open = Open::Quote(self.at);
                return self.pass_text(kind, source, visitor);
            }
            PieceKind::Quoted | PieceKind::Run => return self.pass_text(kind, source, visitor),
            _ => {
                visitor.piece(&self.piece(kind, source));
                self.begins_line = false;
            }
        }
        source.len()
    }
}

/// Passes the pieces, escapes and comments of a text to a visitor. Returns what the text leaves
/// open. No piece is stored: a text can have as many as it has bytes. A text that isn't UTF-8 has
/// none.
pub(crate) fn visit_pieces<V: Visit>(text: &[u8], quoting: Quoting, visitor: &mut V) -> Open {
    let mut scan = Scan {
        quoting,
        at: 0,
        line: 1,
        column: 1,
        begins_line: true,
        open: Open::Nothing,
    };
    let mut rest = str::from_utf8(text).unwrap_or("");
    for _ in 0..text.len() {
        let Some((kind, after)) = first_piece(rest) else {
            break;
        };
        let source = rest
            .get(..rest.len().saturating_sub(after.len()))
            .unwrap_or("");
        let width = scan.pass(kind, source, visitor);
        scan.at = scan.at.saturating_add(width);
        rest = rest.get(width..).unwrap_or("");
    }
    scan.open
}
