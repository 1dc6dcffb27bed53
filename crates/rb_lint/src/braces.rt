//! Finds lost braces by the indentation of lines.
use crate::collector::Collector;
use crate::piece::{Piece, narrow};
use crate::scan::Visit;
use crate::warning::Doubt;
use rb_lexer::PieceKind;
use std::alloc::Global;

/// The column of the entries of a brace whose line has the first one: further lines may be indented
/// by any amount, and one of them may close the brace at its end.
const HANGING: u32 = u32::MAX;

/// An open brace, or the whole text with column and line 0.
#[derive(Clone, Copy)]
struct OpenBrace {
    /// The column of the line that opened it.
    column: u32,
    line: u32,
    /// The column of its first entry; 0 before that.
    entries: u32,
}

#[derive(Drop)]
pub(crate) struct BraceSearch<'a> {
    open: Vec<OpenBrace>,
    /// The first and the last line of the last quoted piece that spans lines: it may contain lost
    /// braces.
    last_spanning: (u32, u32),
    pub(crate) warnings: Collector<'a>,
}

impl<'a> BraceSearch<'a> {
    pub(crate) fn new(alloc: Global, warnings: Collector<'a>) -> BraceSearch<'a> {
        let mut search = BraceSearch {
            open: Vec::new(alloc),
            last_spanning: (0, 0),
            warnings,
        };
        search.open(0, 0, 0);
        search
    }

    fn open(&mut self, column: u32, line: u32, entries: u32) {
        let brace = OpenBrace {
            column,
            line,
            entries,
        };
        self.warnings.heap.push(&mut self.open, brace);
    }

    /// Closes the braces that an earlier line opened at this column or further right: they lack
    /// their closing brace.
    fn close_before(&mut self, piece: &Piece, column: u32) {
        for _ in 0..self.open.len() {
            match self.open.last().copied() {
                Some(top) if u64::from(top.line) < piece.line && top.column >= column => {
                    if top.line != self.last_spanning.0 {
                        self.warnings.add(piece.first, Doubt::NotClosed(top.line));
                    }
                }
                _ => return,
            }
            let _ = self.open.pop();
        }
    }

    fn begin_line(&mut self, piece: &Piece) {
        let column = narrow(piece.column);
        self.close_before(piece, column);
        let Some(top) = self.open.last_mut() else {
            return;
        };
        let entries = top.entries;
        if entries == 0 {
            top.entries = column;
        } else if piece.kind == PieceKind::Run && column > entries {
            self.warnings.add(piece.first, Doubt::FurtherRight);
            self.open(entries, 0, column);
        }
    }

    fn close_line(&mut self, piece: &Piece) {
        let column = narrow(piece.column);
        self.close_before(piece, column.saturating_add(1));
        let is_closed = match self.open.last() {
            Some(top) => top.column == column,
            None => false,
        };
        self.close(piece, is_closed);
    }

    /// Closes the innermost brace, or reports a brace that closes none.
    fn close(&mut self, piece: &Piece, is_closed: bool) {
        if is_closed {
            let _ = self.open.pop();
        } else {
            self.warnings.add(piece.first, Doubt::NotOpened);
        }
    }

    /// Checks whether a closing brace within a line may close an open one: the same line should have
    /// opened it, or have continued its entries.
    fn closes(&self, piece: &Piece, top: &OpenBrace) -> bool {
        let line = narrow(piece.line);
        top.line == line
            || self.last_spanning == (top.line, line)
            || top.entries == HANGING && top.column < narrow(piece.column)
    }

    fn close_within(&mut self, piece: &Piece) {
        let is_closed = match self.open.last() {
            Some(top) => self.closes(piece, top),
            None => false,
        };
        self.close(piece, is_closed);
    }

    /// Notes whether a brace has its first entry in its own line.
    fn continue_line(&mut self, piece: &Piece) {
        if let Some(top) = self.open.last_mut() {
            if top.entries == 0 && top.line == narrow(piece.line) {
                top.entries = HANGING;
            }
        }
    }
}

impl<'a> Visit for BraceSearch<'a> {
    fn piece(&mut self, piece: &Piece) {
        match (piece.kind, piece.begins_line) {
            (PieceKind::RightBrace, true) => return self.close_line(piece),
            (PieceKind::RightBrace, false) => return self.close_within(piece),
            (_, true) => self.begin_line(piece),
            (_, false) => self.continue_line(piece),
        }
        if piece.spans_lines {
            self.last_spanning = (narrow(piece.line), narrow(piece.last_line));
        }
        if piece.kind == PieceKind::LeftBrace {
            self.open(narrow(piece.column), narrow(piece.line), 0);
        }
    }
}
