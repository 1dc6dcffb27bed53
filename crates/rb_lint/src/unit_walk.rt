use rb_lexer::{PieceKind, TextPart, first_part, first_piece};

/// Walks through the pieces of one text of a source, and counts the units of its value.
#[derive(Clone, Copy)]
pub(crate) struct UnitWalk<'a> {
    /// The rest of the text, and its offset in the source.
    rest: &'a str,
    at: usize,
    /// The number of bytes that remain of a piece, without its quotes.
    inside: usize,
    /// The number of units before it.
    units: usize,
    /// The offset of the last character, or of the quote after it.
    last: usize,
    /// The last piece was quoted, if there was one.
    was_quoted: Option<bool>,
    /// No white space came after the last piece, which isn't quoted.
    is_open: bool,
}

impl<'a> UnitWalk<'a> {
    /// Returns a walk at the beginning of a text, which is between two offsets of a source.
    pub(crate) fn new(source: &'a [u8], first: usize, past: usize) -> UnitWalk<'a> {
        let text = source.get(first..past).unwrap_or(&[]);
        UnitWalk {
            rest: str::from_utf8(text).unwrap_or(""),
            at: first,
            inside: 0,
            units: 0,
            last: first,
            was_quoted: None,
            is_open: false,
        }
    }

    fn pass(&mut self, width: usize) {
        self.at = self.at.saturating_add(width);
        self.rest = self.rest.get(width..).unwrap_or("");
    }

    /// Passes a closing quote.
    fn close(&mut self) {
        if self.inside == 0 {
            self.last = self.at;
            self.pass(1);
        }
    }

    /// Passes a character or an escape.
    fn pass_part(&mut self, part: TextPart, width: usize) {
        let code = match part {
            TextPart::Plain(c) => u32::from(c),
            TextPart::Escape(code) => code.unwrap_or(0),
        };
        let units = if code > 0xFFFF { 2 } else { 1 };
        self.units = self.units.saturating_add(units);
        self.inside = self.inside.saturating_sub(width);
        self.last = self.at;
        self.pass(width);
        if self.was_quoted == Some(true) {
            self.close();
        }
    }

    /// Enters a piece.
    fn enter(&mut self, is_quoted: bool, width: usize) {
        let joins = match self.was_quoted {
            Some(was_quoted) => {
                self.units == 0 || was_quoted && is_quoted || self.is_open && !is_quoted
            }
            None => true,
        };
        self.units = self.units.saturating_add(usize::from(!joins));
        self.was_quoted = Some(is_quoted);
        self.is_open = !is_quoted;
        self.inside = width;
        if is_quoted {
            self.inside = width.saturating_sub(2);
            self.pass(1);
            self.close();
        }
    }

    fn step(&mut self) {
        if self.inside > 0 {
            if let Some((part, after)) = first_part(self.rest) {
                self.pass_part(part, self.rest.len().saturating_sub(after.len()));
            }
        } else if let Some((kind, after)) = first_piece(self.rest) {
            let width = self.rest.len().saturating_sub(after.len());
            match kind {
                PieceKind::Quoted | PieceKind::Run => self.enter(kind == PieceKind::Quoted, width),
                _ => {
                    self.is_open = self.is_open && kind != PieceKind::White;
                    self.pass(width);
                }
            }
        }
    }

    /// Moves to a unit, which doesn't come before that of the last call, and returns its offset in the
    /// source, or the offset of the closing quote for the end of the text.
    pub(crate) fn place_of(&mut self, unit: usize) -> usize {
        for _ in 0..self.rest.len().saturating_mul(2) {
            if self.inside > 0 && self.units >= unit {
                return self.at;
            }
            self.step();
        }
        self.last
    }
}
