//! Writes the pieces of a text in the layout.
ghost use Rattle.std.specs.Prelude.{IfErr};
ghost use Rattle.rb_layout.specs.Formatted.{IsOwnFault};

use crate::body::{DEEPEST, is_inline};
use crate::fault::FormatFault;
use crate::gap::{Before, Gap};
use crate::piece::Piece;
use crate::style::Style;
use crate::window::Window;
use rb_lexer::{PieceKind, SOURCE_LIMIT};
use std::alloc::{AllocError, Global};

/// The most spaces that are written at once.
const SPAN: usize = 64;

static SPACES: [u8; SPAN] = [b' '; SPAN];

#[derive(Drop)]
struct Layout<'a> {
    style: Style,
    window: Window<'a>,
    out: Vec<u8>,
    level: usize,
    /// The columns of the current line, except where a body is on one line.
    column: usize,
    before: Before,
}

impl<'a> Layout<'a> {
    fn new(alloc: Global, text: &'a [u8], style: Style) -> Result<Layout<'a>, AllocError> {
        let capacity = text.len().saturating_add(text.len() / 8).min(SOURCE_LIMIT);
        Ok(Layout {
            style,
            window: Window::new(alloc, text),
            out: Vec::with_capacity(alloc, capacity)?,
            level: 0,
            column: 0,
            before: Before {
                kind: None,
                owes_line: false,
                is_inline: false,
            },
        })
    }

    /// Begins a line at a level.
    fn begin_line(&mut self, level: usize) -> Result<(), AllocError> {
        self.out.push(b'\n')?;
        self.column = level.saturating_mul(self.style.indent);
        let mut left = self.column;
        for _ in 0..self.column {
            if left == 0 {
                break;
            }
            let width = left.min(SPAN);
            let spaces = SPACES.get(..width).unwrap_or(&[]);
            self.out.extend_from_slice(spaces)?;
            left -= width;
        }
        self.before.owes_line = false;
        Ok(())
    }

    /// Checks whether a text and a comma fit into the current line, after a space.
    fn fits(&self, width: usize) -> bool {
        let past = self.column.saturating_add(width).saturating_add(2);
        self.level > DEEPEST || past <= self.style.width
    }

    /// Returns the gap before a piece of a width.
    fn gap(&self, piece: &Piece<'_>, width: usize) -> Gap {
        let gap = self.before.gap(piece);
        let is_kept = gap != Gap::Space || self.before.is_inline || self.level == 0;
        if is_kept || !piece.is_text() || self.fits(width) {
            gap
        } else {
            Gap::Line
        }
    }

    fn put_gap(&mut self, gap: Gap, level: usize) -> Result<(), AllocError> {
        match gap {
            Gap::Nothing => Ok(()),
            Gap::Space => {
                self.out.push(b' ')?;
                self.column = self.column.saturating_add(1);
                Ok(())
            }
            Gap::Line => self.begin_line(level),
            Gap::BlankLine => {
                self.out.push(b'\n')?;
                self.begin_line(level)
            }
        }
    }

    /// Updates the level and what the next piece comes after.
    fn pass(&mut self, piece: &Piece<'_>) -> Result<(), AllocError> {
        self.before.kind = Some(piece.kind);
        match piece.kind {
            PieceKind::LeftBrace => {
                self.level = self.level.saturating_add(1);
                let (column, line) = (self.column, self.style.width);
                let is_inline = is_inline(&mut self.window, column, self.level, line)?;
                self.before.is_inline = is_inline;
                self.before.owes_line = !is_inline;
            }
            PieceKind::RightBrace => {
                self.level = self.level.saturating_sub(1);
                self.before.is_inline = false;
                self.before.owes_line = true;
            }
            PieceKind::LineComment => self.before.owes_line = true,
            _ => {}
        }
        Ok(())
    }

    fn put(&mut self, piece: &Piece<'_>) -> Result<(), AllocError> {
        let width = if self.before.is_inline {
            0
        } else {
            piece.columns()
        };
        let level = match piece.kind {
            PieceKind::RightBrace => self.level.saturating_sub(1),
            _ => self.level,
        };
        self.put_gap(self.gap(piece, width), level)?;
        self.out.extend_from_slice(piece.source.as_bytes())?;
        self.column = self.column.saturating_add(width);
        self.pass(piece)
    }
}

/// Lays a text out. Errors: `TooLarge` as soon as the laid out text is longer than any source;
/// `Memory`.
pub(crate) fn lay_out(alloc: Global, text: &[u8], style: Style) -> Result<Vec<u8>, FormatFault>
    ensures error { IfErr result IsOwnFault }
{
    let mut layout = Layout::new(alloc, text, style)?;
    for _ in 0..text.len() {
        let Some(piece) = layout.window.take() else {
            break;
        };
        layout.put(&piece)?;
        if layout.out.len() > SOURCE_LIMIT {
            return Err(FormatFault::TooLarge);
        }
    }
    if !layout.out.is_empty() {
        layout.out.push(b'\n')?;
    }
    if layout.out.len() > SOURCE_LIMIT {
        return Err(FormatFault::TooLarge);
    }
    Ok(layout.out)
}
