ghost use Rattle.std.specs.Prelude.{◌≡◌};
ghost use Rattle.rb_lint.specs.Warnings.{line_count};

/// Counts the lines of a text, including the one after its last line feed.
pub(crate) fn line_count(text: &[u8]) -> u64
    ensures { result ≡ line_count text.now }
{
    let feeds = text.iter().filter(|byte| **byte == b'\n').count();
    feeds as u64 + 1
}

/// A byte of a text with its line and its column, which counts UTF-16 units.
#[derive(Clone, Copy)]
pub(crate) struct Position {
    at: usize,
    pub(crate) line: u64,
    pub(crate) column: u64,
}

/// Returns the number of UTF-16 units of a character, at its first byte.
fn units_of(byte: u8) -> u64 {
    match byte {
        0x80..=0xBF => 0,
        0xF0..=0xFF => 2,
        _ => 1,
    }
}

impl Position {
    pub(crate) fn first() -> Position {
        Position {
            at: 0,
            line: 1,
            column: 1,
        }
    }

    /// Moves to a later byte.
    pub(crate) fn advance(&mut self, text: &[u8], to: usize) {
        for byte in text.get(self.at..to).unwrap_or(&[]) {
            if *byte == b'\n' {
                self.line = self.line.saturating_add(1);
                self.column = 1;
            } else {
                self.column = self.column.saturating_add(units_of(*byte));
            }
        }
        self.at = self.at.max(to);
    }
}

/// Returns the bytes of a line, and the offset of its first.
pub(crate) fn line_of(text: &[u8], line: u64) -> (usize, &[u8]) {
    let mut first = 0;
    let mut number = 1;
    for part in text.split(|byte| *byte == b'\n') {
        if number >= line {
            return (first, part);
        }
        number = number.saturating_add(1);
        first = first.saturating_add(part.len()).saturating_add(1);
    }
    (text.len(), &[])
}
