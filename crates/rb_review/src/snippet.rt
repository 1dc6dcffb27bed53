//! The line of a finding, with its place below.
use rb_console::Console;
use std::alloc::{AllocError, Global};

/// The most characters of a line before and after the place.
const AROUND: usize = 60;

/// A walk through the lines of a text.
#[derive(Clone, Copy)]
pub(crate) struct Lines<'a> {
    rest: &'a [u8],
    /// The number of the line that the rest begins, from 1.
    number: u64,
}

impl<'a> Lines<'a> {
    pub(crate) fn of(text: &'a [u8]) -> Lines<'a> {
        Lines {
            rest: text,
            number: 1,
        }
    }

    /// Passes a line. Returns false if no further one is there.
    fn pass(&mut self) -> bool {
        let Some(at) = self.rest.iter().position(|byte| *byte == b'\n') else {
            return false;
        };
        self.rest = self.rest.get(at.saturating_add(1)..).unwrap_or(&[]);
        self.number = self.number.saturating_add(1);
        true
    }

    /// Returns the line of a number, without its end. It doesn't come before that of the last call.
    pub(crate) fn line(&mut self, number: u64) -> &'a [u8] {
        let count = self.rest.len();
        for _ in 0..count {
            if self.number >= number || !self.pass() {
                break;
            }
        }
        let end = self
            .rest
            .iter()
            .position(|byte| *byte == b'\n' || *byte == b'\r')
            .unwrap_or(self.rest.len());
        self.rest.get(..end).unwrap_or(&[])
    }
}

/// The part of a line around a place.
#[derive(Drop)]
pub(crate) struct Snippet {
    /// The text before the place and from it on, with spaces for tabs, and `…` for what is left out.
    pub(crate) before: String,
    pub(crate) after: String,
}

/// Counts the characters of a line before a column, which counts UTF-16 units from 1.
fn characters_before(line: &str, column: u64) -> usize {
    let mut units: u64 = 1;
    let mut count: usize = 0;
    for c in line.chars() {
        if units >= column {
            break;
        }
        units = units.saturating_add(c.len_utf16() as u64);
        count = count.saturating_add(1);
    }
    count
}

/// Adds a character to a line, with four spaces for a tab.
fn add_character(text: &mut String, c: char) -> Result<(), AllocError> {
    if c == '\t' {
        text.push_str("    ")
    } else {
        text.push(c)
    }
}

/// Adds the first characters of a line after some that are skipped, and `…` if there are more.
fn add_part(
    text: &mut String,
    line: &str,
    (skipped, count): (usize, usize),
    is_last: bool,
) -> Result<(), AllocError> {
    for c in line.chars().skip(skipped).take(count) {
        add_character(text, c)?;
    }
    if is_last && line.chars().nth(skipped.saturating_add(count)).is_some() {
        text.push('…')?;
    }
    Ok(())
}

impl Snippet {
    /// Returns the part of a line around a column.
    pub(crate) fn of(alloc: Global, line: &str, column: u64) -> Result<Snippet, AllocError> {
        let place = characters_before(line, column);
        let skipped = place.saturating_sub(AROUND);
        let mut before = String::new(alloc);
        if skipped > 0 {
            before.push('…')?;
        }
        add_part(
            &mut before,
            line,
            (skipped, place.saturating_sub(skipped)),
            false,
        )?;
        let mut after = String::new(alloc);
        add_part(&mut after, line, (place, AROUND), true)?;
        Ok(Snippet { before, after })
    }

    /// Returns the number of a terminal's columns before the place.
    pub(crate) fn width(&self, alloc: Global, console: Console) -> Result<usize, AllocError> {
        let shown = format!(in alloc; "{}", console.on_stdout(self.before.as_str()))?;
        let mut width: usize = 0;
        for c in shown.as_str().chars() {
            width = width.saturating_add(columns_of(c));
        }
        Ok(width)
    }
}

/// Returns the columns of a terminal that a character takes: none for a mark on another one, and
/// two for those of East Asia and for pictures.
fn columns_of(c: char) -> usize {
    match c {
        '\0'..='\u{1f}' | '\u{7f}'..='\u{9f}' => 0,
        '\u{300}'..='\u{36f}' | '\u{200b}'..='\u{200f}' | '\u{202a}'..='\u{202e}' => 0,
        '\u{2060}'..='\u{206f}' | '\u{fe00}'..='\u{fe0f}' | '\u{feff}' => 0,
        '\u{1100}'..='\u{115f}' | '\u{2e80}'..='\u{303e}' | '\u{3041}'..='\u{a4cf}' => 2,
        '\u{ac00}'..='\u{d7a3}' | '\u{f900}'..='\u{faff}' | '\u{fe30}'..='\u{fe6f}' => 2,
        '\u{ff00}'..='\u{ff60}' | '\u{ffe0}'..='\u{ffe6}' => 2,
        '\u{1f300}'..='\u{1f64f}' | '\u{1f900}'..='\u{1f9ff}' | '\u{20000}'..='\u{3fffd}' => 2,
        _ => 1,
    }
}
