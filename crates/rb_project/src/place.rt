//! Finds the place of a key in a settings file.

/// The header of a table: its name, and its number among those of the name.
#[derive(Clone, Copy)]
pub(crate) struct Header<'a> {
    pub(crate) name: &'a str,
    pub(crate) number: usize,
}

/// Returns the name in a header's line, or None for another line.
fn header_name(line: &str) -> Option<&str> {
    let inside = line.trim_start().strip_prefix('[')?;
    let (name, _) = inside.trim_start_matches('[').split_once(']')?;
    Some(name.trim())
}

/// Returns the key in the line of an entry, or the whole line.
fn line_key(line: &str) -> &str {
    let key = match line.split_once('=') {
        Some((key, _)) => key,
        None => line,
    };
    key.trim().trim_matches('"')
}

/// Returns the column of the first character of a line that isn't blank.
fn first_column(line: &str) -> u64 {
    (line.chars().take_while(|c| c.is_whitespace()).count() as u64).saturating_add(1)
}

/// Returns the line and the column of a key below a header, those of the header if its table has
/// no line of the key, or 1 and 1 if no line is the header's. The empty name is the top of the
/// file, and the empty key the header itself.
pub(crate) fn place_of(text: &str, header: Header<'_>, key: &str) -> (u64, u64) {
    let mut place = (1, 1);
    let mut is_inside = header.name.is_empty();
    let mut count: usize = 0;
    let mut number: u64 = 0;
    for line in text.split('\n') {
        number = number.saturating_add(1);
        if let Some(name) = header_name(line) {
            let is_named = name == header.name;
            is_inside = is_named && count == header.number;
            if is_named {
                count = count.saturating_add(1);
            }
            if is_inside {
                place = (number, first_column(line));
            }
        } else if is_inside && !key.is_empty() && line_key(line) == key {
            return (number, first_column(line));
        }
    }
    place
}

/// Returns the line and the column of a byte.
pub(crate) fn position(text: &str, at: usize) -> (u64, u64) {
    let before = text.get(..at).unwrap_or(text);
    let lines = before.bytes().filter(|byte| *byte == b'\n').count() as u64;
    let last = match before.rsplit_once('\n') {
        Some((_, last)) => last,
        None => before,
    };
    (
        lines.saturating_add(1),
        (last.chars().count() as u64).saturating_add(1),
    )
}
