use crate::units::is_blank;

/// The end of a string at which it has other blanks than its source.
#[derive(Clone, Copy)]
pub enum Edge {
    /// It begins with a blank, and its source doesn't, or the other way round.
    First { is_lost: bool },
    /// It ends with a blank, and its source doesn't, or the other way round.
    Last { is_lost: bool },
    /// It has `\n` in two characters, at this unit, where its source has a line feed.
    Spelled(usize),
}

fn is_blank_at(unit: Option<&u16>) -> bool {
    match unit {
        Some(unit) => is_blank(*unit),
        None => false,
    }
}

/// Finds a backslash before `n` in a text.
fn spelled_feed(text: &[u16]) -> Option<usize> {
    let mut is_escape = false;
    for (at, unit) in text.iter().enumerate() {
        if is_escape && *unit == 0x6E {
            return at.checked_sub(1);
        }
        is_escape = *unit == 0x5C;
    }
    None
}

/// Returns where a line feed of a string's source is two characters.
fn spelled(here: &[u16], source: &[u16]) -> Option<Edge> {
    match (spelled_feed(here), spelled_feed(source)) {
        (Some(at), None) if source.contains(&0x0A) => Some(Edge::Spelled(at)),
        _ => None,
    }
}

/// Returns how the blanks at the ends of a string differ from those of its source, or where a line feed of
/// its source is two characters. Neither is empty.
pub fn other_blanks(here: &[u16], source: &[u16]) -> [Option<Edge>; 3] {
    let (first, last) = (is_blank_at(here.first()), is_blank_at(here.last()));
    let (root_first, root_last) = (is_blank_at(source.first()), is_blank_at(source.last()));
    [
        if first == root_first {
            None
        } else {
            Some(Edge::First {
                is_lost: root_first,
            })
        },
        if last == root_last {
            None
        } else {
            Some(Edge::Last { is_lost: root_last })
        },
        spelled(here, source),
    ]
}
