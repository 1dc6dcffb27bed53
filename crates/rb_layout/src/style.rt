/// The columns of formatted texts.
#[derive(Clone, Copy, PartialEq, Eq)]
pub struct Style {
    /// The spaces for each level.
    pub indent: usize,
    /// The columns of a line, within which items are put on one line.
    pub width: usize,
}

impl Style {
    /// Returns the style of `resb fmt` without settings.
    pub fn standard() -> Style {
        Style {
            indent: 4,
            width: 100,
        }
    }
}
