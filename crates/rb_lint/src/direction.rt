/// The open controls of the writing direction in a piece. An editor shows what follows them in
/// another order than that of the text.
#[derive(Clone, Copy)]
pub(crate) struct Direction {
    /// Embeddings and overrides, which U+202C closes.
    embeddings: u64,
    /// Isolates, which U+2069 closes.
    isolates: u64,
}

impl Direction {
    pub(crate) fn new() -> Direction {
        Direction {
            embeddings: 0,
            isolates: 0,
        }
    }

    /// Takes the next character of a piece.
    pub(crate) fn step(&mut self, c: char) {
        match c {
            '\u{202C}' => self.embeddings = self.embeddings.saturating_sub(1),
            '\u{202A}' | '\u{202B}' | '\u{202D}' | '\u{202E}' => {
                self.embeddings = self.embeddings.saturating_add(1);
            }
            '\u{2066}'..='\u{2068}' => self.isolates = self.isolates.saturating_add(1),
            '\u{2069}' => self.isolates = self.isolates.saturating_sub(1),
            _ => {}
        }
    }

    pub(crate) fn is_open(&self) -> bool {
        self.embeddings > 0 || self.isolates > 0
    }
}
