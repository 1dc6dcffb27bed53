//! Patterns of names and of paths.

/// The places to continue from if the bytes after a star don't match.
#[derive(Clone, Copy)]
struct Star {
    /// The place after the star.
    pattern: usize,
    /// The bytes that the star has taken, and one more.
    name: usize,
}

/// A search for a match.
#[derive(Clone, Copy)]
struct Match<'a> {
    pattern: &'a [u8],
    name: &'a [u8],
    at: usize,
    name_at: usize,
    /// The last `*`, and the last `**`.
    near: Option<Star>,
    far: Option<Star>,
}

impl<'a> Match<'a> {
    /// Enters a star.
    fn enter(&mut self, is_far: bool) {
        let width = if is_far { 2 } else { 1 };
        self.at = self.at.saturating_add(width);
        let star = Star {
            pattern: self.at,
            name: self.name_at,
        };
        if is_far {
            self.far = Some(star);
            self.near = None;
        } else {
            self.near = Some(star);
        }
    }

    /// Continues after a star that takes one more byte. Returns false if there is none.
    fn retreat(&mut self) -> bool {
        if let Some(star) = self.near {
            if let Some(byte) = self.name.get(star.name) {
                if *byte != b'/' {
                    return self.resume(star, false);
                }
            }
        }
        match self.far {
            Some(star) if star.name < self.name.len() => self.resume(star, true),
            _ => false,
        }
    }

    fn resume(&mut self, star: Star, is_far: bool) -> bool {
        let next = Star {
            pattern: star.pattern,
            name: star.name.saturating_add(1),
        };
        self.at = next.pattern;
        self.name_at = next.name;
        if is_far {
            self.far = Some(next);
            self.near = None;
        } else {
            self.near = Some(next);
        }
        true
    }

    /// Takes one step. Returns whether the name matches, once that is known.
    fn step(&mut self) -> Option<bool> {
        let rest = self.pattern.get(self.at..).unwrap_or(&[]);
        let byte = self.name.get(self.name_at);
        match (rest, byte) {
            ([b'*', b'*', ..], _) => {
                self.enter(true);
                None
            }
            ([b'*', ..], _) => {
                self.enter(false);
                None
            }
            ([], None) => Some(true),
            ([wanted, ..], Some(byte)) if wanted == byte || *wanted == b'?' && *byte != b'/' => {
                self.at = self.at.saturating_add(1);
                self.name_at = self.name_at.saturating_add(1);
                None
            }
            _ if self.retreat() => None,
            _ => Some(false),
        }
    }
}

/// Checks whether a pattern matches a whole name or path. `*` is any bytes but slashes, `**` any
/// bytes, and `?` one byte but a slash.
///
/// ```rust
/// matches(b"texts/**/*.txt", b"texts/shop/menu/de.txt") // true
/// matches(b"texts/*.txt", b"texts/shop/de.txt") // false
/// ```
pub fn matches(pattern: &[u8], name: &[u8]) -> bool {
    let mut search = Match {
        pattern,
        name,
        at: 0,
        name_at: 0,
        near: None,
        far: None,
    };
    for _ in 0..u64::MAX {
        if let Some(is_match) = search.step() {
            return is_match;
        }
    }
    false
}
