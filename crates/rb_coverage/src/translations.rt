//! The strings of a root that the locales of a module translate.
use rb_compare::{Member, Walk, is_icu_key};
use rb_tree::{Node, Tree};
use std::alloc::{AllocError, Global};
use std::collections::BTreeMap;

/// The number of locales that must translate a string before one that doesn't is doubtful. With one
/// the root's own string may be the doubtful one.
const LEAST: u64 = 2;

/// The length from which paths aren't compared, as findings shorten them.
const PATH_LIMIT: usize = 200;

/// The numbers of locales that have another string than the root's, by paths.
#[derive(Drop)]
pub struct Translations {
    counts: BTreeMap<String, u64>,
}

/// A count of the words of a text.
#[derive(Clone, Copy)]
struct Words {
    count: u64,
    /// The number of letters up to here.
    letters: u64,
    /// The characters since the last blank have a word.
    is_word: bool,
    /// An argument or a tag is open.
    is_open: bool,
}

/// Checks for a letter, of any script.
fn is_letter(unit: u16) -> bool {
    matches!(unit, 0x41..=0x5A | 0x61..=0x7A | 0xC0..=0x1FFF | 0x2C00..=0x2FFF | 0x3041..=0xFDFF)
}

impl Words {
    fn take(&mut self, unit: u16) {
        match unit {
            0x20 | 0x0A | 0xA0 if !self.is_open => {
                self.count = self.count.saturating_add(u64::from(self.is_word));
                self.is_word = false;
                self.letters = 0;
            }
            // `{` and `<`, and what ends the name of an argument or a tag
            0x7B | 0x3C => self.is_open = true,
            0x7D | 0x3E | 0x2C => self.is_open = false,
            unit if is_letter(unit) && !self.is_open => {
                self.letters = self.letters.saturating_add(1);
                self.is_word = self.is_word || self.letters > 1;
            }
            _ => self.letters = 0,
        }
    }
}

/// Checks whether a text has two words. A single one, such as a name or a code, is often the same
/// in another language.
fn is_phrase(units: &[u16]) -> bool {
    let mut words = Words {
        count: 0,
        letters: 0,
        is_word: false,
        is_open: false,
    };
    for unit in units {
        words.take(*unit);
    }
    words.count.saturating_add(u64::from(words.is_word)) > 1
}

/// Returns true if two items are a phrase and its translation.
fn is_translation(here: &Tree, root: &Tree) -> bool {
    let (Tree::String(here), Tree::String(root)) = (here, root) else {
        return false;
    };
    let (here, root) = (here.as_slice(), root.as_slice());
    here != root && !here.is_empty() && is_phrase(root)
}

/// Returns the paths of the root's phrases for which a locale has other strings.
pub fn translated_paths(
    alloc: Global,
    here: &Tree,
    root: &Tree,
) -> Result<Vec<String>, AllocError> {
    let mut paths = Vec::new(alloc);
    let mut walk = Walk::new(alloc);
    walk.add(&[Member::of(0, here), Member::of(1, root)])?;
    for _ in 0..u64::MAX {
        if !walk.advance()? {
            break;
        }
        let (Some(here), Some(root)) = (walk.node(0), walk.node(1)) else {
            continue;
        };
        if is_icu_key(walk.key()) || walk.path().len() >= PATH_LIMIT {
            continue;
        }
        if is_translation(here, root) {
            paths.push(String::from_utf8_lossy(alloc, walk.path())?)?;
        } else if here.kind() == root.kind() {
            walk.enter(&[Member::of(0, here), Member::of(1, root)])?;
        }
    }
    Ok(paths)
}

impl Translations {
    pub fn none(alloc: Global) -> Translations {
        Translations {
            counts: BTreeMap::new(alloc),
        }
    }

    /// Counts the phrases that a locale translates, by their paths.
    pub fn add(&mut self, paths: Vec<String>) -> Result<(), AllocError> {
        for path in paths {
            let count = self.counts.get(&path).map_or(0, |count| *count);
            self.counts.insert(path, count.saturating_add(1))?;
        }
        Ok(())
    }

    /// Checks whether the root's string at a path is a phrase that enough locales translate.
    pub fn has(&self, path: &String) -> bool {
        self.counts.get(path).map_or(0, |count| *count) >= LEAST
    }
}
