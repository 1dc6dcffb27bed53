//! Characters that no one writes, but wrong conversions and keyboards do.
use crate::units::{is_among, is_letter, place_of};

/// The damages of a string.
#[derive(Clone, Copy)]
pub enum Damage {
    /// U+FFFD, which stands for what could not be read.
    Replacement,
    /// UTF-8 that was read as Latin-1 or Windows-1252.
    Mojibake,
    /// A letter and its mark as two characters, where other letters with marks are one.
    MixedForms,
    /// A word of Latin and Cyrillic letters that look alike.
    MixedScripts,
}

/// Checks for what the second byte of a character in UTF-8 becomes as Latin-1 or Windows-1252, except
/// quotes, dashes and blanks that stand after letters.
fn is_second(unit: u16) -> bool {
    matches!(unit, 0x80..=0x9F | 0xA1..=0xAA | 0xAC..=0xB6 | 0xB8..=0xBA | 0xBC..=0xBF)
        || is_among(unit, "ŒœŠšŸŽžƒˆ˜†‡•‰€™")
}

/// Checks for a dash or a quote that is the second byte of a character.
fn is_mark(unit: u16) -> bool {
    matches!(unit, 0x2013 | 0x2014 | 0x2018..=0x201E | 0x2039 | 0x203A)
}

/// Checks whether a text begins with a character in UTF-8 that was read as Latin-1 or Windows-1252.
fn is_mojibake(before: Option<u16>, text: &[u16]) -> bool {
    let (Some(first), Some(second)) = (text.first().copied(), text.get(1).copied()) else {
        return false;
    };
    let follows = match text.get(2) {
        Some(unit) => is_letter(*unit),
        None => false,
    };
    let is_inside = match before {
        Some(unit) => is_letter(unit),
        None => false,
    };
    match first {
        0xC2 => matches!(second, 0x80..=0x9F | 0xA1..=0xBF),
        0xC3 => is_second(second) || is_mark(second) && follows && !is_inside,
        0xE2 => second == 0x20AC && text.len() > 2,
        0xC4 | 0xC5 | 0xD0 | 0xD1 => matches!(second, 0x80..=0x9F),
        _ => false,
    }
}

/// Returns the ASCII letters that Unicode can write as one character with a mark.
fn letters_with(mark: u16) -> &'static str {
    match mark {
        0x0300 => "AEINOUWYaeinouwy",
        0x0301 => "ACEGIKLMNOPRSUWYZacegiklmnoprsuwyz",
        0x0302 => "ACEGHIJOSUWYZaceghijosuwyz",
        0x0303 => "AEINOUVYaeinouvy",
        0x0304 => "AEGIOUYaegiouy",
        0x0306 => "AEGIOUaegiou",
        0x0307 => "ABCDEFGHIMNOPRSTWXYZabcdefghmnoprstwxyz",
        0x0308 => "AEHIOUWXYaehiotuwxy",
        0x030A => "AUauwy",
        0x030C => "ACDEGHIKLNORSTUZacdeghijklnorstuz",
        0x0327 => "CDEGHKLNRSTcdeghklnrst",
        0x0328 => "AEIOUaeiou",
        _ => "",
    }
}

/// Checks for a Latin letter with a mark as one character.
fn is_composed(unit: u16) -> bool {
    matches!(unit, 0xC0..=0x17F) && !is_among(unit, "ÆÐ×ØÞßæð÷øþĐđĦħıĲĳĸĿŀŁłŉŊŋŒœŦŧſ")
}

/// Returns the first letter that is apart from its mark, if another one isn't.
fn mixed_form(text: &[u16]) -> Option<usize> {
    let mut apart = None;
    let mut has_composed = false;
    let mut before: u16 = 0;
    for (at, unit) in text.iter().enumerate() {
        if apart.is_none() && is_among(before, letters_with(*unit)) {
            apart = at.checked_sub(1);
        }
        has_composed = has_composed || is_composed(*unit);
        before = *unit;
    }
    if has_composed { apart } else { None }
}

/// Checks for a Cyrillic letter.
fn is_cyrillic(unit: u16) -> bool {
    matches!(unit, 0x0400..=0x0481 | 0x048A..=0x052F)
}

/// Checks for a Cyrillic letter that looks like a Latin one.
fn is_alike(unit: u16) -> bool {
    is_among(unit, "ЅІЈАВЕКМНОРСТХаеорсухѕіј")
}

/// Checks for a Latin letter that looks like a Cyrillic one.
fn is_alike_latin(unit: u16) -> bool {
    is_among(unit, "ABCEHIJKMOPSTXaceijopsxy")
}

/// The letters of a word so far.
#[derive(Clone, Copy)]
struct Word {
    first: usize,
    /// The numbers of Latin and of Cyrillic letters, and of those that look like the other's.
    latin: usize,
    cyrillic: usize,
    alike_latin: usize,
    alike: usize,
}

impl Word {
    fn new(first: usize) -> Word {
        Word {
            first,
            latin: 0,
            cyrillic: 0,
            alike_latin: 0,
            alike: 0,
        }
    }

    fn step(&mut self, unit: u16) {
        if is_letter(unit) {
            self.latin = self.latin.saturating_add(1);
            self.alike_latin = self
                .alike_latin
                .saturating_add(usize::from(is_alike_latin(unit)));
        } else {
            self.cyrillic = self.cyrillic.saturating_add(1);
            self.alike = self.alike.saturating_add(usize::from(is_alike(unit)));
        }
    }

    /// Checks whether all letters of the script with fewer of them look like letters of the other one.
    fn is_mixed(&self) -> bool {
        let total = self.latin.saturating_add(self.cyrillic);
        self.latin > 0
            && self.cyrillic > 0
            && total > 3
            && (self.alike == self.cyrillic && self.cyrillic < self.latin
                || self.alike_latin == self.latin && self.latin < self.cyrillic)
    }
}

/// Returns the first unit of the first word of Latin and Cyrillic letters that look alike.
fn mixed_word(text: &[u16]) -> Option<usize> {
    let mut word = Word::new(0);
    for (at, unit) in text.iter().enumerate() {
        if is_letter(*unit) || is_cyrillic(*unit) {
            word.step(*unit);
        } else {
            if word.is_mixed() {
                return Some(word.first);
            }
            word = Word::new(at.saturating_add(1));
        }
    }
    if word.is_mixed() {
        Some(word.first)
    } else {
        None
    }
}

/// Returns the first unit that is read wrong.
fn mojibake(text: &[u16]) -> Option<usize> {
    let mut before = None;
    for (at, unit) in text.iter().enumerate() {
        if *unit >= 0x80 && is_mojibake(before, text.get(at..).unwrap_or(&[])) {
            return Some(at);
        }
        before = Some(*unit);
    }
    None
}

fn is_ascii(text: &[u16]) -> bool {
    for unit in text {
        if *unit >= 0x80 {
            return false;
        }
    }
    true
}

/// Returns a damage with its place, if it has one.
fn placed(at: Option<usize>, damage: Damage) -> Option<(usize, Damage)> {
    match at {
        Some(at) => Some((at, damage)),
        None => None,
    }
}

/// Returns the damages of a string, each once, with the unit at which it begins.
pub fn damage_in(text: &[u16]) -> [Option<(usize, Damage)>; 4] {
    if is_ascii(text) {
        return [None, None, None, None];
    }
    [
        placed(place_of(text, 0xFFFD), Damage::Replacement),
        placed(mojibake(text), Damage::Mojibake),
        placed(mixed_form(text), Damage::MixedForms),
        placed(mixed_word(text), Damage::MixedScripts),
    ]
}
