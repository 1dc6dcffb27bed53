//! The plural categories of languages.
use crate::characters::is_exactly;
use crate::plurals::{CARDINAL, ORDINAL, Row};

/// A plural category of CLDR.
#[derive(Clone, Copy, PartialEq, Eq)]
pub enum Category {
    Zero,
    One,
    Two,
    Few,
    Many,
    Other,
}

impl Category {
    pub const ALL: [Category; 6] = [
        Category::Zero,
        Category::One,
        Category::Two,
        Category::Few,
        Category::Many,
        Category::Other,
    ];

    /// Returns the keyword of messages.
    pub fn name(self) -> &'static str {
        match self {
            Category::Zero => "zero",
            Category::One => "one",
            Category::Two => "two",
            Category::Few => "few",
            Category::Many => "many",
            Category::Other => "other",
        }
    }

    /// Returns the category with a keyword.
    pub fn named(units: &[u16]) -> Option<Category> {
        for category in Category::ALL {
            if is_exactly(units, category.name().as_bytes()) {
                return Some(category);
            }
        }
        None
    }
}

/// The plural categories of a language.
#[derive(Clone, Copy)]
pub struct Categories {
    bits: u8,
    /// Those of integers below a million.
    common: u8,
}

fn has_bit(bits: u8, category: Category) -> bool {
    bits & 1u8 << (category as u8 % 8) != 0
}

/// Returns the categories of a locale or a language, with parts of names between `_`.
fn categories_of(rows: &[Row], name: &str) -> Option<Categories> {
    for (bits, common, names) in rows {
        if names.split(' ').any(|other| other == name) {
            return Some(Categories {
                bits: *bits,
                common: *common,
            });
        }
    }
    None
}

/// Returns the categories of a locale, or those of its language.
fn inherited(rows: &[Row], locale: &str) -> Option<Categories> {
    match categories_of(rows, locale) {
        Some(found) => Some(found),
        None => categories_of(rows, locale.split(|c: char| c == '_' || c == '-').next()?),
    }
}

impl Categories {
    /// Returns the categories of numbers in a locale, such as `de_AT`, if its language is known.
    pub fn cardinal(locale: &str) -> Option<Categories> {
        inherited(&CARDINAL, locale)
    }

    /// Returns the categories of ranks, such as 1st and 2nd.
    pub fn ordinal(locale: &str) -> Option<Categories> {
        inherited(&ORDINAL, locale)
    }

    pub fn has(self, category: Category) -> bool {
        has_bit(self.bits, category)
    }

    /// Checks whether a category has integers below a million.
    pub fn is_common(self, category: Category) -> bool {
        has_bit(self.common, category)
    }
}
