ghost use Rattle.std.specs.Prelude.{◌≡◌, ◌+◌, ◌*◌, ◌≤◌, ◌<◌, ◌^◌, length};
ghost use Rattle.rb_format.specs.Geometry as parts;
ghost use Rattle.rb_format.specs.Geometry.{key_offset, keys_end};
ghost use Rattle.rb_format.specs.Place as places;

use crate::place::{half_at, word_at};

/// The position of a table's first key offset, in half words or in words.
#[derive(Clone, Copy, PartialEq, Eq)]
pub enum KeyPlaces {
    Halves(usize),
    Words(usize),
}

impl KeyPlaces {
    /// Returns the offset of key i, in bytes from the root item.
    pub fn offset(self, body: &[u8], i: usize) -> u32
        requires { keys_end self (i + 1) ≤ length body.now }
        ensures { result ≡ key_offset body.now self i }
    {
        match self {
            KeyPlaces::Halves(first) => u32::from(half_at(body, first + i)),
            KeyPlaces::Words(first) => word_at(body, first + i),
        }
    }
}

#[derive(Clone, Copy, PartialEq, Eq)]
pub struct TableParts {
    pub keys: KeyPlaces,
    /// The index of the first item's word.
    pub first: usize,
    pub count: usize,
}

impl TableParts {
    pub fn item(self, body: &[u8], i: usize) -> u32
        requires { 4 * (self.first + i + 1) ≤ length body.now }
        ensures { result ≡ places.word_at body.now (self.first + i) }
    {
        word_at(body, self.first + i)
    }
}

/// Locates the parts of the table at a word; its count is a half word.
pub fn table_parts(body: &[u8], offset: u32) -> TableParts
    requires { 4 * offset + 2 ≤ length body.now }
    ensures parts { result ≡ parts.table_parts body.now offset }
    ensures small { result.first + result.count < 2 ^ 40 }
{
    let offset = offset as usize;
    let count = half_at(body, 2 * offset) as usize;
    TableParts {
        keys: KeyPlaces::Halves(2 * offset + 1),
        first: offset + (count + 2) / 2,
        count,
    }
}

/// Locates the parts of the long table at a word; its count is a word.
pub fn long_table_parts(body: &[u8], offset: u32) -> TableParts
    requires { 4 * offset + 4 ≤ length body.now }
    ensures parts { result ≡ parts.long_table_parts body.now offset }
    ensures small { result.first + result.count < 2 ^ 40 }
{
    let offset = offset as usize;
    let count = word_at(body, offset) as usize;
    TableParts {
        keys: KeyPlaces::Words(offset + 1),
        first: offset + 1 + count,
        count,
    }
}
