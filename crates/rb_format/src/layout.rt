ghost use Rattle.std.specs.Prelude.{◌≡◌, ◌≤◌, length};
ghost use Rattle.rb_format.specs.File as files;
ghost use Rattle.rb_format.specs.Place.{layout_of};

use crate::constants::INDEX_COUNT;
use crate::place::word_at;

/// The bounds that a file's indexes give, in words from the root item.
#[derive(Clone, Copy, PartialEq, Eq)]
pub struct Layout {
    /// The number of indexes, which follow the root item.
    pub indexes: u32,
    pub keys_top: u32,
    pub top: u32,
}

impl Layout {
    pub fn of(body: &[u8]) -> Layout
        requires { 24 ≤ length body.now }
        ensures { result ≡ layout_of body.now }
    {
        Layout {
            indexes: word_at(body, 1),
            keys_top: word_at(body, 2),
            top: word_at(body, 4),
        }
    }
}

/// Checks that the indexes are present, and their ends in order: the keys, the resources and the
/// bundle end in this order within the data.
pub fn has_valid_indexes(body: &[u8]) -> bool
    ensures { result ≡ files.has_valid_indexes body.now }
{
    body.len() >= 24 && are_in_order(body)
}

fn are_in_order(body: &[u8]) -> bool
    requires { 24 ≤ length body.now }
    ensures { result ≡ files.are_in_order body.now }
{
    let indexes = word_at(body, 1);
    let keys_top = word_at(body, 2);
    let resources_top = word_at(body, 3);
    let top = word_at(body, 4);
    INDEX_COUNT <= indexes
        && indexes < keys_top
        && keys_top <= resources_top
        && resources_top <= top
        && top as usize <= body.len() / 4
}
