ghost use Rattle.std.specs.Prelude.{◌≡◌, unwrap_or};
ghost use Rattle.rb_tree.specs.Parts.{kind_of, len_of};
ghost use Rattle.rb_views.specs.Seen.{tree_seen};
ghost use Rattle.rb_views.specs.Parts.{uint_of};
ghost use Rattle.resb.specs.Looks.{kind_number};

use rb_tree::{Kind, Node};
use rb_views::Item;
use std::ptr::{NonNull, null_mut};

/// An item that a lookup found. `at` points into the file that the engine stores, until the next
/// change.
#[repr(C)]
#[derive(Drop)]
pub struct Found {
    pub at: *mut u8,
    pub count: usize,
    pub kind: u32,
    pub number: u32,
}

/// Returns where bytes begin, or null if there are none.
pub(crate) fn start_of(bytes: &[u8]) -> *mut u8 {
    match bytes.first() {
        Some(first) => NonNull::from_ref(first).as_ptr(),
        None => null_mut(),
    }
}

/// Returns where the contents of an item begin, or null for an int, an array and a table.
fn contents_of(item: Item<'_>) -> *mut u8 {
    if let Some(units) = item.text() {
        return start_of(units.bytes());
    }
    if let Some(bytes) = item.binary() {
        return start_of(bytes);
    }
    if let Some(numbers) = item.ints() {
        return start_of(numbers.bytes());
    }
    if let Some(units) = item.alias() {
        return start_of(units.bytes());
    }
    null_mut()
}

/// Returns the number that a kind has in ICU's `UResType`.
fn number_of(kind: Kind) -> u32
    ensures { result ≡ kind_number kind }
{
    match kind {
        Kind::String => 0,
        Kind::Binary => 1,
        Kind::Table => 2,
        Kind::Alias => 3,
        Kind::Int => 7,
        Kind::Array => 8,
        Kind::Ints => 14,
    }
}

impl Found {
    pub(crate) fn of(item: Item<'_>) -> Found
        ensures kind { result.kind ≡ kind_number (kind_of (tree_seen item.entry)) }
        ensures count { result.count ≡ len_of (tree_seen item.entry) }
        ensures number { result.number ≡ unwrap_or (uint_of (tree_seen item.entry)) 0 }
    {
        let kind = item.kind();
        let count = item.len();
        let number = item.uint().unwrap_or(0);
        Found {
            at: contents_of(item),
            count,
            kind: number_of(kind),
            number,
        }
    }
}
