//! Checks the length and the keys of tables and arrays, and finds their items.
ghost use Rattle.std.specs.Prelude.{◌≡◌, ◌⊎◌, ◌+◌, ◌*◌, ◌≤◌, ◌<◌, ◌^◌, length, true, Err};
ghost use Rattle.rb_validator.specs.inner.KnownKeys.{IsSound};
ghost use Rattle.rb_validator.specs.inner.Marks as marks;
ghost use Rattle.rb_validator.specs.inner.Marks.{children_with};
ghost use Rattle.rb_format.specs.Geometry.{keys_end};
ghost use Rattle.rb_format.specs.Geometry as geometry;

use crate::body::{Body, Checked};
use crate::keys::checker::KeyChecker;
use rb_format::{FileFault, ItemKind, TableParts, long_table_parts, table_parts, word_at};

/// The items of a table or an array: the first word's index, and their number.
#[derive(Clone, Copy)]
pub struct Children {
    pub first: usize,
    pub count: usize,
}

pub fn has_children(kind: ItemKind) -> bool
    ensures { result ≡ geometry.has_children kind }
{
    matches!(
        kind,
        ItemKind::Table | ItemKind::LongTable | ItemKind::Array
    )
}

/// Returns the items of a table or an array if its length and its keys are valid, or the first
/// fault or `Memory`.
#[tactic(auto, unfolding(crate::specs::inner::Marks::children_at))]
pub fn find_children(
    body: Body<'_>,
    keys: &mut KeyChecker,
    kind: ItemKind,
    offset: u32,
) -> Checked<Children>
    requires room { 4 * body.layout.now.top ≤ length body.bytes.now }
    requires tops { body.layout.now.keys_top ≤ body.layout.now.top }
    requires sound { IsSound body.layout.now body.bytes.now keys.old.known }
    requires below { offset < body.layout.now.top }
    requires inner { geometry.has_children kind ≡ true }
    ensures value { (result ≡ Err FileFault.Memory)
        ⊎ (result ≡ marks.children_at body.entry.layout.now body.entry.bytes.now kind offset) }
    ensures sound { IsSound body.entry.layout.now body.entry.bytes.now keys.new.known }
{
    match kind {
        ItemKind::Table => table_children(body, keys, table_parts(body.bytes, offset)),
        ItemKind::LongTable => table_children(body, keys, long_table_parts(body.bytes, offset)),
        ItemKind::Array => {
            let first = offset as usize + 1;
            let count = word_at(body.bytes, offset as usize) as usize;
            if (body.layout.top as usize) < first + count {
                return Err(FileFault::Length);
            }
            Ok(Children { first, count })
        }
        _ => unreachable!(),
    }
}

fn table_children(body: Body<'_>, keys: &mut KeyChecker, parts: TableParts) -> Checked<Children>
    requires room { 4 * body.layout.now.top ≤ length body.bytes.now }
    requires tops { body.layout.now.keys_top ≤ body.layout.now.top }
    requires sound { IsSound body.layout.now body.bytes.now keys.old.known }
    requires small { parts.first + parts.count < 2 ^ 40 }
    requires places { parts.first + parts.count ≤ body.layout.now.top
        → keys_end parts.keys parts.count ≤ length body.bytes.now }
    ensures value { (result ≡ Err FileFault.Memory)
        ⊎ (result ≡ children_with body.entry.layout.now body.entry.bytes.now parts) }
    ensures sound { IsSound body.entry.layout.now body.entry.bytes.now keys.new.known }
{
    if (body.layout.top as usize) < parts.first + parts.count {
        return Err(FileFault::Length);
    }
    keys.check_keys(body, parts.keys, parts.count)?;
    Ok(Children {
        first: parts.first,
        count: parts.count,
    })
}
