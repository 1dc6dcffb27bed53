//! The items of a table or an array, described by one lookup.
ghost use Rattle.std.specs.Prelude.{◌≡◌, ◌≢◌, ◌<◌, IfNone, IfSome, Some, length, map};
ghost use Rattle.std.specs.Prelude.{drop, option_map, slice_get, take};
ghost use Rattle.rb_views.specs.Seen.{tree_seen};
ghost use Rattle.rb_handle.specs.Stored.{engine_of};
ghost use Rattle.resb.specs.Children.{CopiesChildren, children_of, listed, shown, shown_child};
ghost use Rattle.resb.specs.Children.{size_of};
ghost use Rattle.resb.specs.Looks.{answer_in};
ghost use Rattle.resb.specs.inner.Query.{answer_to};

use crate::found::{Found, start_of};
use crate::looks::{Query, with_open};
use crate::numbers::{NO_ROOM, OTHER_KIND, look_number, or_number};
use rb_engine::Engine;
use rb_handle::Handle;
use rb_views::{Array, Item, Table};
use std::alloc::Global;

/// An item of a table, with its key, or of an array. `key` and `item.at` point into the file that
/// the engine stores, until the next change.
#[repr(C)]
#[derive(Drop)]
pub struct Child {
    pub key: *mut u8,
    pub key_len: usize,
    pub item: Found,
}

/// The items of a table or of an array.
#[derive(Clone, Copy)]
enum Items<'a> {
    Table(Table<'a>),
    Array(Array<'a>),
}

fn items_of(item: Item<'_>) -> Option<Items<'_>>
    ensures { option_map listed result ≡ children_of (tree_seen item.entry) }
{
    if let Some(table) = item.table() {
        return Some(Items::Table(table));
    }
    Some(Items::Array(item.array()?))
}

fn count_of(items: Items<'_>) -> usize
    ensures listed { result ≡ length (listed items.entry) }
    ensures size { result ≡ size_of items.entry }
{
    match items {
        Items::Table(table) => table.len(),
        Items::Array(array) => array.len(),
    }
}

fn child_of(key: &[u8], item: Item<'_>) -> Child
    ensures { shown_child result ≡ shown key.now (tree_seen item.entry) }
{
    Child {
        key: start_of(key),
        key_len: key.len(),
        item: Found::of(item),
    }
}

#[tactic(auto, using(crate::proofs::Shown::entry_shown, crate::proofs::Shown::item_shown))]
fn child_at(items: Items<'_>, i: usize) -> Child
    requires { i < size_of items }
    ensures { Some (shown_child result) ≡ slice_get (listed items.entry) i }
{
    match items {
        Items::Table(table) => child_of(table.key(i), table.item(i)),
        Items::Array(array) => child_of(&[], array.item(i)),
    }
}

#[tactic(auto, using(crate::proofs::Shown::one_more))]
fn describe_all(items: Items<'_>, out: &mut [Child])
    requires { length (listed items) ≡ length out.old }
    ensures { map shown_child out.new ≡ listed items.entry }
{
    for i in 0..count_of(items) {
        out[i] = child_at(items, i);
    }
}

fn children_in(engine: &Engine, query: Query<'_>, out: &mut [Child], count: &mut usize) -> u32
    ensures children { CopiesChildren (answer_to engine.now query.entry) result count.new
        (length out.old) (map shown_child (take count.new out.new)) }
    ensures beyond { result ≡ 0 → drop count.new out.new ≡ drop count.new out.old }
    ensures unchanged { result ≢ 0 → out.new ≡ out.old }
{
    let item = or_number!(engine.look(query.app, query.locale, query.path) => look_number).node;
    let Some(items) = items_of(item) else {
        return OTHER_KIND;
    };
    *count = count_of(items);
    if *count > out.len() {
        return NO_ROOM;
    }
    describe_all(items, &mut out[..*count]);
    0
}

/// Looks up a table or an array, and describes its items in their order. For a short `out` it
/// writes only their number.
#[unsafe(no_mangle)]
pub extern "C" fn resb_children(
    alloc: Global,
    handle: &mut Handle,
    app: &[u8],
    locale: &[u8],
    path: &[u8],
    out: &mut [Child],
    count: &mut usize,
) -> u32
    ensures stays { engine_of handle.new ≡ engine_of handle.old }
    ensures children { IfSome (engine_of handle.old) (λ e. CopiesChildren
        (answer_in e app.now locale.now path.now) result count.new (length out.old)
        (map shown_child (take count.new out.new))) }
    ensures beyond { result ≡ 0 → drop count.new out.new ≡ drop count.new out.old }
    ensures unchanged { result ≢ 0 → out.new ≡ out.old }
    ensures closed { IfNone (engine_of handle.old) (result ≡ 2) }
{
    let query = Query { app, locale, path };
    with_open!(alloc, handle, query, engine => children_in(&engine, query, out, count))
}
