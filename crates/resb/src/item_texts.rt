//! Items as JSON: those that lookups find, and those with everything that they inherit.
ghost use Rattle.std.specs.Prelude.{◌≡◌, ◌≢◌, ◌⊎◌, ◌≤◌, IfErr, IfNone, IfOk, IfSome, Ok, Some, length};
ghost use Rattle.std.specs.Prelude.{false, take};
ghost use Rattle.serde_json.specs.Written.{compact_text};
ghost use Rattle.rb_tree.specs.Path.{IsPath, segments};
ghost use Rattle.rb_json.specs.Item.{found_data};
ghost use Rattle.rb_parents.specs.Family.{parent_in, parent_of};
ghost use Rattle.rb_fallback.specs.Search.{Hit, look_up};
ghost use Rattle.rb_inherit.specs.Lookups.{IsTreeOf};
ghost use Rattle.rb_packages.specs.Lent.{bundles_lent};
ghost use Rattle.rb_packages.specs.Packages.{icudata_of, list_of};
ghost use Rattle.rb_packages.specs.Shelf.{bundle_at};
ghost use Rattle.rb_views.specs.Seen.{tree_seen};
ghost use Rattle.rb_engine.specs.Place.{place_of};
ghost use Rattle.rb_engine.specs.declared.place.Place.{Place};
ghost use Rattle.rb_handle.specs.Stored.{engine_of};
ghost use Rattle.resb.specs.Copied.{CopiesBytes};
ghost use Rattle.resb.specs.ItemTexts.{CopiesItem, CopiesItemWithin, CopiesTree, CopiesTreeOf};
ghost use Rattle.resb.specs.Looks.{answer_in, takes_more_in};
ghost use Rattle.resb.specs.inner.Query.{answer_to, exceeds};

use crate::held::with_engine;
use crate::lists::copy_bytes;
use crate::looks::Query;
use crate::numbers::{
    BAD_LOCALE, MEMORY, NO_ROOM, REPLY_TOO_LONG, TOO_MANY_STEPS, TREE_TOO_LARGE, app_number,
    look_number, or_number,
};
use rb_engine::{App, AppShelves, Engine};
use rb_fallback::Found;
use rb_handle::Handle;
use rb_inherit::{TreeError, TreeLimits, tree_text};
use rb_json::{Buffer, put_found};
use rb_locales::Name;
use rb_replies::found_len;
use rb_views::Item;
use std::alloc::Global;

/// Copies an item of this many bytes. Takes no memory for one that is longer than `out`.
fn copy_found(
    alloc: Global,
    found: &Found<Item<'_>>,
    count: u64,
    out: &mut [u8],
    len: &mut usize,
) -> u32
    requires { count ≡ length (compact_text
        (found_data found.now.actual found.now.valid (tree_seen found.now.node))) }
    ensures copied { result ≢ 1 → CopiesBytes (compact_text
        (found_data found.now.actual found.now.valid (tree_seen found.now.node))) result len.new
        (length out.old) (take len.new out.new) }
    ensures unchanged { result ≢ 0 → out.new ≡ out.old }
    ensures same_len { result ≢ 0 → result ≢ 5 → len.new ≡ len.old }
{
    let count = count as usize;
    if count > out.len() {
        *len = count;
        return NO_ROOM;
    }
    let Ok(space) = Vec::with_capacity(alloc, count) else {
        return MEMORY;
    };
    let mut text = Buffer::from_vec(space);
    put_found(
        &mut text,
        found.actual.as_bytes(),
        found.valid.as_bytes(),
        found.node,
    );
    match text.into_bytes() {
        Ok(text) => copy_bytes(&text, out, len),
        Err(_) => MEMORY,
    }
}

/// Copies the item that a lookup finds, unless it has more than this many bytes.
fn copy_item(
    engine: &Engine,
    alloc: Global,
    query: Query<'_>,
    steps: u64,
    bytes: u64,
    out: &mut [u8],
    len: &mut usize,
) -> u32
    ensures within { result ≢ 30 → exceeds engine.now (Some steps) query.entry ≡ false }
    ensures item { exceeds engine.now (Some steps) query.entry ≡ false → result ≢ 1
        → CopiesItemWithin bytes (answer_to engine.now query.entry) result len.new
        (length out.old) (take len.new out.new) }
    ensures unchanged { result ≢ 0 → out.new ≡ out.old }
    ensures same_len { result ≢ 0 → result ≢ 5 → len.new ≡ len.old }
{
    let found = match engine.look_within(query.app, query.locale, query.path, steps) {
        Ok(Ok(found)) => found,
        Ok(Err(fault)) => return look_number(fault),
        Err(_) => return TOO_MANY_STEPS,
    };
    match found_len(&found, bytes) {
        Some(count) => copy_found(alloc, &found, count, out, len),
        None => REPLY_TOO_LONG,
    }
}

/// Looks up like `resb_look_within`, and copies the item that it finds as JSON. For a short `out` it
/// writes only the number of bytes.
#[unsafe(no_mangle)]
pub extern "C" fn resb_item_json(
    alloc: Global,
    handle: &mut Handle,
    app: &[u8],
    locale: &[u8],
    path: &[u8],
    steps: u64,
    out: &mut [u8],
    len: &mut usize,
) -> u32
    ensures stays { engine_of handle.new ≡ engine_of handle.old }
    ensures within { result ≢ 30 → IfSome (engine_of handle.old)
        (λ e. takes_more_in e steps app.now locale.now path.now ≡ false) }
    ensures item { result ≢ 1 → IfSome (engine_of handle.old)
        (λ e. takes_more_in e steps app.now locale.now path.now ≡ false
        → CopiesItem (answer_in e app.now locale.now path.now) result len.new
        (length out.old) (take len.new out.new)) }
    ensures unchanged { result ≢ 0 → out.new ≡ out.old }
    ensures closed { IfNone (engine_of handle.old) (result ≡ 2) }
{
    let bytes = u64::MAX;
    match resb_item_json_within(alloc, handle, app, locale, path, steps, bytes, out, len) {
        // No item has as many bytes as memory.
        REPLY_TOO_LONG => MEMORY,
        number => number,
    }
}

/// Looks up like `resb_item_json`, or returns the number of `ReplyTooLong` if the item has more than
/// this many bytes. Takes no more memory than these.
#[unsafe(no_mangle)]
pub extern "C" fn resb_item_json_within(
    alloc: Global,
    handle: &mut Handle,
    app: &[u8],
    locale: &[u8],
    path: &[u8],
    steps: u64,
    bytes: u64,
    out: &mut [u8],
    len: &mut usize,
) -> u32
    ensures stays { engine_of handle.new ≡ engine_of handle.old }
    ensures within { result ≢ 30 → IfSome (engine_of handle.old)
        (λ e. takes_more_in e steps app.now locale.now path.now ≡ false) }
    ensures item { result ≢ 1 → IfSome (engine_of handle.old)
        (λ e. takes_more_in e steps app.now locale.now path.now ≡ false
        → CopiesItemWithin bytes (answer_in e app.now locale.now path.now) result len.new
        (length out.old) (take len.new out.new)) }
    ensures unchanged { result ≢ 0 → out.new ≡ out.old }
    ensures same_len { result ≢ 0 → result ≢ 5 → len.new ≡ len.old }
    ensures closed { IfNone (engine_of handle.old) (result ≡ 2) }
{
    let query = Query { app, locale, path };
    with_engine!(alloc, handle, engine => {
        copy_item(&engine, alloc, query, steps, bytes, out, len)
    })
}

/// Makes the tree of an item that a lookup finds, or returns the number of the tree's own error.
fn tree_of(
    alloc: Global,
    shelves: AppShelves<'_>,
    name: &Name,
    path: &[u8],
    limits: TreeLimits,
) -> Result<Vec<u8>, u32>
    ensures tree { IfOk result (λ tree. (hit : Hit) → IsPath path.now
        → look_up (bundles_lent shelves.entry.own) (bundles_lent shelves.entry.icudata)
        (parent_of shelves.entry.parents.now) name.now (segments path.now) ≡ Ok hit
        → IsTreeOf (bundles_lent shelves.entry.own) (parent_of shelves.entry.parents.now) name.now
        path.now (λ written. tree.items ≡ written) hit) }
    ensures bytes { IfOk result (λ tree. length tree.items ≤ limits.bytes) }
    ensures error { IfErr result (λ n. (n ≡ 1) ⊎ ((n ≡ 20) ⊎ (n ≡ 30))) }
{
    let AppShelves {
        own,
        icudata,
        parents,
    } = shelves;
    match tree_text(alloc, own, icudata, parents, name, path, limits) {
        Ok(tree) if tree.len() as u64 <= limits.bytes => Ok(tree),
        Ok(_) => Err(TREE_TOO_LARGE),
        Err(TreeError::TooManySteps) => Err(TOO_MANY_STEPS),
        Err(TreeError::TreeTooLarge) => Err(TREE_TOO_LARGE),
        // A lookup found the item, so that of the tree does.
        Err(TreeError::Look(_)) | Err(TreeError::Memory) => Err(MEMORY),
    }
}

/// Copies the tree of an item that a lookup by these names finds.
fn copy_named(
    engine: &Engine,
    alloc: Global,
    query: Query<'_>,
    limits: TreeLimits,
    out: &mut [u8],
    len: &mut usize,
) -> u32
    ensures tree { result ≢ 1 → (hit : Hit) (p : Place)
        → place_of query.entry.app.now query.entry.locale.now ≡ Ok p → IsPath query.entry.path.now
        → look_up (bundle_at (list_of p.app engine.now.packages))
        (bundle_at (icudata_of engine.now.packages)) (parent_in engine.now.parents) p.name
        (segments query.entry.path.now) ≡ Ok hit
        → CopiesTreeOf (bundle_at (list_of p.app engine.now.packages))
        (parent_in engine.now.parents) p.name query.entry.path.now hit result len.new
        (length out.old) (take len.new out.new) }
    ensures bytes { result ≡ 0 → len.new ≤ limits.bytes }
    ensures unchanged { result ≢ 0 → out.new ≡ out.old }
    ensures same_len { result ≢ 0 → result ≢ 5 → len.new ≡ len.old }
{
    let app = or_number!(App::read(query.app) => app_number);
    let Ok(name) = Name::read(query.locale) else {
        return BAD_LOCALE;
    };
    match tree_of(alloc, engine.shelves(&app), &name, query.path, limits) {
        Ok(tree) => copy_bytes(&tree, out, len),
        Err(number) => number,
    }
}

fn copy_tree(
    engine: &Engine,
    alloc: Global,
    query: Query<'_>,
    steps: u64,
    bytes: u64,
    out: &mut [u8],
    len: &mut usize,
) -> u32
    ensures within { result ≢ 30 → exceeds engine.now (Some steps) query.entry ≡ false }
    ensures tree { exceeds engine.now (Some steps) query.entry ≡ false → result ≢ 1
        → CopiesTree engine.now query.entry.app.now query.entry.locale.now query.entry.path.now
        (answer_to engine.now query.entry) result len.new (length out.old) (take len.new out.new) }
    ensures bytes { result ≡ 0 → len.new ≤ bytes }
    ensures unchanged { result ≢ 0 → out.new ≡ out.old }
    ensures same_len { result ≢ 0 → result ≢ 5 → len.new ≡ len.old }
{
    let limits = TreeLimits {
        steps: Some(steps),
        bytes,
    };
    match engine.look_within(query.app, query.locale, query.path, steps) {
        Ok(Ok(_)) => copy_named(engine, alloc, query, limits, out, len),
        Ok(Err(fault)) => look_number(fault),
        Err(_) => TOO_MANY_STEPS,
    }
}

/// Looks up like `resb_look_within`, and copies the item that it finds, with everything that it
/// inherits, as one JSON value. For a short `out` it writes only the number of bytes.
#[unsafe(no_mangle)]
pub extern "C" fn resb_tree_json(
    alloc: Global,
    handle: &mut Handle,
    app: &[u8],
    locale: &[u8],
    path: &[u8],
    steps: u64,
    out: &mut [u8],
    len: &mut usize,
) -> u32
    ensures stays { engine_of handle.new ≡ engine_of handle.old }
    ensures within { result ≢ 30 → IfSome (engine_of handle.old)
        (λ e. takes_more_in e steps app.now locale.now path.now ≡ false) }
    ensures tree { result ≢ 1 → IfSome (engine_of handle.old)
        (λ e. takes_more_in e steps app.now locale.now path.now ≡ false
        → CopiesTree e app.now locale.now path.now (answer_in e app.now locale.now path.now) result
        len.new (length out.old) (take len.new out.new)) }
    ensures unchanged { result ≢ 0 → out.new ≡ out.old }
    ensures closed { IfNone (engine_of handle.old) (result ≡ 2) }
{
    resb_tree_json_within(alloc, handle, app, locale, path, steps, u64::MAX, out, len)
}

/// Looks up like `resb_tree_json`, or returns the number of `TreeTooLarge` if the tree has more than
/// this many bytes. Takes no more memory than these.
#[unsafe(no_mangle)]
pub extern "C" fn resb_tree_json_within(
    alloc: Global,
    handle: &mut Handle,
    app: &[u8],
    locale: &[u8],
    path: &[u8],
    steps: u64,
    bytes: u64,
    out: &mut [u8],
    len: &mut usize,
) -> u32
    ensures stays { engine_of handle.new ≡ engine_of handle.old }
    ensures within { result ≢ 30 → IfSome (engine_of handle.old)
        (λ e. takes_more_in e steps app.now locale.now path.now ≡ false) }
    ensures tree { result ≢ 1 → IfSome (engine_of handle.old)
        (λ e. takes_more_in e steps app.now locale.now path.now ≡ false
        → CopiesTree e app.now locale.now path.now (answer_in e app.now locale.now path.now) result
        len.new (length out.old) (take len.new out.new)) }
    ensures bytes { result ≡ 0 → len.new ≤ bytes }
    ensures unchanged { result ≢ 0 → out.new ≡ out.old }
    ensures same_len { result ≢ 0 → result ≢ 5 → len.new ≡ len.old }
    ensures closed { IfNone (engine_of handle.old) (result ≡ 2) }
{
    let query = Query { app, locale, path };
    with_engine!(alloc, handle, engine => {
        copy_tree(&engine, alloc, query, steps, bytes, out, len)
    })
}
