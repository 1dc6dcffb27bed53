//! Checks an item and all items below it, and enters each table and array once.
ghost use Rattle.std.specs.Prelude.{◌≡◌, ◌≢◌, ◌⊎◌, true, ℕ, ◌+◌, ◌*◌, ◌≤◌, ◌<◌, length, Some, Ok};
ghost use Rattle.std.specs.Prelude.{Err, IfOk};
ghost use Rattle.rb_format.specs.inner.FirstFault.{result_map, within, contents, read};
ghost use Rattle.rb_format.specs.Item.{kind_of, offset_of};
ghost use Rattle.rb_format.specs.Place as fields;
ghost use Rattle.rb_tree.specs.Resource.{height, trees_height};
ghost use Rattle.rb_validator.specs.inner.KnownKeys.{IsSound};
ghost use Rattle.rb_validator.specs.inner.Marks.{mark_at, IsKnown, IsMet, Keeps, Leads, After};
ghost use Rattle.rb_validator.specs.inner.Marks.{run_of, IsRunKnown};
ghost use Rattle.rb_validator.specs.inner.CachedSpans.{AreRuns};
ghost use Rattle.rb_format.specs.Geometry as geometry;

use crate::body::{Body, Checked};
use crate::items::children::{Children, find_children, has_children};
use crate::items::leaves::{check_leaf, check_offset};
use crate::items::memo::VisitState;
use crate::items::state::CheckState;
use rb_format::{FileFault, ItemKind, item_kind, item_offset, word_at};

/// Returns the height of an item's tree if it is at most `left`, or the first fault or `Memory`. It
/// is inlined because most items have no children; the recursion goes through `check_inner`.
#[cycle(check)]
#[inline(always)]
pub fn check_item(body: Body<'_>, state: &mut CheckState, item: u32, left: u8) -> Checked<u8>
    requires room { 4 * body.layout.now.top ≤ length body.bytes.now }
    requires tops { body.layout.now.keys_top ≤ body.layout.now.top }
    requires small { left < 65 }
    requires met { IsMet body.bytes.now item }
    requires sound { IsSound body.layout.now body.bytes.now state.old.keys.known }
    requires keeps { Keeps body.layout.now body.bytes.now state.old.memo }
    requires holds { AreRuns body.layout.now body.bytes.now state.old.memo state.old.runs }
    requires leads { Leads body.layout.now body.bytes.now state.old.memo
        (λ e. read body.layout.now body.bytes.now e item ≡ Err FileFault.TooDeep) }
    ensures value { (result ≡ Err FileFault.Memory)
        ⊎ (result ≡ result_map height (read body.entry.layout.now body.entry.bytes.now left item)) }
    ensures sound { IsSound body.entry.layout.now body.entry.bytes.now state.new.keys.known }
    ensures after { IfOk result
        (λ _. After body.entry.layout.now body.entry.bytes.now state.old.memo state.new.memo) }
    ensures holds { IfOk result
        (λ _. AreRuns body.entry.layout.now body.entry.bytes.now state.new.memo state.new.runs) }
    ensures known { IfOk result (λ _. IsKnown state.new.memo item) }
{
    if left == 0 {
        return Err(FileFault::TooDeep);
    }
    match item_kind(item) {
        Some(kind) => {
            let offset = item_offset(item);
            if !check_offset(body.layout, kind, offset)? {
                return Ok(1);
            }
            if has_children(kind) {
                check_inner(body, state, item, kind, left - 1)
            } else {
                check_leaf(body, kind, offset)?;
                state.note(body, kind, offset);
                Ok(1)
            }
        }
        None => Err(FileFault::ItemType),
    }
}

/// Returns the height of a table or an array with data, which is entered unless its height is
/// known.
#[cycle(check)]
#[inline(never)]
fn check_inner(
    body: Body<'_>,
    state: &mut CheckState,
    item: u32,
    kind: ItemKind,
    left: u8,
) -> Checked<u8>
    requires room { 4 * body.layout.now.top ≤ length body.bytes.now }
    requires tops { body.layout.now.keys_top ≤ body.layout.now.top }
    requires small { left < 64 }
    requires met { IsMet body.bytes.now item }
    requires sound { IsSound body.layout.now body.bytes.now state.old.keys.known }
    requires is_kind { kind_of item ≡ Some kind }
    requires inner { geometry.has_children kind ≡ true }
    requires full { 0 < offset_of item }
    requires there { within body.layout.now kind (offset_of item) ≡ Ok true }
    requires below { offset_of item < body.layout.now.top }
    requires keeps { Keeps body.layout.now body.bytes.now state.old.memo }
    requires holds { AreRuns body.layout.now body.bytes.now state.old.memo state.old.runs }
    requires leads { Leads body.layout.now body.bytes.now state.old.memo
        (λ e. read body.layout.now body.bytes.now e item ≡ Err FileFault.TooDeep) }
    ensures value { (result ≡ Err FileFault.Memory)
        ⊎ (result ≡ result_map height (contents body.entry.layout.now body.entry.bytes.now
        (λ w. read body.entry.layout.now body.entry.bytes.now left w) (offset_of item) kind)) }
    ensures sound { IsSound body.entry.layout.now body.entry.bytes.now state.new.keys.known }
    ensures after { IfOk result
        (λ _. After body.entry.layout.now body.entry.bytes.now state.old.memo state.new.memo) }
    ensures holds { IfOk result
        (λ _. AreRuns body.entry.layout.now body.entry.bytes.now state.new.memo state.new.runs) }
    ensures known { IfOk result (λ _. mark_at state.new.memo kind (offset_of item) ≢ 0) }
    ensures shared { mark_at state.old.memo kind (offset_of item) ≢ 0 → state.new ≡ state.old }
{
    let offset = item_offset(item);
    match state.memo.mark(kind, offset) {
        VisitState::New => {
            state.memo.enter(kind, offset);
            let found = find_children(body, &mut state.keys, kind, offset)?;
            let below = check_items(body, state, found, left)?;
            state.memo.finish(kind, offset, below + 1);
            Ok(below + 1)
        }
        VisitState::Open => Err(FileFault::TooDeep),
        VisitState::Done(height) => {
            if height <= left + 1 {
                Ok(height)
            } else {
                Err(FileFault::TooDeep)
            }
        }
    }
}

/// Returns the greatest height of some items. Checks them one by one, or splits the span in two and
/// stores what it finds if the span is one that is stored.
#[cycle(check)]
fn check_items(body: Body<'_>, state: &mut CheckState, items: Children, left: u8) -> Checked<u8>
    requires room { 4 * body.layout.now.top ≤ length body.bytes.now }
    requires tops { body.layout.now.keys_top ≤ body.layout.now.top }
    requires small { left < 64 }
    requires items { items.first + items.count ≤ body.layout.now.top }
    requires met { (i : ℕ) → i < items.count
        → IsMet body.bytes.now (fields.word_at body.bytes.now (items.first + i)) }
    requires sound { IsSound body.layout.now body.bytes.now state.old.keys.known }
    requires keeps { Keeps body.layout.now body.bytes.now state.old.memo }
    requires holds { AreRuns body.layout.now body.bytes.now state.old.memo state.old.runs }
    requires leads { Leads body.layout.now body.bytes.now state.old.memo
        (λ e. run_of body.layout.now body.bytes.now e items.first items.count
        ≡ Err FileFault.TooDeep) }
    ensures value { (result ≡ Err FileFault.Memory) ⊎ (result ≡ result_map trees_height
        (run_of body.entry.layout.now body.entry.bytes.now left items.first items.count)) }
    ensures low { IfOk result (λ h. h ≤ left) }
    ensures sound { IsSound body.entry.layout.now body.entry.bytes.now state.new.keys.known }
    ensures after { IfOk result
        (λ _. After body.entry.layout.now body.entry.bytes.now state.old.memo state.new.memo) }
    ensures holds { IfOk result
        (λ _. AreRuns body.entry.layout.now body.entry.bytes.now state.new.memo state.new.runs) }
    ensures known { IfOk result
        (λ _. IsRunKnown body.entry.bytes.now state.new.memo items.first items.count) }
{
    let Children { first, count } = items;
    let Ok(is_plain) = state.runs.is_plain(body, count) else {
        return Err(FileFault::Memory);
    };
    if is_plain {
        let mut height = 0;
        for i in first..first + count {
            let child = check_item(body, state, word_at(body.bytes, i), left)?;
            height = height.max(child);
        }
        return Ok(height);
    }
    if 0 < left && state.runs.are_leaves(first, count) {
        return Ok(1);
    }
    let parts = state.runs.split(first, count);
    if let Some(height) = state.runs.height(parts, first, count) {
        if height <= left {
            return Ok(height);
        }
        return Err(FileFault::TooDeep);
    }
    let before = Children {
        first,
        count: parts.middle - first,
    };
    let after = Children {
        first: parts.middle,
        count: count - before.count,
    };
    let low = check_items(body, state, before, left)?;
    let high = check_items(body, state, after, left)?;
    let height = low.max(high);
    state.runs.keep(parts, first, count, height);
    Ok(height)
}
