//! Checks values without children.
ghost use Rattle.std.specs.Prelude.{◌≡◌, false, ℕ, ◌+◌, ◌*◌, ◌≤◌, ◌<◌, length, Result};
ghost use Rattle.rb_format.specs.inner.FirstFault.{fault_of, units, bytes, numbers, within};
ghost use Rattle.rb_format.specs.inner.FirstFault.{contents};
ghost use Rattle.rb_format.specs.Item as items;
ghost use Rattle.rb_tree.specs.Resource.{Resource};
ghost use Rattle.rb_format.specs.Geometry.{has_children};

use crate::body::{Body, Checked};
use rb_format::{FileFault, ItemKind, Layout, half_at, word_at};

fn has_data(kind: ItemKind, offset: u32) -> bool
    ensures { result ≡ items.has_data kind offset }
{
    kind != ItemKind::Int && offset != 0
}

/// Returns whether an item has data, or `Offset` if it isn't between the keys and the top.
pub fn check_offset(layout: &Layout, kind: ItemKind, offset: u32) -> Checked<bool>
    ensures { result ≡ within layout.now kind offset }
{
    if !has_data(kind, offset) {
        return Ok(false);
    }
    if offset < layout.keys_top {
        return Err(FileFault::Offset);
    }
    if offset < layout.top {
        Ok(true)
    } else {
        Err(FileFault::Offset)
    }
}

#[tactic(auto, unfolding(rb_format::specs::inner::FirstFault::units))]
#[inline(always)]
fn check_units(body: Body<'_>, offset: usize) -> Checked<()>
    requires room { 4 * body.layout.now.top ≤ length body.bytes.now }
    requires below { offset < body.layout.now.top }
    ensures { fault_of result ≡ fault_of (units body.entry.layout.now body.entry.bytes.now offset) }
{
    let count = word_at(body.bytes, offset) as usize;
    if 4 * (body.layout.top as usize) < 4 * offset + 6 + 2 * count {
        return Err(FileFault::Length);
    }
    if half_at(body.bytes, 2 * offset + 2 + count) == 0 {
        Ok(())
    } else {
        Err(FileFault::NotTerminated)
    }
}

#[tactic(auto, unfolding(rb_format::specs::inner::FirstFault::bytes))]
fn check_bytes(body: Body<'_>, offset: usize) -> Checked<()>
    requires room { 4 * body.layout.now.top ≤ length body.bytes.now }
    requires below { offset < body.layout.now.top }
    ensures { fault_of result ≡ fault_of (bytes body.entry.layout.now body.entry.bytes.now offset) }
{
    if 4 * (body.layout.top as usize) < 4 * offset + 4 + word_at(body.bytes, offset) as usize {
        Err(FileFault::Length)
    } else {
        Ok(())
    }
}

#[tactic(auto, unfolding(rb_format::specs::inner::FirstFault::numbers))]
fn check_numbers(body: Body<'_>, offset: usize) -> Checked<()>
    requires room { 4 * body.layout.now.top ≤ length body.bytes.now }
    requires below { offset < body.layout.now.top }
    ensures { fault_of result
        ≡ fault_of (numbers body.entry.layout.now body.entry.bytes.now offset) }
{
    if (body.layout.top as usize) < offset + 1 + word_at(body.bytes, offset) as usize {
        Err(FileFault::Length)
    } else {
        Ok(())
    }
}

#[tactic(auto, unfolding(rb_format::specs::inner::FirstFault::contents))]
#[inline(always)]
pub fn check_leaf(body: Body<'_>, kind: ItemKind, offset: u32) -> Checked<()>
    requires room { 4 * body.layout.now.top ≤ length body.bytes.now }
    requires below { offset < body.layout.now.top }
    requires bare { has_children kind ≡ false }
    ensures { (child : ℕ → Result Resource FileFault) → fault_of result
        ≡ fault_of (contents body.entry.layout.now body.entry.bytes.now child offset kind) }
{
    let offset = offset as usize;
    match kind {
        ItemKind::String => check_units(body, offset),
        ItemKind::Binary => check_bytes(body, offset),
        ItemKind::Alias => check_units(body, offset),
        ItemKind::Ints => check_numbers(body, offset),
        ItemKind::Int => Ok(()),
        ItemKind::Table | ItemKind::LongTable | ItemKind::Array => unreachable!(),
    }
}
