//! Finds spans of items that are leaves. Overlapping arrays and tables mostly overlap in leaves;
//! one number for each unit avoids checking the same leaves again.
ghost use Rattle.std.specs.Prelude.{◌≡◌, ◌*◌, ◌+◌, ◌≤◌, ◌<◌, ◌^◌, ℕ, List, true, length, IfOk};
ghost use Rattle.rb_format.specs.Place as fields;
ghost use Rattle.rb_format.specs.declared.layout.Layout.{Layout as Bounds};
ghost use Rattle.rb_validator.specs.inner.Leaves.{AreLeaves, IsLeaf};

use crate::body::Body;
use crate::items::children::has_children;
use crate::items::leaves::{check_leaf, check_offset};
use crate::lists::number_at;
use crate::text_blocks::is_long_alias;
use rb_format::{item_kind, item_offset, word_at};
use std::alloc::{AllocError, Global};

pub const UNIT: usize = 32;

/// Checks whether an item is a valid leaf. A long alias doesn't count as one, because it is noted
/// when it is checked by itself.
fn is_leaf(body: Body<'_>, item: u32) -> bool
    requires { 4 * body.layout.now.top ≤ length body.bytes.now }
    ensures { result ≡ true → IsLeaf body.entry.layout.now body.entry.bytes.now item }
{
    let Some(kind) = item_kind(item) else {
        return false;
    };
    let offset = item_offset(item);
    match check_offset(body.layout, kind, offset) {
        Ok(false) => true,
        Ok(true) => {
            if is_long_alias(body, kind, offset) {
                return false;
            }
            !has_children(kind) && check_leaf(body, kind, offset).is_ok()
        }
        Err(_) => false,
    }
}

fn is_leaf_unit(body: Body<'_>, unit: usize) -> bool
    requires room { 4 * body.layout.now.top ≤ length body.bytes.now }
    requires within { 32 * (unit + 1) ≤ body.layout.now.top }
    ensures { result ≡ true → (w : ℕ) → 32 * unit ≤ w → w < 32 * (unit + 1)
        → IsLeaf body.entry.layout.now body.entry.bytes.now
        (fields.word_at body.entry.bytes.now w) }
{
    for word in UNIT * unit..UNIT * (unit + 1) {
        if !is_leaf(body, word_at(body.bytes, word)) {
            return false;
        }
    }
    true
}

/// Counts for each whole unit how many consecutive units from it on consist of leaves.
pub fn count_leaves(alloc: Global, body: Body<'_>) -> Result<Vec<u32>, AllocError>
    requires { 4 * body.layout.now.top ≤ length body.bytes.now }
    ensures { IfOk result
        (λ v. AreLeaves body.entry.layout.now body.entry.bytes.now v.items) }
{
    let units = body.layout.top as usize / UNIT;
    let mut leaves = vec![in alloc; 0u32; units]?;
    for unit in (0..units).rev() {
        if is_leaf_unit(body, unit) {
            leaves[unit] = number_at(&leaves, unit + 1).saturating_add(1);
        }
    }
    Ok(leaves)
}

pub fn is_leaf_run(leaves: &[u32], first: usize, count: usize) -> bool
    ensures some { result ≡ true → 0 < count }
    ensures leaves { result ≡ true → (y : Bounds) (body : List ℕ) → AreLeaves y body leaves.now → (w : ℕ)
        → first ≤ w → w < first + count → IsLeaf y body (fields.word_at body w) }
{
    let known = number_at(leaves, first / UNIT) as usize;
    0 < count && first % UNIT == 0 && count <= UNIT * known
}

/// Splits off the whole units of a span if they consist of leaves.
pub fn leaf_middle(leaves: &[u32], first: usize, count: usize) -> Option<usize>
    requires { first + count < 2 ^ 50 }
{
    let stop = first + count;
    let from = first.div_ceil(UNIT);
    let past = stop / UNIT;
    if past <= from || past - from > number_at(leaves, from) as usize {
        return None;
    }
    if first < UNIT * from {
        Some(UNIT * from)
    } else {
        Some(UNIT * past)
    }
}
