//! Marks blocks of a file's data that consist of units of path segments. An alias may be as long as
//! the file, and a lookup may read many such aliases; it skips the marked blocks.
ghost use Rattle.std.specs.Prelude.{◌≡◌, ◌*◌, ◌+◌, ◌≤◌, ◌<◌, ℕ, true, IfOk, length};
ghost use Rattle.rb_tree.specs.Path as path;
ghost use Rattle.rb_format.specs.Place as fields;
ghost use Rattle.rb_validator.specs.TextBlocks.{AreSegmentBlocks};

use crate::body::Body;
use rb_format::{ItemKind, half_at, word_at};
use std::alloc::{AllocError, Global};

/// The half words of a block.
pub const BLOCK: usize = 1024;

pub fn is_long_alias(body: Body<'_>, kind: ItemKind, offset: u32) -> bool
    requires room { 4 * body.layout.now.top ≤ length body.bytes.now }
    requires below { offset < body.layout.now.top }
{
    kind == ItemKind::Alias && word_at(body.bytes, offset as usize) as usize >= BLOCK
}

fn is_segment_unit(unit: u16) -> bool
    ensures { result ≡ path.is_segment_unit unit }
{
    32 <= unit && unit <= 126 && unit != 47
}

fn is_segment_block(body: &[u8], block: usize) -> bool
    requires { 2 * (1024 * (block + 1)) ≤ length body.now }
    ensures { result ≡ true → (h : ℕ) → 1024 * block ≤ h → h < 1024 * (block + 1)
        → path.is_segment_unit (fields.half_at body.now h) ≡ true }
{
    for half in BLOCK * block..BLOCK * (block + 1) {
        if !is_segment_unit(half_at(body, half)) {
            return false;
        }
    }
    true
}

fn mark_blocks(alloc: Global, body: &[u8]) -> Result<Vec<bool>, AllocError>
    ensures { IfOk result (λ blocks. AreSegmentBlocks body.now blocks.items) }
{
    let count = body.len() / (2 * BLOCK);
    let mut blocks = Vec::with_capacity(alloc, count)?;
    for block in 0..count {
        blocks.push(is_segment_block(body, block))?;
    }
    Ok(blocks)
}

/// Marks the blocks of the data if `are_wanted`, or returns no marks.
pub fn segment_blocks(alloc: Global, body: &[u8], are_wanted: bool) -> Result<Vec<bool>, AllocError>
    ensures { IfOk result (λ blocks. AreSegmentBlocks body.now blocks.items) }
{
    if are_wanted {
        mark_blocks(alloc, body)
    } else {
        Ok(Vec::new(alloc))
    }
}
