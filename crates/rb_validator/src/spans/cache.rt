//! Stores the greatest heights of spans of items. Since tables and arrays may overlap, one word may
//! be an item of very many of them.
//!
//! A span is split at the middle of its block: the smallest aligned power of two of words that
//! contains it. Heights are stored for spans from a block's start to a step, and from a step to a
//! block's end, so that each is computed once. In a block of at most a page steps are four words
//! apart, and in others a page apart, so that the heights of a page's spans are in one cache line.
//! Before a span's own height, that of the spans around it is looked up (`nests`).
ghost use Rattle.std.specs.Prelude.{◌≡◌, ◌≢◌, ◌⊎◌, true, ◌+◌, ◌*◌, ◌≤◌, ◌<◌, ◌^◌, List};
ghost use Rattle.std.specs.Prelude.{slice_index, slice_set, IfOk, IfSome, ℕ, [], length};
ghost use Rattle.rb_format.specs.Place as fields;
ghost use Rattle.rb_format.specs.declared.layout.Layout.{Layout as Bounds};
ghost use Rattle.rb_validator.specs.inner.CachedSpans.{SaysNothing, IsSpanAt, start_of, count_of};
ghost use Rattle.rb_validator.specs.inner.CachedSpans.{word_of, level_of};
ghost use Rattle.rb_validator.specs.inner.Leaves.{AreLeaves, IsLeaf};
ghost use Rattle.rb_validator.specs.inner.Marks.{IsRun};
ghost use Rattle.rb_validator.specs.inner.Nested.{AreNested, IsBetween};

use crate::body::Body;
use crate::lists::{byte_at, number_at, number_of};
use crate::spans::leaves::{count_leaves, is_leaf_run, leaf_middle};
use crate::spans::nests::{Nests, PAGE};
use std::alloc::{AllocError, Global};
use std::marker::Model;

const STEP: usize = 4;

/// The binary logarithm of `STEP`.
const STEP_LEVEL: usize = 2;

/// The binary logarithm of `PAGE`.
const PAGE_LEVEL: usize = 6;

/// A span of items.
#[derive(Clone, Copy)]
struct Span {
    first: usize,
    count: usize,
}

/// The split of a span: its second part begins with the word `middle`.
#[derive(Clone, Copy)]
pub struct Split {
    pub middle: usize,
    /// True if the span's height is stored, in the slot `slot`.
    pub is_kept: bool,
    pub slot: usize,
}

/// The known spans. Nothing is stored until as many items were checked as the file has words, which
/// happens only in files with overlapping tables and arrays.
#[derive(Drop)]
pub struct SpanCache {
    alloc: Global,
    /// The height of each slot's span, or 0: for each step a slot for each block of at most a page,
    /// then for each page a slot for each block.
    heights: Vec<u8>,
    pages: usize,
    /// The lengths of blocks in words, each twice the one before it.
    blocks: Vec<u32>,
    leaves: Vec<u32>,
    nests: Nests,
    top: usize,
    /// The number of items that may still be checked one by one.
    budget: usize,
}

impl Model for SpanCache {
    ghost use Rattle.rb_validator.specs.inner.CachedSpans.{CachedSpans};

    ghost Value = { CachedSpans };

    ghost use Rattle.std.specs.Coded.{codes};

    ghost coded = { Prim.hlevel codes };

    ghost view = { λ r. record {
      heights = r.heights.items;
      pages = r.pages;
      blocks = r.blocks.items;
      leaves = r.leaves.items;
      lows = r.nests.lows.items;
      highs = r.nests.highs.items;
      nested = r.nests.heights.items;
    } };
}

impl SpanCache {
    pub fn new(alloc: Global, top: u32) -> SpanCache
        ensures kept { SaysNothing result.heights }
        ensures leaves { result.leaves ≡ [] }
        ensures nested { SaysNothing result.nested }
    {
        SpanCache {
            alloc,
            heights: Vec::new(alloc),
            pages: 0,
            blocks: Vec::new(alloc),
            leaves: Vec::new(alloc),
            nests: Nests::empty(alloc),
            top: top as usize,
            budget: top as usize,
        }
    }

    pub fn are_leaves(&self, first: usize, count: usize) -> bool
        ensures some { result ≡ true → 0 < count }
        ensures leaves { result ≡ true → (y : Bounds) (body : List ℕ)
            → AreLeaves y body self.now.leaves → (w : ℕ) → first ≤ w → w < first + count
            → IsLeaf y body (fields.word_at body w) }
    {
        is_leaf_run(&self.leaves, first, count)
    }

    /// Splits a span: at its block's middle if it begins or ends at the block's boundary and ends
    /// or begins at a step. Otherwise, and if its whole units consist of leaves, these are split
    /// off.
    pub fn split(&self, first: usize, count: usize) -> Split
        requires long { 1 < count }
        requires small { first + count < 2 ^ 50 }
        ensures low { first < result.middle }
        ensures high { result.middle < first + count }
    {
        let stop = first + count;
        if let Some(middle) = leaf_middle(&self.leaves, first, count) {
            return Split {
                middle: middle.max(first + 1).min(stop - 1),
                is_kept: false,
                slot: 0,
            };
        }
        let level = match (first ^ (stop - 1)).checked_ilog2() {
            Some(bits) => bits as usize,
            None => 0,
        };
        let block = (2usize << level).saturating_sub(1);
        let half = (stop - 1) & (usize::MAX << level);
        let step = if level < PAGE_LEVEL { STEP } else { PAGE };
        let (end, near) = if first & block == 0 {
            (stop, stop / step * step)
        } else if stop & block == 0 {
            (first, first.div_ceil(step) * step)
        } else {
            (first, half)
        };
        let is_kept = end == near;
        let middle = if is_kept { half } else { near };
        Split {
            middle: middle.max(first + 1).min(stop - 1),
            is_kept,
            slot: self.slot(level, end),
        }
    }

    /// Checks whether this many items should be checked one by one: a few, or as many as the budget
    /// allows. Counts the leaves when the budget is exceeded.
    pub fn is_plain(&mut self, body: Body<'_>, count: usize) -> Result<bool, AllocError>
        requires { 4 * body.layout.now.top ≤ length body.bytes.now }
        ensures long { IfOk result (λ plain. (plain ≡ true) ⊎ (1 < count)) }
        ensures runs { (self.new ≡ self.old) ⊎ (SaysNothing self.new.heights
            × SaysNothing self.new.nested
            × AreLeaves body.entry.layout.now body.entry.bytes.now self.new.leaves) }
    {
        if count <= self.budget {
            self.budget -= count;
            return Ok(true);
        }
        if count <= STEP {
            return Ok(true);
        }
        if self.heights.is_empty() {
            self.start(body)?;
        }
        Ok(false)
    }

    fn start(&mut self, body: Body<'_>) -> Result<(), AllocError>
        requires { 4 * body.layout.now.top ≤ length body.bytes.now }
        ensures { (self.new ≡ self.old) ⊎ (SaysNothing self.new.heights
            × SaysNothing self.new.nested
            × AreLeaves body.entry.layout.now body.entry.bytes.now self.new.leaves) }
    {
        let pages = self.top / PAGE + 1;
        let blocks = block_lengths(self.alloc, self.top)?;
        let leaves = count_leaves(self.alloc, body)?;
        let heights = no_heights(self.alloc, pages.saturating_mul(PAGE + blocks.len()))?;
        let nests = Nests::new(self.alloc, pages)?;
        self.pages = pages;
        self.blocks = blocks;
        self.leaves = leaves;
        self.heights = heights;
        self.nests = nests;
        Ok(())
    }

    /// Returns the slot of a span that begins or ends at a word, in a block whose middle is a
    /// multiple of 2 to the power of `level`.
    fn slot(&self, level: usize, word: usize) -> usize {
        let number = level.saturating_sub(STEP_LEVEL);
        if level < PAGE_LEVEL {
            (word / STEP * STEP).saturating_add(number)
        } else {
            let page = (word / PAGE).saturating_mul(self.blocks.len());
            self.pages
                .saturating_mul(PAGE)
                .saturating_add(page)
                .saturating_add(number)
        }
    }

    /// Checks whether a span is the one of a slot.
    fn is_span_at(&self, slot: usize, first: usize, count: usize) -> bool
        ensures { result ≡ true → IsSpanAt self.now slot first count }
    {
        let Some(span) = span_at(self.pages, &self.blocks, slot) else {
            return false;
        };
        span.first == first && span.count == count
    }

    pub fn height(&self, parts: Split, first: usize, count: usize) -> Option<u8>
        ensures { IfSome result (λ h. (h ≢ 0)
            × (((h ≡ slice_index self.now.heights parts.slot)
            × IsSpanAt self.now parts.slot first count)
            ⊎ IsBetween self.now.lows self.now.highs self.now.nested first count h)) }
    {
        if let Some(height) = self.nests.height(first, count) {
            return Some(height);
        }
        let height = byte_at(&self.heights, parts.slot);
        if height == 0 || !parts.is_kept || !self.is_span_at(parts.slot, first, count) {
            return None;
        }
        Some(height)
    }

    /// Stores the greatest height of a span's items if the span is one that is stored.
    pub fn keep(&mut self, parts: Split, first: usize, count: usize, height: u8)
        ensures nested { (y : Bounds) (body cells : List ℕ)
            → AreNested y body cells self.old.lows self.old.highs self.old.nested
            → IsRun y body cells first count height
            → AreNested y body cells self.new.lows self.new.highs self.new.nested }
        ensures others { self.new ≡ record self.old {
          heights = self.new.heights;
          lows = self.new.lows;
          highs = self.new.highs;
          nested = self.new.nested;
        } }
        ensures kept { (self.new.heights ≡ self.old.heights)
            ⊎ (IsSpanAt self.old parts.slot first count
            × (parts.slot < length self.old.heights)
            × (self.new.heights ≡ slice_set self.old.heights parts.slot height)) }
    {
        self.nests.keep(first, count, height);
        if parts.is_kept
            && self.is_span_at(parts.slot, first, count)
            && let Some(place) = self.heights.get_mut(parts.slot)
        {
            *place = height;
        }
    }
}

fn no_heights(alloc: Global, count: usize) -> Result<Vec<u8>, AllocError>
    ensures { IfOk result (λ v. SaysNothing v.items) }
{
    vec![in alloc; 0u8; count]
}

/// Returns the lengths of the blocks that spans of a file are split in.
fn block_lengths(alloc: Global, top: usize) -> Result<Vec<u32>, AllocError> {
    let levels = top.checked_ilog2().unwrap_or(0) as usize;
    let mut lengths = Vec::new(alloc);
    let mut length = 2 * STEP;
    for _ in STEP_LEVEL..levels + 1 {
        lengths.push(number_of(length))?;
        length = length.saturating_mul(2);
    }
    Ok(lengths)
}

/// Returns the span whose height is stored in a slot.
fn span_at(pages: usize, blocks: &[u32], slot: usize) -> Option<Span>
    ensures { IfSome result (λ s. (s.first ≡ start_of (word_of pages (length blocks.now) slot)
        (slice_index blocks.now (level_of pages (length blocks.now) slot)))
        × (s.count ≡ count_of (word_of pages (length blocks.now) slot)
        (slice_index blocks.now (level_of pages (length blocks.now) slot)))) }
{
    let outer = pages.checked_mul(PAGE)?;
    let (word, level) = if slot < outer {
        (slot / STEP * STEP, slot % STEP)
    } else {
        let page = (slot - outer).checked_div(blocks.len())?;
        (page.checked_mul(PAGE)?, (slot - outer) % blocks.len())
    };
    let block = number_at(blocks, level) as usize;
    if block == 0 {
        return None;
    }
    Some(span_of(word, block))
}

/// Returns the span of a block from its start to a word, or from the word to its end.
fn span_of(word: usize, block: usize) -> Span
    requires some { 0 < block }
    requires small { block < 2 ^ 32 }
    ensures first { result.first ≡ start_of word block }
    ensures count { result.count ≡ count_of word block }
{
    let past = word % block;
    if past == 0 {
        Span {
            first: word.saturating_sub(block),
            count: block,
        }
    } else if block < 2 * past {
        Span {
            first: word - past,
            count: past,
        }
    } else {
        Span {
            first: word,
            count: block - past,
        }
    }
}
