//! Stores which spans with a common end have the same height. A span has no greater height than one
//! that contains it, so all spans between two of equal height have this height too.
//!
//! Spans that overlap are split at few words. Their parts begin or end there, and have many lengths
//! but few heights.
ghost use Rattle.std.specs.Prelude.{◌≡◌, ◌≢◌, ◌⊎◌, ◌<◌, ℕ, List, IfOk, IfSome};
ghost use Rattle.std.specs.Prelude.{length, slice_index, slice_set};
ghost use Rattle.rb_format.specs.declared.layout.Layout.{Layout as Bounds};
ghost use Rattle.rb_validator.specs.inner.CachedSpans.{SaysNothing};
ghost use Rattle.rb_validator.specs.inner.Marks.{IsRun};
ghost use Rattle.rb_validator.specs.inner.Nested.{AreNested, IsAnchored, IsBetween, IsWidened};

use crate::lists::{byte_at, number_at};
use std::alloc::{AllocError, Global};

pub const PAGE: usize = 64;

/// For each page a slot of spans that begin at its first word, and a slot of those that end there.
#[derive(Drop)]
pub struct Nests {
    /// The number of items of each slot's shortest span.
    pub lows: Vec<u32>,
    /// The number of items of each slot's longest span.
    pub highs: Vec<u32>,
    /// The height of each slot's spans, or 0.
    pub heights: Vec<u8>,
}

/// Returns a span's slot, or None if it neither begins nor ends at a page's first word.
fn slot_of(first: usize, count: usize) -> Option<usize>
    ensures { IfSome result (λ slot. IsAnchored slot first count) }
{
    if first % PAGE == 0 {
        return Some(2 * (first / PAGE));
    }
    let stop = first.checked_add(count)?;
    if stop % PAGE == 0 {
        Some(2 * (stop / PAGE) + 1)
    } else {
        None
    }
}

/// Returns the first word of a slot's span with this many items, or None if there is no such span.
fn first_at(slot: usize, count: usize) -> Option<usize>
    ensures { IfSome result (λ first. IsAnchored slot first count) }
{
    let end = (slot / 2).checked_mul(PAGE)?;
    if slot % 2 == 0 {
        Some(end)
    } else {
        end.checked_sub(count)
    }
}

impl Nests {
    /// Returns the spans of a file without words, of which none is stored.
    pub fn empty(alloc: Global) -> Nests
        ensures { SaysNothing result.heights.items }
    {
        Nests {
            lows: Vec::new(alloc),
            highs: Vec::new(alloc),
            heights: Vec::new(alloc),
        }
    }

    pub fn new(alloc: Global, pages: usize) -> Result<Nests, AllocError>
        ensures { IfOk result (λ n. SaysNothing n.heights.items) }
    {
        let slots = pages.saturating_mul(2);
        let lows = vec![in alloc; 0u32; slots]?;
        let highs = vec![in alloc; 0u32; slots]?;
        let heights = vec![in alloc; 0u8; slots]?;
        Ok(Nests {
            lows,
            highs,
            heights,
        })
    }

    /// Returns the height of a span if it is between two that are stored.
    pub fn height(&self, first: usize, count: usize) -> Option<u8>
        ensures { IfSome result (λ h. (h ≢ 0) × IsBetween self.now.lows.items self.now.highs.items
            self.now.heights.items first count h) }
    {
        let slot = slot_of(first, count)?;
        let height = byte_at(&self.heights, slot);
        let low = number_at(&self.lows, slot) as usize;
        let high = number_at(&self.highs, slot) as usize;
        if height == 0 || count < low || high < count {
            return None;
        }
        Some(height)
    }

    /// Returns the least and the greatest number of items of a slot's spans, if one with this many
    /// items has a height: if it is that of the stored ones, all between them and this one have it.
    fn widened(&self, slot: usize, count: u32, height: u8) -> (u32, u32)
        ensures { ((result.0 ≡ count) × (result.1 ≡ count)) ⊎ IsWidened self.now.lows.items
            self.now.highs.items self.now.heights.items slot count height result.0 result.1 }
    {
        let low = number_at(&self.lows, slot);
        let high = number_at(&self.highs, slot);
        if byte_at(&self.heights, slot) != height || high < low {
            return (count, count);
        }
        match first_at(slot, high as usize) {
            Some(_) => (low.min(count), high.max(count)),
            None => (count, count),
        }
    }

    fn put(&mut self, slot: usize, bounds: (u32, u32), height: u8)
        ensures { (self.new ≡ self.old) ⊎ ((slot < length self.old.lows.items)
            × (slot < length self.old.highs.items) × (slot < length self.old.heights.items)
            × (self.new.lows.items ≡ slice_set self.old.lows.items slot bounds.0)
            × (self.new.highs.items ≡ slice_set self.old.highs.items slot bounds.1)
            × (self.new.heights.items ≡ slice_set self.old.heights.items slot height)) }
    {
        let (low, high) = bounds;
        if slot < self.lows.len() && slot < self.highs.len() && slot < self.heights.len() {
            self.lows[slot] = low;
            self.highs[slot] = high;
            self.heights[slot] = height;
        }
    }

    /// Stores the height of a span if it begins or ends at a page's first word.
    pub fn keep(&mut self, first: usize, count: usize, height: u8)
        ensures { (y : Bounds) (body cells : List ℕ) → AreNested y body cells self.old.lows.items
            self.old.highs.items self.old.heights.items → IsRun y body cells first count height
            → AreNested y body cells self.new.lows.items self.new.highs.items
            self.new.heights.items }
    {
        let Some(slot) = slot_of(first, count) else {
            return;
        };
        let Ok(number) = u32::try_from(count) else {
            return;
        };
        let bounds = self.widened(slot, number, height);
        self.put(slot, bounds, height);
    }
}
