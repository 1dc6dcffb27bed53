ghost use Rattle.std.specs.Prelude.{◌≡◌, ◌+◌, ◌*◌, ◌/◌, ◌<◌, ◌≤◌, ℕ, Some, true, length};
ghost use Rattle.std.specs.Prelude.{slice_index, slice_get};
ghost use Rattle.rb_tree.specs.Path.{is_segment_unit};
ghost use Rattle.rb_validator.specs.TextBlocks.{AreSegmentBlocks};

use crate::item::part;
use rb_format::{half_at, word_at};

/// The number of half words in a block that `Bundle::blocks` marks.
const BLOCK: usize = 1024;

/// The UTF-16 units of a String or an Alias, borrowed from the file.
#[derive(Clone, Copy)]
pub struct Units<'a> {
    pub(crate) body: &'a [u8],
    pub(crate) first: u32,
    pub(crate) count: u32,
    ghost room: { 2 * (first + count) ≤ length body.now },
}

impl<'a> Units<'a> {
    ghost use Rattle.rb_views.specs.Seen.{units_seen, units_bytes};

    #[tactic(auto, using(crate::proofs::Values::values_length))]
    pub fn len(self) -> usize
        ensures { result ≡ length (units_seen self.entry) }
    {
        self.count as usize
    }

    /// Returns unit i, where i is less than `len`.
    #[tactic(auto, using(crate::proofs::Values::values_length))]
    pub fn at(self, i: usize) -> u16
        requires { i < length (units_seen self) }
        ensures { Some result ≡ slice_get (units_seen self.entry) i }
    {
        half_at(self.body, self.first as usize + i)
    }

    /// Returns the units as the file stores them: two bytes each, the lower one first.
    pub fn bytes(self) -> &'a [u8]
        ensures { result.now ≡ units_bytes self.entry }
    {
        part(self.body, 2 * self.first as usize, 2 * self.count as usize)
    }

    /// Counts the units from index `from` up to the first block that isn't marked.
    pub(crate) fn segment_run(self, blocks: &[bool], from: usize) -> usize
        requires marked { AreSegmentBlocks self.body.now blocks.now }
        requires within { from ≤ length (units_seen self) }
        ensures within { from + result ≤ length (units_seen self.entry) }
        ensures run { (i : ℕ) → from ≤ i → i < from + result
            → is_segment_unit (slice_index (units_seen self.entry) i) ≡ true }
    {
        let at = self.first as usize + from;
        let left = self.count as usize - from;
        marked_run(blocks, at).min(left)
    }
}

/// Counts the half words from index `at` up to the first block that isn't marked.
fn marked_run(blocks: &[bool], at: usize) -> usize
    ensures { (h : ℕ) → at ≤ h → h < at + result → slice_get blocks.now (h / 1024) ≡ Some true }
{
    for block in at / BLOCK..blocks.len() {
        if !blocks[block] {
            return block.saturating_mul(BLOCK).saturating_sub(at);
        }
    }
    blocks.len().saturating_mul(BLOCK).saturating_sub(at)
}

/// The numbers of an integer vector, borrowed from the file.
#[derive(Clone, Copy)]
pub struct Ints<'a> {
    pub(crate) body: &'a [u8],
    pub(crate) first: u32,
    pub(crate) count: u32,
    ghost room: { 4 * (first + count) ≤ length body.now },
}

impl<'a> Ints<'a> {
    ghost use Rattle.rb_views.specs.Seen.{numbers_seen, numbers_bytes};

    /// Returns the numbers as the file stores them: four bytes each, the lowest one first.
    pub fn bytes(self) -> &'a [u8]
        ensures { result.now ≡ numbers_bytes self.entry }
    {
        part(self.body, 4 * self.first as usize, 4 * self.count as usize)
    }

    #[tactic(auto, using(crate::proofs::Values::values_length))]
    pub fn len(self) -> usize
        ensures { result ≡ length (numbers_seen self.entry) }
    {
        self.count as usize
    }

    /// Returns number i, where i is less than `len`.
    #[tactic(auto, using(crate::proofs::Values::values_length))]
    pub fn at(self, i: usize) -> i32
        requires { i < length (numbers_seen self) }
        ensures { Some result ≡ slice_get (numbers_seen self.entry) i }
    {
        word_at(self.body, self.first as usize + i).cast_signed()
    }
}
