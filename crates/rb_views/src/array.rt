ghost use Rattle.std.specs.Prelude.{◌≡◌, ◌<◌, IsTrue, Some, length, slice_get};
ghost use Rattle.rb_format.specs.File.{has_valid_indexes};
ghost use Rattle.rb_validator.specs.TextBlocks.{AreSegmentBlocks};
ghost use Rattle.rb_views.specs.inner.Stands.{AllStand};

use crate::item::Item;
use rb_format::word_at;

/// The items of an Array, borrowed from the file.
#[derive(Clone, Copy)]
pub struct Array<'a> {
    pub(crate) body: &'a [u8],
    pub(crate) blocks: &'a [bool],
    pub(crate) first: u32,
    pub(crate) count: u32,
    ghost laid: { IsTrue (has_valid_indexes body.now) },
    ghost marked: { AreSegmentBlocks body.now blocks.now },
    ghost stands: { AllStand body.now first count },
}

impl<'a> Array<'a> {
    ghost use Rattle.rb_views.specs.Seen.{tree_seen, trees_seen, item_data, item_word, array_data};
    ghost use Rattle.rb_views.specs.Seen.{array_word};

    #[tactic(auto, using(crate::proofs::Values::values_length))]
    pub fn len(self) -> usize
        ensures { result ≡ length (trees_seen self.entry) }
    {
        self.count as usize
    }

    /// Returns item i, where i is less than `len`.
    pub fn item(self, i: usize) -> Item<'a>
        requires { i < length (trees_seen self) }
        ensures tree { Some (tree_seen result) ≡ slice_get (trees_seen self.entry) i }
        ensures data { item_data result ≡ array_data self.entry }
        ensures word { item_word result ≡ array_word self.entry i }
    {
        Item {
            body: self.body,
            blocks: self.blocks,
            word: word_at(self.body, self.first as usize + i),
        }
    }
}
