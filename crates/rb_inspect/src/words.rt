//! The codes of the errors of one item.
ghost use Rattle.std.specs.Prelude.{◌≡◌};
ghost use Rattle.rb_inspect.specs.Words.{item_word};

use crate::item::ItemError;
use rb_tree::variant_name;

impl ItemError {
    /// Returns the code, which is the variant's name.
    pub fn word(self) -> &'static str
        ensures { result.now ≡ item_word self }
    {
        variant_name!(self: ItemError { BadPath, PathTooLong, Missing })
    }
}
