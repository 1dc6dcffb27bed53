//! The codes of the errors of a value.
ghost use Rattle.std.specs.Prelude.{◌≡◌};
ghost use Rattle.rb_convert.specs.Words.{value_word};

use crate::value::ValueError;
use rb_tree::variant_name;

impl ValueError {
    /// Returns the code, which is the variant's name.
    pub fn word(self) -> &'static str
        ensures { result.now ≡ value_word self }
    {
        variant_name!(self: ValueError { BadPath, PathTooLong, Missing, TooLarge })
    }
}
