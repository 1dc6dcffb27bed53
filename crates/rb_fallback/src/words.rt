ghost use Rattle.std.specs.Prelude.{◌≡◌};
ghost use Rattle.rb_fallback.specs.Words.{alias_word, look_word};

use crate::fault::{AliasFault, LookError};
use rb_tree::variant_name;

impl LookError {
    /// Returns the variant's name, which is its error code.
    pub fn word(self) -> &'static str
        ensures { result.now ≡ look_word self }
    {
        variant_name!(self: LookError {
            BadPath, PathTooLong, Chain, BadParent, NoBundle, Missing, AliasText, AliasPackage,
            TooManyAliases,
        })
    }
}

impl AliasFault {
    /// Returns the variant's name, which is its error code.
    pub fn word(self) -> &'static str
        ensures { result.now ≡ alias_word self }
    {
        variant_name!(self: AliasFault { AliasText, AliasPackage })
    }
}
