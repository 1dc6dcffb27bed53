ghost use Rattle.std.specs.Prelude.{◌≡◌};
ghost use Rattle.rb_lexer.specs.Words.{kind_word};

use crate::fault::SourceKind;
use rb_tree::variant_name;

impl SourceKind {
    /// Returns the variant's name.
    pub fn word(self) -> &'static str
        ensures { result.now ≡ kind_word self }
    {
        variant_name!(self: SourceKind {
            TooLong, NotUtf8, BadEscape, OpenQuote, OpenComment, Unexpected, UnknownType, BadKey,
            DuplicateKey, BadInt, BadHex, TooDeep, TrailingText, TooLarge, Memory,
        })
    }
}
