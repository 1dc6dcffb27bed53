//! Each crate has its `word` functions in `words.rt`, and their texts in `specs/Words.antt`.
ghost use Rattle.std.specs.Prelude.{◌≡◌};
ghost use Rattle.rb_tree.specs.Words.{table_word};

use crate::table::TableFault;

/// Names the variant of a value, given its enum with all variants; `(_)` stands for fields.
///
/// ```rust
/// variant_name!(fault: TableFault { DuplicateKey(_), Memory }) // "DuplicateKey" or "Memory"
/// ```
#[macro_export]
macro_rules! variant_name {
    ($value:tt: $enum:ident { $($variant:ident $(($field:pat))?),* $(,)? }) => {
        match $value {
            $($enum::$variant $(($field))? => stringify!($variant),)*
        }
    };
}

impl TableFault {
    /// Returns the variant's name.
    pub fn word(self) -> &'static str
        ensures { result.now ≡ table_word self }
    {
        variant_name!(self: TableFault { DuplicateKey(_), Memory })
    }
}
