use rb_tree::variant_name;
use std::alloc::{AllocError, AllocFailed};

/// The reasons why a JSON text is rejected.
#[derive(Clone, Copy, Debug, PartialEq, Eq)]
pub enum JsonFaultKind {
    /// The text has more bytes than `JSON_LIMIT`.
    TooLong,
    /// The bytes are not UTF-8.
    NotUtf8,
    /// The text is no JSON from this token on, or it ends too early.
    NotJson,
    /// The text continues after the value.
    TrailingText,
    /// The whole value is not a table.
    NotTable,
    /// A value that no item has: `true`, `false` or `null`.
    UnknownValue,
    /// A key with one colon at its front is no tag, is not alone in its object or has a value of
    /// another form.
    BadTag,
    /// A key is empty or has a character outside the range from space to tilde.
    BadKey,
    /// An object repeats a key.
    DuplicateKey,
    /// A number is no integer or out of range.
    BadNumber,
    /// A binary is not an even number of lower-case hexadecimal digits.
    BadBinary,
    /// A list of units is well-formed UTF-16, so that it must be written as a string.
    BadUnits,
    /// A value is nested too deep.
    TooDeep,
    /// The tree weighs too much.
    TooLarge,
    /// An allocation failed.
    Memory,
}

impl JsonFaultKind {
    /// Returns the variant's name.
    pub fn word(self) -> &'static str {
        variant_name!(self: JsonFaultKind {
            TooLong, NotUtf8, NotJson, TrailingText, NotTable, UnknownValue, BadTag, BadKey,
            DuplicateKey, BadNumber, BadBinary, BadUnits, TooDeep, TooLarge, Memory,
        })
    }
}

/// The reason why a JSON text is rejected, and its place. Out of memory has line and column 0.
#[derive(Debug, Drop)]
pub struct JsonFault {
    pub kind: JsonFaultKind,
    /// The line, from 1 on.
    pub line: u64,
    /// The column in characters, from 1 on.
    pub column: u64,
    /// The JSON pointer (RFC 6901) of the value that is wrong, or of the object whose key is. It
    /// is empty for the whole text, and if memory runs out.
    pub path: String,
}

/// An error at a byte of the text.
#[derive(Clone, Copy, Debug)]
pub(crate) struct Fault {
    pub kind: JsonFaultKind,
    pub at: usize,
}

impl Fault {
    ghost use Rattle.std.specs.Prelude.{◌≡◌};

    pub fn new(kind: JsonFaultKind, at: usize) -> Fault
        ensures { result.kind ≡ kind }
    {
        Fault { kind, at }
    }
}

impl From<AllocError> for Fault {
    ghost use Rattle.std.specs.Prelude.{◌≡◌};
    ghost use Rattle.rb_json_reader.specs.declared.fault.JsonFaultKind.TheVariants.{Memory};

    ghost from_gives = { λ _ e. e.kind ≡ Memory };

    fn from(_: AllocError) -> Self {
        Fault::new(JsonFaultKind::Memory, 0)
    }
}

impl<T: Drop> From<AllocFailed<T>> for Fault {
    ghost use Rattle.std.specs.Prelude.{◌≡◌};
    ghost use Rattle.rb_json_reader.specs.declared.fault.JsonFaultKind.TheVariants.{Memory};

    ghost from_gives = { λ _ e. e.kind ≡ Memory };

    fn from(_: AllocFailed<T>) -> Self {
        Fault::new(JsonFaultKind::Memory, 0)
    }
}
