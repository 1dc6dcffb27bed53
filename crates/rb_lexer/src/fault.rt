use std::alloc::{AllocError, AllocFailed};

/// The reasons why a text is rejected, for the lexer and the parser. `lex` returns `TooLong`,
/// `NotUtf8`, `BadEscape`, `OpenQuote`, `OpenComment` and `Memory`; only the parser returns the
/// others.
#[derive(Clone, Copy, Debug, PartialEq, Eq)]
pub enum SourceKind {
    /// The source has more than 8,388,608 bytes.
    TooLong,
    /// The bytes are not UTF-8.
    NotUtf8,
    /// A backslash does not begin an escape.
    BadEscape,
    /// A quoted piece is never closed.
    OpenQuote,
    /// A block comment is never closed.
    OpenComment,
    /// A token is misplaced, or the text ends too early.
    Unexpected,
    /// The text after a colon is not a type.
    UnknownType,
    /// A key is empty or has a unit outside the range from space to tilde.
    BadKey,
    /// A table repeats a key.
    DuplicateKey,
    /// A text is not a number, or the number is out of range.
    BadInt,
    /// A binary is not an even number of hexadecimal digits.
    BadHex,
    /// A value is nested too deep.
    TooDeep,
    /// A token follows the bundle.
    TrailingText,
    /// The tree weighs too much.
    TooLarge,
    /// An allocation failed.
    Memory,
}

/// The reason why a text is rejected, and its line. Out of memory has line 0.
#[derive(Clone, Copy, Debug, PartialEq, Eq)]
pub struct SourceFault {
    pub kind: SourceKind,
    pub line: u64,
}

const MEMORY: SourceFault = SourceFault {
    kind: SourceKind::Memory,
    line: 0,
};

impl From<AllocError> for SourceFault {
    ghost use Rattle.std.specs.Prelude.{◌≡◌};
    ghost use Rattle.rb_lexer.specs.declared.fault.SourceKind.TheVariants.{Memory};

    ghost from_gives = { λ _ e. (e.kind ≡ Memory) × (e.line ≡ 0) };

    fn from(_: AllocError) -> Self {
        MEMORY
    }
}

impl<T: Drop> From<AllocFailed<T>> for SourceFault {
    ghost use Rattle.std.specs.Prelude.{◌≡◌};
    ghost use Rattle.rb_lexer.specs.declared.fault.SourceKind.TheVariants.{Memory};

    ghost from_gives = { λ _ e. (e.kind ≡ Memory) × (e.line ≡ 0) };

    fn from(_: AllocFailed<T>) -> Self {
        MEMORY
    }
}

/// An error of the lexer, and the number of bytes from it to the end.
#[derive(Clone, Copy, Debug)]
pub struct LexError {
    pub kind: SourceKind,
    pub left: usize,
}

impl From<AllocError> for LexError {
    ghost use Rattle.std.specs.Prelude.{◌≡◌};
    ghost use Rattle.rb_lexer.specs.declared.fault.SourceKind.TheVariants.{Memory};

    ghost from_gives = { λ _ e. e.kind ≡ Memory };

    fn from(_: AllocError) -> Self {
        LexError {
            kind: SourceKind::Memory,
            left: 0,
        }
    }
}

impl<T: Drop> From<AllocFailed<T>> for LexError {
    ghost use Rattle.std.specs.Prelude.{◌≡◌};
    ghost use Rattle.rb_lexer.specs.declared.fault.SourceKind.TheVariants.{Memory};

    ghost from_gives = { λ _ e. e.kind ≡ Memory };

    fn from(refused: AllocFailed<T>) -> Self {
        AllocError::from(refused).into()
    }
}
