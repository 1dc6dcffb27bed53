use std::alloc::{AllocError, AllocFailed};
use std::fmt;

/// The reasons why a text is no message.
#[derive(Clone, Copy, PartialEq, Eq)]
pub enum MessageFault {
    /// A brace isn't closed.
    OpenBrace,
    /// A brace isn't followed by a name or number, and then a comma or a closing brace.
    Argument,
    /// A number of an argument is over 32,767 or begins with 0.
    ArgumentNumber,
    /// The type isn't one of MessageFormat's.
    UnknownType,
    /// An argument of a type that has messages has none.
    NoMessages,
    /// An apostrophe in a style isn't closed.
    OpenQuote,
    /// Something that is no selector is in the place of one.
    Selector,
    /// A selector or a separator isn't followed by a message.
    NoMessage,
    /// The number of a selector, a choice or an offset is none.
    Number,
    /// An offset comes after a message or another offset.
    Offset,
    /// No message is for `other`.
    MissingOther,
    /// A name, a number, a type, a selector or a style has more than 65,535 units.
    TooLong,
    /// Messages are nested deeper than 32,767 levels.
    TooDeep,
    /// An allocation failed.
    Memory,
}

/// The reason why a text is no message, at an offset in its units. Out of memory is at 0.
#[derive(Clone, Copy)]
pub struct MessageError {
    pub fault: MessageFault,
    pub at: usize,
}

const MEMORY: MessageError = MessageError {
    fault: MessageFault::Memory,
    at: 0,
};

impl<T: Drop> From<AllocFailed<T>> for MessageError {
    ghost use Rattle.std.specs.Prelude.{◌≡◌};
    ghost use Rattle.rb_messages.specs.declared.fault.MessageFault.TheVariants.{Memory};

    ghost from_gives = { λ _ e. (e.fault ≡ Memory) × (e.at ≡ 0) };

    fn from(_: AllocFailed<T>) -> Self {
        MEMORY
    }
}

impl From<AllocError> for MessageError {
    ghost use Rattle.std.specs.Prelude.{◌≡◌};
    ghost use Rattle.rb_messages.specs.declared.fault.MessageFault.TheVariants.{Memory};

    ghost from_gives = { λ _ e. (e.fault ≡ Memory) × (e.at ≡ 0) };

    fn from(_: AllocError) -> Self {
        MEMORY
    }
}

impl fmt::Display for MessageFault {
    fn fmt<W: fmt::Write>(&self, f: &mut fmt::Formatter<W>) -> fmt::Result {
        f.write_str(match self {
            MessageFault::OpenBrace => "a brace isn't closed",
            MessageFault::Argument => "a brace isn't followed by an argument",
            MessageFault::ArgumentNumber =>
                "the number of an argument is too large or begins with 0",
            MessageFault::UnknownType => "an argument has an unknown type",
            MessageFault::NoMessages => "an argument has no messages to choose from",
            MessageFault::OpenQuote => "an apostrophe in a style isn't closed",
            MessageFault::Selector => "a selector is missing",
            MessageFault::NoMessage => "a selector has no message",
            MessageFault::Number => "a number isn't valid",
            MessageFault::Offset => "an offset isn't the first in its argument",
            MessageFault::MissingOther => "an argument has no message for 'other'",
            MessageFault::TooLong => "a name, a selector or a style is too long",
            MessageFault::TooDeep => "messages are nested too deep",
            MessageFault::Memory => "out of memory",
        })
    }
}
