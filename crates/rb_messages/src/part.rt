/// Consecutive units of a text.
#[derive(Clone, Copy)]
pub struct Span {
    pub first: usize,
    pub past: usize,
}

impl Span {
    /// Returns the units of a text in this span, or none if the span isn't within the text.
    pub fn of(self, text: &[u16]) -> &[u16] {
        text.get(self.first..self.past).unwrap_or(&[])
    }
}

/// The type of an argument, which says what its style is.
#[derive(Clone, Copy, PartialEq, Eq)]
pub enum ArgumentType {
    /// No type: the value as it is.
    Any,
    Number,
    Date,
    Time,
    Spellout,
    Ordinal,
    Duration,
    /// Numbers, each with a message.
    Choice,
    /// Plural categories and numbers, each with a message.
    Plural,
    SelectOrdinal,
    /// Words, each with a message.
    Select,
}

impl ArgumentType {
    /// Checks whether the style has messages.
    pub fn has_messages(self) -> bool {
        matches!(
            self,
            ArgumentType::Choice
                | ArgumentType::Plural
                | ArgumentType::SelectOrdinal
                | ArgumentType::Select
        )
    }

    /// Checks whether the style's messages are chosen by plural categories.
    pub fn has_categories(self) -> bool {
        matches!(self, ArgumentType::Plural | ArgumentType::SelectOrdinal)
    }
}

/// The values that an argument can have.
#[derive(Clone, Copy, PartialEq, Eq)]
pub enum ValueKind {
    Any,
    Number,
    Date,
    Text,
}

impl ValueKind {
    pub fn of(of_type: ArgumentType) -> ValueKind {
        match of_type {
            ArgumentType::Any => ValueKind::Any,
            ArgumentType::Date | ArgumentType::Time => ValueKind::Date,
            ArgumentType::Select => ValueKind::Text,
            _ => ValueKind::Number,
        }
    }

    /// Returns this kind, or a later use's if this one says nothing.
    pub fn or(self, later: ValueKind) -> ValueKind {
        match self {
            ValueKind::Any => later,
            _ => self,
        }
    }

    /// Checks whether no value is of both kinds.
    pub fn is_other(self, other: ValueKind) -> bool {
        self != other && self != ValueKind::Any && other != ValueKind::Any
    }
}

/// An argument's name or number, its type, and its style, if it has one without messages. A style that
/// begins with `::` is a skeleton.
#[derive(Clone, Copy)]
pub struct Argument {
    pub name: Span,
    pub of_type: ArgumentType,
    pub style: Option<Span>,
}

/// A part of a message that isn't plain text.
#[derive(Clone, Copy)]
pub enum Part {
    /// Text between apostrophes, up to the end of the message if it isn't closed.
    Quoted(Span),
    /// `#`, which stands for the number of the plural argument around it.
    Hash(usize),
    /// An argument. If its type has messages, they follow, up to `End`.
    Argument(Argument),
    /// The number or selector of a message of the innermost argument. The message before it ends.
    Branch(Span),
    /// The closing brace of an argument with messages.
    End(usize),
    /// A closing brace outside arguments, which is plain text.
    Stray(usize),
}
