use crate::difference::Difference;
use crate::fault::FaultText;
use crate::pattern::PatternDoubt;
use crate::rule::Rule;
use crate::warning::Doubt;
use std::fmt;

/// The subject of a finding.
#[derive(Drop)]
pub enum Message {
    /// Why the text isn't compiled.
    Fault(FaultText),
    Doubt(Doubt),
    /// A mistake in a message pattern.
    Pattern(PatternDoubt),
    /// A difference between an item and the root's.
    Difference(Difference),
}

impl fmt::Display for Message {
    fn fmt<W: fmt::Write>(&self, f: &mut fmt::Formatter<W>) -> fmt::Result {
        match self {
            Message::Fault(fault) => write!(f, "{fault}"),
            Message::Doubt(doubt) => write!(f, "{doubt}"),
            Message::Pattern(doubt) => write!(f, "{doubt}"),
            Message::Difference(difference) => write!(f, "{difference}"),
        }
    }
}

#[derive(Clone, Copy, PartialEq, Eq)]
pub enum Severity {
    Error,
    Warning,
}

impl Severity {
    pub fn word(self) -> &'static str {
        match self {
            Severity::Error => "error",
            Severity::Warning => "warning",
        }
    }
}

/// An error or a warning at its place in a text.
#[derive(Drop)]
pub struct Finding {
    /// The line, counted by line feeds from 1.
    pub line: u64,
    /// The column in UTF-16 units, from 1.
    pub column: u64,
    pub severity: Severity,
    /// The rule of a warning; None for the error of a text that isn't compiled.
    pub rule: Option<Rule>,
    pub message: Message,
}

impl Finding {
    /// Returns the name of the warning's rule, or the code of the error.
    pub fn code(&self) -> Option<&'static str> {
        match (self.rule, &self.message) {
            (Some(rule), _) => Some(rule.name()),
            (None, Message::Fault(fault)) => Some(fault.kind.word()),
            (None, _) => None,
        }
    }
}
