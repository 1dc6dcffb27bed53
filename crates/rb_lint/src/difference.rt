use crate::named_text::{shown, write_named};
use crate::rule::Rule;
use rb_explain::kind_word;
use rb_messages::{Edge, Ending, MarkKind, MessageFault, ValueKind};
use rb_tree::Kind;
use std::fmt;

/// The differences between an item and the root's.
#[derive(Drop)]
pub enum Change {
    /// Only the root has it.
    Absent,
    /// Only the text has it.
    Additional,
    /// It is of another kind than the root's.
    OtherKind {
        here: Kind,
        root: Kind,
    },
    /// It lacks this placeholder of the root's item.
    Lacks(Vec<u8>),
    /// It has this placeholder, and the root's item doesn't.
    Adds(Vec<u8>),
    /// It uses an argument as another kind of value.
    OtherUse {
        name: Vec<u8>,
        here: ValueKind,
        root: ValueKind,
    },
    /// It has another number of items.
    OtherLength {
        here: usize,
        root: usize,
    },
    /// It can't be read as a message, and the root's has arguments.
    Unreadable(MessageFault),
    /// It lacks a part that a translation keeps.
    LacksMark(MarkKind, Vec<u8>),
    /// It has a part that the root's item hasn't.
    AddsMark(MarkKind, Vec<u8>),
    /// It has other blanks than the root's item.
    Blanks(Edge),
    /// It doesn't end with the punctuation of the root's item.
    LacksEnding(Ending),
    /// It is empty, and the root's item isn't.
    Empty,
    /// It is the root's text.
    Same,
}

/// A difference between an item and the root's.
#[derive(Drop)]
pub struct Difference {
    /// The keys and indexes of the item, with slashes between them.
    pub path: Vec<u8>,
    pub change: Change,
}

impl Change {
    pub fn rule(&self) -> Rule {
        match self {
            Change::Absent => Rule::MissingKey,
            Change::Additional => Rule::UnusedKey,
            Change::OtherKind { .. } => Rule::OtherType,
            Change::Lacks(_) | Change::Adds(_) | Change::OtherUse { .. } => Rule::OtherArguments,
            Change::OtherLength { .. } => Rule::OtherLength,
            Change::Unreadable(_) => Rule::BrokenMessage,
            Change::LacksMark(kind, _) | Change::AddsMark(kind, _) => mark_rule(*kind),
            Change::Blanks(Edge::Spelled(_)) => Rule::DoubledBackslash,
            Change::Blanks(_) => Rule::OtherBlanks,
            Change::LacksEnding(_) => Rule::OtherPunctuation,
            Change::Empty => Rule::EmptyText,
            Change::Same => Rule::SameText,
        }
    }
}

fn mark_rule(kind: MarkKind) -> Rule {
    match kind {
        MarkKind::Placeholder => Rule::OtherPlaceholders,
        MarkKind::Tag => Rule::OtherTags,
        MarkKind::Address => Rule::OtherAddresses,
        MarkKind::Number => Rule::OtherNumbers,
    }
}

/// Says how the blanks of an item differ from those of the root's.
fn edge_text(edge: Edge) -> &'static str {
    match edge {
        Edge::First { is_lost: true } => "begins with no blank, and with one in the root",
        Edge::First { is_lost: false } => "begins with a blank, and with none in the root",
        Edge::Last { is_lost: true } => "ends with no blank, and with one in the root",
        Edge::Last { is_lost: false } => "ends with a blank, and with none in the root",
        Edge::Spelled(_) =>
            "has a backslash and n where the root has a line feed; is a line feed meant?",
    }
}

fn value_word(kind: ValueKind) -> &'static str {
    match kind {
        ValueKind::Any => "it is",
        ValueKind::Number => "a number",
        ValueKind::Date => "a date",
        ValueKind::Text => "a word",
    }
}

/// Describes a change after the item's path, with `*` in place of its name.
fn text_of(change: &Change) -> &'static str {
    match change {
        Change::Absent => "isn't here, and is in the root",
        Change::Additional => "isn't in the root",
        Change::OtherKind { .. } => "is of another type than in the root",
        Change::Lacks(_) => "has no {*}, which it has in the root",
        Change::Adds(_) => "has {*}, which it hasn't in the root",
        Change::OtherUse { .. } => "uses {*} in another way than the root",
        Change::OtherLength { .. } => "has another number of items than in the root",
        Change::Unreadable(_) => "is a message in the root, and can't be formatted here",
        Change::LacksMark(..) => "has no *, which it has in the root",
        Change::AddsMark(..) => "has *, which it hasn't in the root",
        Change::Blanks(edge) => edge_text(*edge),
        Change::LacksEnding(_) => "doesn't end with '*', as it does in the root",
        Change::Empty => "is empty, and not in the root",
        Change::Same => "is the root's text; is it to be translated?",
    }
}

/// Returns the name that a change is about, or an empty one.
fn name_of(change: &Change) -> &str {
    match change {
        Change::Lacks(name)
        | Change::Adds(name)
        | Change::OtherUse { name, .. }
        | Change::LacksMark(_, name)
        | Change::AddsMark(_, name) => shown(name),
        Change::LacksEnding(ending) => ending.shown(),
        _ => "",
    }
}

fn write_kinds<W: fmt::Write>(f: &mut fmt::Formatter<W>, here: Kind, root: Kind) -> fmt::Result {
    let (here, root) = (kind_word(here), kind_word(root));
    write!(f, "is {here}, and {root} in the root")
}

fn write_uses<W: fmt::Write>(
    f: &mut fmt::Formatter<W>,
    name: &str,
    here: ValueKind,
    root: ValueKind,
) -> fmt::Result {
    let (here, root) = (value_word(here), value_word(root));
    write!(f, "uses {{{name}}} as {here}, and the root as {root}")
}

fn write_fault<W: fmt::Write>(f: &mut fmt::Formatter<W>, fault: MessageFault) -> fmt::Result {
    write!(
        f,
        "is a message in the root, and can't be formatted here: {fault}"
    )
}

fn write_lengths<W: fmt::Write>(
    f: &mut fmt::Formatter<W>,
    here: usize,
    root: usize,
) -> fmt::Result {
    write!(f, "has {here} items, and {root} in the root")
}

/// Describes a change after the item's path.
impl fmt::Display for Change {
    fn fmt<W: fmt::Write>(&self, f: &mut fmt::Formatter<W>) -> fmt::Result {
        match self {
            Change::OtherKind { here, root } => write_kinds(f, *here, *root),
            Change::OtherUse { name, here, root } => write_uses(f, shown(name), *here, *root),
            Change::OtherLength { here, root } => write_lengths(f, *here, *root),
            Change::Unreadable(fault) => write_fault(f, *fault),
            other => write_named(f, text_of(other), name_of(other)),
        }
    }
}

impl fmt::Display for Difference {
    fn fmt<W: fmt::Write>(&self, f: &mut fmt::Formatter<W>) -> fmt::Result {
        let path = shown(&self.path);
        match &self.change {
            Change::Absent => write!(f, "the root has '{path}', and this text doesn't"),
            change => write!(f, "'{path}' {change}"),
        }
    }
}
