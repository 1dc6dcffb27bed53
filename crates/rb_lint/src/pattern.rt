use crate::named_text::{shown, write_named};
use crate::rule::Rule;
use rb_messages::{Category, Damage, MessageFault, PatternFault};
use std::fmt;

/// A mistake in a String, mostly in a message of ICU's MessageFormat: formatting it fails, or it is seldom
/// meant.
#[derive(Drop)]
pub enum PatternDoubt {
    /// It can't be parsed.
    Invalid(MessageFault),
    /// A closing brace closes none.
    Stray,
    /// An argument in apostrophes is plain text.
    Quoted(Vec<u8>),
    /// An argument has two messages for this selector.
    Repeated(Vec<u8>),
    /// A plural argument has a selector that is neither a category nor a number.
    Unknown(Vec<u8>),
    /// The language doesn't have a category.
    Unused(Category),
    /// The language has a category for which an argument has no message.
    Lacking(Category),
    /// An argument is in only one of the messages of another one.
    OneBranch(Vec<u8>),
    /// The pattern of a date or a number is doubtful.
    Style(PatternFault),
    /// Characters that no one writes.
    Damaged(Damage),
    /// It has a word that the settings forbid.
    Forbidden(Vec<u8>),
    /// It has more characters than are allowed.
    Long { length: usize, longest: usize },
}

/// A mistake at a unit of its String.
#[derive(Drop)]
pub(crate) struct PlacedDoubt {
    pub(crate) at: usize,
    pub(crate) doubt: PatternDoubt,
}

impl PatternDoubt {
    pub fn rule(&self) -> Rule {
        match self {
            PatternDoubt::Invalid(MessageFault::MissingOther) => Rule::MissingOther,
            PatternDoubt::Invalid(_) => Rule::BadMessage,
            PatternDoubt::Stray => Rule::StrayBrace,
            PatternDoubt::Quoted(_) => Rule::QuotedArgument,
            PatternDoubt::Repeated(_) => Rule::RepeatedSelector,
            PatternDoubt::Unknown(_) => Rule::UnknownSelector,
            PatternDoubt::Unused(_) => Rule::UnusedCategory,
            PatternDoubt::Lacking(_) => Rule::MissingCategory,
            PatternDoubt::OneBranch(_) => Rule::OneBranchArgument,
            PatternDoubt::Style(_) => Rule::BadPattern,
            PatternDoubt::Damaged(Damage::Replacement) => Rule::ReplacementCharacter,
            PatternDoubt::Damaged(Damage::Mojibake) => Rule::Mojibake,
            PatternDoubt::Damaged(Damage::MixedForms) => Rule::MixedForms,
            PatternDoubt::Damaged(Damage::MixedScripts) => Rule::MixedScripts,
            PatternDoubt::Forbidden(_) => Rule::ForbiddenWord,
            PatternDoubt::Long { .. } => Rule::TooLong,
        }
    }
}

/// Says what ICU makes of a pattern, and what is probably meant.
fn style_text(fault: PatternFault) -> &'static str {
    match fault {
        PatternFault::WeekYear => {
            "Y is the year of weeks, which differs from y at the ends of years; is y meant?"
        }
        PatternFault::DayOfYear => "D is the day of the year; is d meant?",
        PatternFault::Minutes => "m is the minute; is M, the month, meant?",
        PatternFault::Months => "M is the month; is m, the minute, meant?",
        PatternFault::Letter(_) => "a letter has no meaning in a pattern of a date",
        PatternFault::Decimal => {
            "in a pattern of a number the point is the decimal one in all languages, and a comma comes before it"
        }
    }
}

fn damage_text(damage: Damage) -> &'static str {
    match damage {
        Damage::Replacement => "U+FFFD stands for a character that could not be read",
        Damage::Mojibake => "this text is UTF-8 that was read in another encoding",
        Damage::MixedForms => {
            "a letter and its mark are two characters here, and one elsewhere in this text"
        }
        Damage::MixedScripts => {
            "a word has Latin and Cyrillic letters that look alike; are those of one script meant?"
        }
    }
}

/// Describes a doubt, with `*` in place of its name.
fn text_of(doubt: &PatternDoubt) -> &'static str {
    match doubt {
        PatternDoubt::Invalid(_) => "this message can't be formatted",
        PatternDoubt::Stray => "a closing brace closes no argument; is an opening brace missing?",
        PatternDoubt::Quoted(_) =>
            "{*} is plain text after an apostrophe; an apostrophe that is meant is written ''",
        PatternDoubt::Repeated(_) => "two messages are for '*'",
        PatternDoubt::Unknown(_) =>
            "'*' is no plural category: zero, one, two, few, many and other are",
        PatternDoubt::Unused(_) =>
            "the language has no plural category '*', so that its message is never chosen",
        PatternDoubt::Lacking(_) =>
            "the language has a plural category '*', for which no message is here",
        PatternDoubt::OneBranch(_) =>
            "{*} is in only one of the messages to choose from; is it missing in the others?",
        PatternDoubt::Style(fault) => style_text(*fault),
        PatternDoubt::Damaged(damage) => damage_text(*damage),
        PatternDoubt::Forbidden(_) => "the settings forbid '*'",
        PatternDoubt::Long { .. } => "this text is too long",
    }
}

/// Returns the name that a doubt is about, or an empty one.
fn name_of(doubt: &PatternDoubt) -> &str {
    match doubt {
        PatternDoubt::Quoted(name)
        | PatternDoubt::Repeated(name)
        | PatternDoubt::Unknown(name)
        | PatternDoubt::OneBranch(name)
        | PatternDoubt::Forbidden(name) => shown(name),
        PatternDoubt::Unused(category) | PatternDoubt::Lacking(category) => category.name(),
        _ => "",
    }
}

fn write_length<W: fmt::Write>(
    f: &mut fmt::Formatter<W>,
    length: usize,
    longest: usize,
) -> fmt::Result {
    write!(
        f,
        "this text has {length} characters; at most {longest} are allowed"
    )
}

fn write_letter<W: fmt::Write>(f: &mut fmt::Formatter<W>, letter: char) -> fmt::Result {
    write!(
        f,
        "{letter} has no meaning in a pattern of a date; a text in it is in apostrophes"
    )
}

fn write_invalid<W: fmt::Write>(f: &mut fmt::Formatter<W>, fault: MessageFault) -> fmt::Result {
    write!(f, "this message can't be formatted: {fault}")
}

impl fmt::Display for PatternDoubt {
    fn fmt<W: fmt::Write>(&self, f: &mut fmt::Formatter<W>) -> fmt::Result {
        match self {
            PatternDoubt::Invalid(fault) => write_invalid(f, *fault),
            PatternDoubt::Style(PatternFault::Letter(letter)) => write_letter(f, *letter),
            PatternDoubt::Long { length, longest } => write_length(f, *length, *longest),
            other => write_named(f, text_of(other), name_of(other)),
        }
    }
}
