use crate::rule::Rule;
use std::fmt;

/// A part of a text that is valid and probably not meant.
#[derive(Clone, Copy)]
pub enum Doubt {
    /// A quoted piece spans lines.
    RunsOn,
    /// A quoted piece is next to an unquoted one, which puts a space between them.
    Mixed,
    /// Two adjacent texts of an array or a vector form one item.
    Joined,
    /// An item of several words isn't in quotes, and others of its array are.
    LooseItem,
    /// A brace, opened in the given line, isn't closed before a line that is not indented further.
    NotClosed(u32),
    /// A brace closes none that was opened at its column.
    NotOpened,
    /// A line is indented further than the entry before it, without an open brace.
    FurtherRight,
    /// A backslash precedes this ordinary letter, and has no effect.
    Escape(char),
    /// Two backslashes are where one would begin an escape.
    TwoBackslashes,
    OtherName,
    /// A control of the writing direction isn't closed in its piece.
    Direction,
    /// A line begins like the conflict markers of Git.
    Conflict,
    /// A key that isn't quoted has this character.
    KeyWith(char),
    /// A key has several pieces with white space between them.
    KeyWithSpace,
    /// A text precedes a brace in an array.
    EntryInArray,
    /// A value begins and ends with quotes of another kind.
    OtherQuotes,
    /// A comment allows a warning that doesn't exist.
    UnknownAllowed,
    /// A `//` after a colon begins a comment.
    UnquotedAddress,
    /// An alias leads to nothing in the bundle and in the root.
    AliasToNothing,
    /// An alias leads to nothing in ICUDATA.
    NothingInData,
    /// A %%Parent or %%ALIAS is no locale, or the bundle itself.
    BadParent,
    /// A key is %%Parent or %%ALIAS in other letters.
    MisspelledKey,
}

impl Doubt {
    pub fn rule(self) -> Rule {
        match self {
            Doubt::RunsOn => Rule::OpenQuote,
            Doubt::Mixed | Doubt::LooseItem => Rule::MixedQuotes,
            Doubt::Joined => Rule::JoinedStrings,
            Doubt::NotClosed(_) => Rule::MissingCloseBrace,
            Doubt::NotOpened | Doubt::FurtherRight => Rule::MissingOpenBrace,
            Doubt::Escape(_) => Rule::UnknownEscape,
            Doubt::TwoBackslashes => Rule::DoubledBackslash,
            Doubt::OtherName => Rule::BundleName,
            Doubt::Direction => Rule::OpenDirection,
            Doubt::Conflict => Rule::ConflictMarker,
            Doubt::KeyWith(_) | Doubt::KeyWithSpace => Rule::SuspiciousKey,
            Doubt::EntryInArray => Rule::EntryInArray,
            Doubt::OtherQuotes => Rule::OtherQuotes,
            Doubt::UnknownAllowed => Rule::UnknownAllowed,
            Doubt::UnquotedAddress => Rule::UnquotedAddress,
            Doubt::AliasToNothing | Doubt::NothingInData => Rule::AliasToNothing,
            Doubt::BadParent => Rule::BadParent,
            Doubt::MisspelledKey => Rule::MisspelledKey,
        }
    }

    /// Describes a doubt without what it names.
    fn fixed_text(self) -> &'static str {
        match self {
            Doubt::RunsOn =>
                "a quoted text goes on over the end of this line; is its closing quote missing?",
            Doubt::Mixed =>
                "a quoted and an unquoted text side by side are joined with a space; is a quote missing?",
            Doubt::LooseItem =>
                "this text of several words isn't in quotes, and others of its array are; are quotes missing?",
            Doubt::Joined => "two texts side by side are joined into one; is a comma missing?",
            Doubt::Escape(_) => "a backslash has no effect before this letter",
            Doubt::TwoBackslashes =>
                "two backslashes are one backslash, and what follows is no escape",
            Doubt::Direction =>
                "a control of the writing direction isn't closed in this text, which is shown in another order; is it meant?",
            Doubt::OtherQuotes => "the quotes around this value are part of it; is \" meant?",
            other => other.layout_text(),
        }
    }

    /// Describes a doubt about braces, lines and comments.
    fn layout_text(self) -> &'static str {
        match self {
            Doubt::NotClosed(_) => "a brace isn't closed; is a closing brace missing?",
            Doubt::NotOpened =>
                "this brace closes none that is opened as far left; is an opening brace missing?",
            Doubt::FurtherRight =>
                "this line is further right than the entry before it; is an opening brace missing?",
            Doubt::Conflict =>
                "this line looks like a conflict marker of Git; is a merge unfinished?",
            Doubt::UnknownAllowed =>
                "this comment allows a warning that doesn't exist; resb lint --list has the names",
            Doubt::UnquotedAddress => "// begins a comment; an address is written in quotes",
            other => other.entry_text(),
        }
    }

    /// Describes a doubt about names, keys, aliases and parents.
    fn entry_text(self) -> &'static str {
        match self {
            Doubt::OtherName => "the bundle's name isn't the file's",
            Doubt::KeyWithSpace =>
                "this key has a space; is a brace missing before it? A key with a space is written in quotes",
            Doubt::EntryInArray =>
                "this is an array, in which a text and the braces after it are two items; is a table meant?",
            Doubt::AliasToNothing => "this alias leads to nothing in this bundle and in the root",
            Doubt::NothingInData => "this alias leads to nothing in ICUDATA",
            Doubt::BadParent =>
                "this isn't the name of another locale, so that each lookup in this bundle fails",
            Doubt::MisspelledKey =>
                "this key is nearly one of ICU's, which are %%ALIAS and %%Parent",
            _ => "this key has a character that is seldom meant in a key",
        }
    }
}

fn write_not_closed<W: fmt::Write>(f: &mut fmt::Formatter<W>, line: u32) -> fmt::Result {
    write!(
        f,
        "the brace that opens in line {line} isn't closed before this line; is a closing brace missing?"
    )
}

fn write_escape<W: fmt::Write>(f: &mut fmt::Formatter<W>, letter: char) -> fmt::Result {
    write!(
        f,
        "\\{letter} is the letter {letter} alone; is another escape meant, or \\\\{letter}?"
    )
}

fn write_sign<W: fmt::Write>(f: &mut fmt::Formatter<W>, sign: char) -> fmt::Result {
    if sign == '\0' {
        return f.write_str("this key has a NUL; is the file damaged?");
    }
    write!(
        f,
        "this key has a {sign}; is it meant? A key with a {sign} is written in quotes"
    )
}

impl fmt::Display for Doubt {
    fn fmt<W: fmt::Write>(&self, f: &mut fmt::Formatter<W>) -> fmt::Result {
        match self {
            Doubt::NotClosed(line) => write_not_closed(f, *line),
            Doubt::Escape(letter) => write_escape(f, *letter),
            Doubt::KeyWith(sign) => write_sign(f, *sign),
            other => f.write_str(other.fixed_text()),
        }
    }
}
