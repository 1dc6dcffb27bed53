//! The problems of a settings file.
use std::fmt;

/// The reason why a settings file is refused.
#[derive(Clone, Copy)]
pub enum SettingsFault {
    /// A problem at a line and a column, both from 1. Columns count characters.
    At(u64, u64, Problem),
    Memory,
}

/// A problem at a place of a settings file.
#[derive(Clone, Copy)]
pub enum Problem {
    /// The text is no TOML.
    Syntax(toml::de::Error),
    NotUtf8,
    /// A table or a key that has no meaning there.
    Unknown,
    /// A value of another type than this one.
    NotA(&'static str),
    /// A name that no warning has.
    UnknownWarning,
    /// A module with a folder and patterns, or with neither.
    FolderOrPatterns,
}

impl fmt::Display for Problem {
    fn fmt<W: fmt::Write>(&self, f: &mut fmt::Formatter<W>) -> fmt::Result {
        match self {
            Problem::Syntax(error) => f.write_str(error.message()),
            Problem::NotUtf8 => f.write_str("the text isn't UTF-8"),
            Problem::Unknown => f.write_str("this name has no meaning here"),
            Problem::NotA(kind) => write!(f, "the value is {kind}"),
            Problem::UnknownWarning => {
                f.write_str("no warning has this name; resb lint --list has all")
            }
            Problem::FolderOrPatterns => f.write_str("a module has either a folder or patterns"),
        }
    }
}
