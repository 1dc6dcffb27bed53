//! The tables and the keys of a settings file.

/// The ways to write a table.
#[derive(Clone, Copy, PartialEq, Eq)]
pub(crate) enum TableKind {
    /// Once, as `[NAME]`.
    One,
    /// Any number of times, as `[[NAME]]`.
    Many,
}

/// The types of a key's value.
#[derive(Clone, Copy)]
pub(crate) enum KeyKind {
    Text,
    Texts,
    /// The names of warnings.
    Rules,
    Flag,
    /// A number between two others.
    Number(i64, i64),
}

impl KeyKind {
    /// Names the type.
    pub(crate) fn shown(self) -> &'static str {
        match self {
            KeyKind::Text => "a string",
            KeyKind::Texts | KeyKind::Rules => "an array of strings",
            KeyKind::Flag => "true or false",
            KeyKind::Number(_, 100) => "a number from 0 to 100",
            KeyKind::Number(_, 16) => "a number from 1 to 16",
            KeyKind::Number(_, 100_000) => "a number from 1 to 100000",
            KeyKind::Number(_, _) => "a number from 20 to 1000",
        }
    }
}

/// Returns how the table of a name is written, or None if no table has the name.
pub(crate) fn table_kind(name: &str) -> Option<TableKind> {
    match name {
        "data" | "lint" | "fmt" | "coverage" => Some(TableKind::One),
        "module" | "allow" | "forbid" | "limit" => Some(TableKind::Many),
        _ => None,
    }
}

fn data_key(key: &str) -> Option<KeyKind> {
    match key {
        "icudata" | "parents" => Some(KeyKind::Text),
        "cldr-parents" => Some(KeyKind::Flag),
        _ => None,
    }
}

fn lint_key(key: &str) -> Option<KeyKind> {
    match key {
        "allow" | "deny" => Some(KeyKind::Rules),
        "strict" => Some(KeyKind::Flag),
        "baseline" => Some(KeyKind::Text),
        _ => None,
    }
}

fn fmt_key(key: &str) -> Option<KeyKind> {
    match key {
        "indent" => Some(KeyKind::Number(1, 16)),
        "width" => Some(KeyKind::Number(20, 1000)),
        _ => None,
    }
}

fn coverage_key(key: &str) -> Option<KeyKind> {
    match key {
        "parents" => Some(KeyKind::Text),
        "cldr-parents" => Some(KeyKind::Flag),
        "complete" => Some(KeyKind::Number(0, 100)),
        _ => None,
    }
}

fn module_key(key: &str) -> Option<KeyKind> {
    match key {
        "folder" | "root" | "source-language" => Some(KeyKind::Text),
        "patterns" | "messages" | "no-messages" => Some(KeyKind::Texts),
        _ => None,
    }
}

fn allow_key(key: &str) -> Option<KeyKind> {
    match key {
        "files" | "paths" => Some(KeyKind::Texts),
        "warnings" => Some(KeyKind::Rules),
        _ => None,
    }
}

fn forbid_key(key: &str) -> Option<KeyKind> {
    match key {
        "files" | "words" => Some(KeyKind::Texts),
        _ => None,
    }
}

fn limit_key(key: &str) -> Option<KeyKind> {
    match key {
        "files" | "paths" => Some(KeyKind::Texts),
        "length" => Some(KeyKind::Number(1, 100_000)),
        _ => None,
    }
}

/// Returns the type of a key's value in the table of a name, or None if the table has no such key.
pub(crate) fn key_kind(table: &str, key: &str) -> Option<KeyKind> {
    match table {
        "data" => data_key(key),
        "lint" => lint_key(key),
        "fmt" => fmt_key(key),
        "coverage" => coverage_key(key),
        "module" => module_key(key),
        "forbid" => forbid_key(key),
        "limit" => limit_key(key),
        _ => allow_key(key),
    }
}
