//! The settings of a project.
use crate::check::File;
use crate::fault::{Problem, SettingsFault};
use crate::place::position;
use std::alloc::{AllocError, Global};
use toml::{Table, Value};

/// The settings of a project, by the names of tables and keys. Names of files are relative to the
/// folder of the settings file.
#[derive(Drop)]
pub struct Settings {
    table: Table,
}

/// One table of the settings, or none.
#[derive(Clone, Copy)]
pub struct Section<'a>(Option<&'a Table>);

impl<'a> Section<'a> {
    /// Returns the string of a key.
    pub fn text(self, key: &str) -> Option<&'a str> {
        self.0?.get(key)?.as_str()
    }

    /// Returns the strings of a key, none if it is missing.
    pub fn texts(self, alloc: Global, key: &str) -> Result<Vec<&'a str>, AllocError> {
        let mut texts = Vec::new(alloc);
        let values = match self.0.and_then(|table| table.get(key)) {
            Some(Value::Array(values)) => values,
            _ => return Ok(texts),
        };
        for value in values {
            if let Value::String(text) = value {
                texts.push(text.as_str())?;
            }
        }
        Ok(texts)
    }

    /// Returns the flag of a key, which is false if it is missing.
    pub fn flag(self, key: &str) -> bool {
        match self.0.and_then(|table| table.get(key)) {
            Some(Value::Boolean(flag)) => *flag,
            _ => false,
        }
    }

    /// Returns the number of a key.
    pub fn number(self, key: &str) -> Option<u64> {
        match self.0.and_then(|table| table.get(key)) {
            Some(Value::Integer(number)) => u64::try_from(*number).ok(),
            _ => None,
        }
    }
}

/// Returns the fault of a text that is no TOML.
fn syntax_fault(text: &str, error: toml::de::Error) -> SettingsFault {
    let Some(span) = error.span() else {
        return SettingsFault::Memory;
    };
    let (line, column) = position(text, span.start);
    SettingsFault::At(line, column, Problem::Syntax(error))
}

impl Settings {
    /// Returns the settings of an empty file.
    pub fn none(alloc: Global) -> Settings {
        Settings {
            table: Table::new(alloc),
        }
    }

    /// Reads the text of a settings file, in TOML. `rules` are the names of all warnings; without
    /// them, those in the text aren't checked. Errors: `At` with a problem and its place; `Memory`
    /// if memory runs out.
    pub fn read(
        alloc: Global,
        text: &[u8],
        rules: &[&'static str],
    ) -> Result<Settings, SettingsFault> {
        let Ok(text) = str::from_utf8(text) else {
            return Err(SettingsFault::At(1, 1, Problem::NotUtf8));
        };
        let table = match toml::table_from_str(alloc, text) {
            Ok(table) => table,
            Err(error) => return Err(syntax_fault(text, error)),
        };
        let file = File { text, rules };
        match file.check(&table) {
            Ok(()) => Ok(Settings { table }),
            Err(fault) => Err(fault),
        }
    }

    /// Returns the table of a name.
    pub fn section(&self, name: &str) -> Section<'_> {
        match self.table.get(name) {
            Some(Value::Table(table)) => Section(Some(table)),
            _ => Section(None),
        }
    }

    /// Returns the tables of a name, each of which is written in two brackets.
    pub fn sections(&self, alloc: Global, name: &str) -> Result<Vec<Section<'_>>, AllocError> {
        let mut sections = Vec::new(alloc);
        let Some(Value::Array(values)) = self.table.get(name) else {
            return Ok(sections);
        };
        for value in values {
            sections.push(Section(value.as_table()))?;
        }
        Ok(sections)
    }
}
