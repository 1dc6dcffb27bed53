//! Checks the names and the types in a settings file.
use crate::fault::{Problem, SettingsFault};
use crate::keys::{KeyKind, TableKind, key_kind, table_kind};
use crate::place::{Header, place_of};
use toml::{Table, Value};

/// The text of a settings file, and the names of all warnings, or none if they aren't checked.
#[derive(Clone, Copy)]
pub(crate) struct File<'a> {
    pub(crate) text: &'a str,
    pub(crate) rules: &'a [&'static str],
}

impl<'a> File<'a> {
    /// Returns the fault of a problem at a key below a header.
    fn fault(self, header: Header<'_>, key: &str, problem: Problem) -> SettingsFault {
        let (line, column) = place_of(self.text, header, key);
        SettingsFault::At(line, column, problem)
    }

    /// Checks whether a warning has this name, if the names of all warnings are known.
    fn has_rule(self, name: &str) -> bool {
        self.rules.is_empty() || self.rules.iter().any(|rule| *rule == name)
    }

    /// Returns what is wrong with the strings of a value.
    fn texts_problem(self, kind: KeyKind, values: &[Value]) -> Option<Problem> {
        for value in values {
            match value.as_str() {
                None => return Some(Problem::NotA(kind.shown())),
                Some(name) if matches!(kind, KeyKind::Rules) && !self.has_rule(name) => {
                    return Some(Problem::UnknownWarning);
                }
                Some(_) => {}
            }
        }
        None
    }

    /// Returns what is wrong with a value.
    fn value_problem(self, kind: KeyKind, value: &Value) -> Option<Problem> {
        let is_good = match (kind, value) {
            (KeyKind::Text, Value::String(_)) | (KeyKind::Flag, Value::Boolean(_)) => true,
            (KeyKind::Number(least, most), Value::Integer(n)) => least <= *n && *n <= most,
            (KeyKind::Texts | KeyKind::Rules, Value::Array(values)) => {
                return self.texts_problem(kind, values);
            }
            _ => false,
        };
        if is_good {
            None
        } else {
            Some(Problem::NotA(kind.shown()))
        }
    }

    /// Checks the keys of a table.
    fn check_table(self, header: Header<'_>, table: &Table) -> Result<(), SettingsFault> {
        for (key, value) in table.iter() {
            let problem = match key_kind(header.name, key.as_str()) {
                None => Some(Problem::Unknown),
                Some(kind) => self.value_problem(kind, value),
            };
            if let Some(problem) = problem {
                return Err(self.fault(header, key.as_str(), problem));
            }
        }
        Ok(())
    }

    /// Checks a table, and that a module has either a folder or patterns.
    fn check_entry(self, header: Header<'_>, value: &Value) -> Result<(), SettingsFault> {
        let Value::Table(table) = value else {
            return Err(self.fault(header, "", Problem::NotA("a table")));
        };
        let is_module = header.name == "module";
        if is_module && table.contains_key("folder") == table.contains_key("patterns") {
            return Err(self.fault(header, "", Problem::FolderOrPatterns));
        }
        self.check_table(header, table)
    }

    /// Checks each table of a name.
    fn check_entries(self, name: &str, values: &[Value]) -> Result<(), SettingsFault> {
        let mut number: usize = 0;
        for value in values {
            self.check_entry(Header { name, number }, value)?;
            number = number.saturating_add(1);
        }
        Ok(())
    }

    /// Checks all tables. Errors: `At` with the first problem by the order of names.
    pub(crate) fn check(self, table: &Table) -> Result<(), SettingsFault> {
        let top = Header {
            name: "",
            number: 0,
        };
        for (name, value) in table.iter() {
            let name = name.as_str();
            match (table_kind(name), value) {
                (None, _) => return Err(self.fault(top, name, Problem::Unknown)),
                (Some(TableKind::Many), Value::Array(values)) => {
                    self.check_entries(name, values)?;
                }
                (Some(TableKind::Many), _) => {
                    let kind = "an array of tables, each with its name in two brackets";
                    return Err(self.fault(Header { name, number: 0 }, "", Problem::NotA(kind)));
                }
                (Some(TableKind::One), value) => {
                    self.check_entry(Header { name, number: 0 }, value)?;
                }
            }
        }
        Ok(())
    }
}
