//! The output of `resb coverage`: a table by locale, a list by key, JSON and CSV.
use rb_console::{Console, JsonText};
use rb_coverage::{Counts, Finding, Found};
use rb_locales::Name;
use rb_tree::Tree;
use std::alloc::{AllocError, Global};
use std::{fmt, io};

/// The forms of the output.
#[derive(Clone, Copy, PartialEq, Eq)]
pub(crate) enum CoverageFormat {
    /// A line for each locale.
    Table,
    /// A line for each key and finding.
    List,
    /// An object for each key and finding, in a line.
    Json,
    /// A row for each key, finding and locale.
    Csv,
}

impl CoverageFormat {
    /// Returns the format with a name, or None if there is none.
    pub(crate) fn named(name: Option<&str>) -> Option<CoverageFormat> {
        match name {
            None | Some("table") => Some(CoverageFormat::Table),
            Some("list") => Some(CoverageFormat::List),
            Some("json") => Some(CoverageFormat::Json),
            Some("csv") => Some(CoverageFormat::Csv),
            Some(_) => None,
        }
    }
}

/// A field of a row of CSV, which is in quotes if it has a comma, a quote or a line's end. On a
/// terminal, what it acts on is escaped.
#[derive(Clone, Copy)]
struct CsvText<'a>(&'a str, Console);

impl<'a> fmt::Display for CsvText<'a> {
    fn fmt<W: fmt::Write>(&self, f: &mut fmt::Formatter<W>) -> fmt::Result {
        if !self.0.contains([',', '"', '\n', '\r']) {
            return write!(f, "{}", self.1.on_stdout(self.0));
        }
        f.write_char('"')?;
        for c in self.0.chars() {
            if c == '"' {
                f.write_char('"')?;
            }
            write!(f, "{}", self.1.char_on_stdout(c))?;
        }
        f.write_char('"')
    }
}

/// The head of a table, in columns that are as wide as those of its lines.
const TABLE_HEAD: &str = "locale                     missing    unused      same      type \
arguments";

/// A module, and what its output is.
#[derive(Clone, Copy)]
pub(crate) struct Printed<'a> {
    pub(crate) format: CoverageFormat,
    pub(crate) console: Console,
    /// The folder of the module's files.
    pub(crate) module: &'a str,
    /// There are several modules, so that a list names each.
    pub(crate) is_named: bool,
    pub(crate) trees: &'a [(Name, Tree, bool)],
}

/// Says of a key what is found, before the names of locales.
fn phrase(finding: Finding) -> &'static str {
    match finding {
        Finding::Missing => "missing in",
        Finding::Unused => "unused in",
        Finding::Same => "the same as the parent's in",
        Finding::OtherType => "of another type than the parent's in",
        Finding::OtherArguments => "other arguments than the parent's in",
    }
}

/// Returns the name of a tree's locale.
pub(crate) fn name_at(trees: &[(Name, Tree, bool)], i: usize) -> &str {
    match trees.get(i) {
        Some(tree) => str::from_utf8(tree.0.as_bytes()).unwrap_or("?"),
        None => "?",
    }
}

/// Joins the names of the locales with a finding. Each is in `quote`s.
fn joined(
    alloc: Global,
    trees: &[(Name, Tree, bool)],
    found: &[Found],
    finding: Finding,
    (comma, quote): (&str, &str),
) -> Result<String, AllocError> {
    let mut names = String::new(alloc);
    for one in found {
        if one.finding != finding {
            continue;
        }
        if !names.is_empty() {
            names.push_str(comma)?;
        }
        names.push_str(quote)?;
        names.push_str(name_at(trees, one.locale))?;
        names.push_str(quote)?;
    }
    Ok(names)
}

/// Prints the head of CSV.
pub(crate) fn put_head<R: Print>(rt: &R, format: CoverageFormat) -> io::Result<()> {
    match format {
        CoverageFormat::Csv => println!(rt; "module,key,finding,locale"),
        _ => Ok(()),
    }
}

impl<'a> Printed<'a> {
    /// Prints what is found at a key.
    pub(crate) fn put_key<R: AllocGlobal + Print>(
        &self,
        rt: &R,
        path: &str,
        found: &[Found],
    ) -> io::Result<()> {
        match self.format {
            CoverageFormat::Table => Ok(()),
            CoverageFormat::List => self.put_findings(rt, path, found, (", ", "")),
            CoverageFormat::Json => self.put_findings(rt, path, found, (",", "\"")),
            CoverageFormat::Csv => self.put_rows(rt, path, found),
        }
    }

    /// Prints a line or an object for each finding. Marks are a comma and a quote for the names of
    /// its locales.
    fn put_findings<R: AllocGlobal + Print>(
        &self,
        rt: &R,
        path: &str,
        found: &[Found],
        marks: (&str, &str),
    ) -> io::Result<()> {
        for finding in Finding::ALL {
            let names = joined(rt.alloc(), self.trees, found, finding, marks)?;
            if !names.is_empty() {
                self.put_finding(rt, path, finding, names.as_str())?;
            }
        }
        Ok(())
    }

    /// Prints a line or an object of a finding.
    fn put_finding<R: Print>(
        &self,
        rt: &R,
        path: &str,
        finding: Finding,
        names: &str,
    ) -> io::Result<()> {
        if self.format == CoverageFormat::List {
            self.put_line(rt, path, phrase(finding), names)
        } else {
            self.put_object(rt, path, finding.name(), names)
        }
    }

    /// Prints what is found in locales, with the module before it if there are several.
    fn put_line<R: Print>(&self, rt: &R, path: &str, phrase: &str, names: &str) -> io::Result<()> {
        let path = self.console.on_stdout(path);
        if self.is_named {
            let module = self.console.on_stdout(self.module);
            print!(rt; "{module}: ")?;
        }
        println!(rt; "{path}: {phrase} {names}")
    }

    /// Prints an object of a finding in locales.
    fn put_object<R: Print>(
        &self,
        rt: &R,
        path: &str,
        finding: &str,
        names: &str,
    ) -> io::Result<()> {
        let (module, path) = (JsonText(self.module), JsonText(path));
        print!(rt; "{{\"module\":\"{module}\",\"key\":\"{path}\",")?;
        println!(rt; "\"finding\":\"{finding}\",\"locales\":[{names}]}}")
    }

    /// Prints a row for each finding and locale.
    fn put_rows<R: Print>(&self, rt: &R, path: &str, found: &[Found]) -> io::Result<()> {
        let (module, path) = (
            CsvText(self.module, self.console),
            CsvText(path, self.console),
        );
        for one in found {
            let (finding, name) = (one.finding.name(), name_at(self.trees, one.locale));
            println!(rt; "{module},{path},{finding},{name}")?;
        }
        Ok(())
    }

    /// Prints the head of a module's table: how many keys with text the root has.
    pub(crate) fn put_table<R: AllocGlobal + Print>(
        &self,
        rt: &R,
        keys: u64,
        locales: &[usize],
        counts: &[Counts],
    ) -> io::Result<()> {
        if self.format != CoverageFormat::Table {
            return Ok(());
        }
        let module = self.console.on_stdout(self.module);
        println!(rt; "{module}: {keys} keys\n{TABLE_HEAD}")?;
        for locale in locales {
            let counts = counts.get(*locale).copied().unwrap_or(Counts::none());
            self.put_counts(rt, name_at(self.trees, *locale), counts)?;
        }
        Ok(())
    }

    /// Prints a locale's line of a table.
    fn put_counts<R: Print>(&self, rt: &R, name: &str, counts: Counts) -> io::Result<()> {
        println!(rt;
            "{name:<24}{:>10}{:>10}{:>10}{:>10}{:>10}",
            counts.missing, counts.unused, counts.same, counts.other_type, counts.other_arguments
        )
    }
}
