//! Finds the strings that are the root's where other locales of the module translate them.
use crate::linting::bundle_name;
use rb_console::read_file;
use rb_coverage::{Translations, translated_paths};
use rb_lint::{Finding, Levels, Message, Rule};
use rb_parser::parse;
use rb_project::{Modules, Text};
use rb_tree::Tree;
use std::alloc::{AllocError, Global};
use std::rt::Files;

/// The language of a root's strings if the settings don't name it.
const ENGLISH: &str = "en";

/// The strings of a module that its locales translate.
#[derive(Drop)]
pub(crate) struct SameTexts {
    translations: Translations,
    /// The language of the root's strings.
    language: String,
    /// The settings name it.
    is_named: bool,
    /// The root's strings are in no language, as its language has others.
    is_neutral: bool,
}

/// Returns the language of a locale's name.
fn language_of(name: &str) -> &str {
    let end = name.find(['_', '-']).unwrap_or(name.len());
    name.get(..end).unwrap_or(name)
}

/// Returns the locale of a text, or an empty name if it isn't known.
fn locale_of(name: &str) -> &str {
    match bundle_name(name) {
        Some(locale) => str::from_utf8(locale).unwrap_or(""),
        None => "",
    }
}

/// Reads a text that is an ordinary file, since another one may be read only once. Returns None if
/// it isn't compiled, which is reported when it is linted.
fn tree_of<R: Files + AllocGlobal>(rt: &R, name: &str) -> Option<Tree> {
    if !rt.metadata(name).is_ok_and(|seen| seen.is_file()) {
        return None;
    }
    let text = read_file(rt, name).ok()?;
    match parse(rt.alloc(), &text) {
        Ok(source) => Some(source.tree),
        Err(_) => None,
    }
}

impl SameTexts {
    pub(crate) fn none(alloc: Global) -> SameTexts {
        SameTexts {
            translations: Translations::none(alloc),
            language: String::new(alloc),
            is_named: false,
            is_neutral: true,
        }
    }

    /// Returns those of a module of which no text was read, given one of its texts.
    fn of_module(
        alloc: Global,
        modules: &Modules<'_>,
        name: &str,
    ) -> Result<SameTexts, AllocError> {
        let named = match modules.of_text(alloc, name)? {
            Some(module) => module.section.text("source-language"),
            None => None,
        };
        Ok(SameTexts {
            translations: Translations::none(alloc),
            language: String::from_str(alloc, language_of(named.unwrap_or(ENGLISH)))?,
            is_named: named.is_some(),
            is_neutral: false,
        })
    }

    /// Checks whether a locale has the root's language.
    fn is_source(&self, locale: &str) -> bool {
        language_of(locale).eq_ignore_ascii_case(self.language.as_str())
    }

    /// Counts what a text translates.
    fn add<R: Files + AllocGlobal>(
        &mut self,
        rt: &R,
        name: &str,
        root: &Tree,
    ) -> Result<(), AllocError> {
        let locale = locale_of(name);
        let is_source = self.is_source(locale);
        if is_source && (self.is_named || locale != self.language.as_str()) {
            return Ok(());
        }
        match tree_of(rt, name) {
            Some(tree) => self.add_paths(translated_paths(rt.alloc(), &tree, root)?, is_source),
            None => Ok(()),
        }
    }

    /// Counts the paths that a text translates.
    fn add_paths(&mut self, paths: Vec<String>, is_source: bool) -> Result<(), AllocError> {
        if is_source {
            self.is_neutral = self.is_neutral || !paths.is_empty();
            return Ok(());
        }
        self.translations.add(paths)
    }

    /// Reads the texts of a module: the first ones that have the root's text of this name, or none.
    pub(crate) fn read<R: Files + AllocGlobal>(
        rt: &R,
        modules: &Modules<'_>,
        texts: &[Text],
        (name, root): (&str, &Tree),
    ) -> Result<SameTexts, AllocError> {
        let mut same = SameTexts::of_module(rt.alloc(), modules, name)?;
        for text in texts {
            match &text.root {
                Some(other) if other.as_str() == name => same.add(rt, text.name.as_str(), root)?,
                Some(_) => break,
                None => {}
            }
        }
        Ok(same)
    }

    /// Returns the levels of a text, with those of the root's strings if they are looked for there.
    pub(crate) fn levels(&self, levels: Levels, name: &str) -> Levels {
        if self.is_neutral || self.is_source(locale_of(name)) {
            return levels;
        }
        Levels {
            allowed: levels.allowed,
            denied: levels.denied,
            wanted: levels.wanted.with(Rule::SameText),
        }
    }

    /// Checks whether a finding is one of a string that other locales don't translate either.
    pub(crate) fn leaves_out(
        &self,
        alloc: Global,
        levels: Levels,
        finding: &Finding,
    ) -> Result<bool, AllocError> {
        if finding.rule != Some(Rule::SameText) || levels.denied.has(Rule::SameText) {
            return Ok(false);
        }
        let Message::Difference(difference) = &finding.message else {
            return Ok(false);
        };
        let path = String::from_utf8_lossy(alloc, &difference.path)?;
        Ok(!self.translations.has(&path))
    }
}
