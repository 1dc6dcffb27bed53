//! The words of `resb lint`'s command line.
use crate::left_out::with_texts;
use rb_asked::AskedLint;
use rb_console::Console;
use rb_lint::{Levels, Rule, RuleSet};
use rb_project::Project;
use std::alloc::{AllocError, Global};

/// The forms of the output.
#[derive(Clone, Copy, PartialEq, Eq)]
pub(crate) enum Format {
    /// A line for each finding.
    Text,
    /// The line of each finding in its text, with the place below.
    Full,
    /// An object for each finding, in a line.
    Json,
    /// One SARIF log of version 2.1.0.
    Sarif,
    /// Workflow commands of GitHub.
    GitHub,
}

impl Format {
    /// Returns the format with a name, or that for the console without one. None if no format has the
    /// name.
    pub(crate) fn named(name: Option<&str>, console: Console) -> Option<Format> {
        match name {
            None if console.is_output_terminal => Some(Format::Full),
            None | Some("text") => Some(Format::Text),
            Some("full") => Some(Format::Full),
            Some("json") => Some(Format::Json),
            Some("sarif") => Some(Format::Sarif),
            Some("github") => Some(Format::GitHub),
            Some(_) => None,
        }
    }
}

/// Returns whether the output has colours, or None if the word is neither `auto`, `always` nor `never`.
/// On a terminal it may have them.
pub(crate) fn has_colors(word: Option<&str>, console: Console, may_have: bool) -> Option<bool> {
    match word {
        None | Some("auto") => Some(console.is_output_terminal && may_have),
        Some("always") => Some(true),
        Some("never") => Some(false),
        Some(_) => None,
    }
}

/// Returns the rules with these names. If there is none with a name, reports that.
fn rules_of<R: Eprint>(rt: &R, console: Console, names: &[&str]) -> Option<RuleSet> {
    let mut rules = RuleSet::none();
    for name in names {
        let Some(rule) = Rule::named(name) else {
            let name = console.on_stderr(name);
            let _ = eprintln!(rt; "resb: no warning has the name {name}: resb lint --list has all");
            return None;
        };
        rules = rules.with(rule);
    }
    Some(rules)
}

/// Returns what to do with the warnings of each rule. If there is none with a name, reports that.
pub(crate) fn levels_of<R: Eprint>(
    rt: &R,
    console: Console,
    asked: &AskedLint<'_>,
) -> Option<Levels> {
    Some(Levels {
        allowed: rules_of(rt, console, &asked.allow)?,
        denied: rules_of(rt, console, &asked.deny)?,
        wanted: RuleSet::none(),
    })
}

/// Returns the names of all rules.
pub(crate) fn rule_names(alloc: Global) -> Result<Vec<&'static str>, AllocError> {
    let mut names = Vec::new(alloc);
    for rule in Rule::all() {
        names.push(rule.name())?;
    }
    Ok(names)
}

/// Adds what the settings of a project allow and deny in all texts.
pub(crate) fn with_settings(
    alloc: Global,
    levels: Levels,
    project: &Project,
) -> Result<Levels, AllocError> {
    let section = project.settings.section("lint");
    Ok(Levels {
        allowed: with_texts(alloc, levels.allowed, section, "allow")?,
        denied: with_texts(alloc, levels.denied, section, "deny")?,
        wanted: levels.wanted,
    })
}
