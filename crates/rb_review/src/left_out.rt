//! The warnings that the settings of a project leave out.
use rb_lint::{Finding, Levels, Rule, RuleSet, paths_at};
use rb_project::{Modules, Project, Section, matches};
use std::alloc::{AllocError, Global};

/// The names of the rules about messages. As one text they take the prover less time.
const MESSAGE_RULES: &str = "bad-message bad-pattern broken-message missing-category missing-other \
one-branch-argument other-arguments quoted-argument repeated-selector stray-brace unknown-selector \
unused-category";

/// Rules that are left out at some paths.
#[derive(Drop)]
struct Filter<'a> {
    paths: Vec<&'a str>,
    rules: RuleSet,
    /// They are left out at all other paths.
    is_inverse: bool,
}

/// The levels of one text, and the warnings that are left out at some of its paths.
#[derive(Drop)]
pub(crate) struct LeftOut<'a> {
    pub(crate) levels: Levels,
    filters: Vec<Filter<'a>>,
}

/// Checks whether one of the patterns matches a name.
pub(crate) fn is_one(patterns: &[&str], name: &str) -> bool {
    patterns
        .iter()
        .any(|pattern| matches(pattern.as_bytes(), name.as_bytes()))
}

/// Returns the tables of the settings with a name that are for a text.
pub(crate) fn sections_for<'a>(
    alloc: Global,
    project: &'a Project,
    table: &str,
    name: &str,
) -> Result<Vec<Section<'a>>, AllocError> {
    let relative = project.relative(alloc, name)?;
    let mut sections = Vec::new(alloc);
    for section in project.settings.sections(alloc, table)? {
        let files = section.texts(alloc, "files")?;
        if files.is_empty() || is_one(&files, relative.as_str()) {
            sections.push(section)?;
        }
    }
    Ok(sections)
}

/// Returns the path of a finding, or an empty one if paths aren't known.
pub(crate) fn path_at(paths: &[String], i: usize) -> &str {
    match paths.get(i) {
        Some(path) => path.as_str(),
        None => "",
    }
}

/// Returns the places of findings, each a line and a column.
pub(crate) fn places_of(
    alloc: Global,
    findings: &[Finding],
) -> Result<Vec<(u64, u64)>, AllocError> {
    let mut places = Vec::new(alloc);
    for finding in findings {
        places.push((finding.line, finding.column))?;
    }
    Ok(places)
}

/// Returns a set of rules with the one of a name, if there is one.
fn with_rule(rules: RuleSet, name: &str) -> RuleSet {
    match Rule::named(name) {
        Some(rule) => rules.with(rule),
        None => rules,
    }
}

/// Returns a set of rules with those that a key of a table names.
pub(crate) fn with_texts(
    alloc: Global,
    rules: RuleSet,
    section: Section<'_>,
    key: &str,
) -> Result<RuleSet, AllocError> {
    let mut rules = rules;
    for name in section.texts(alloc, key)? {
        rules = with_rule(rules, name);
    }
    Ok(rules)
}

/// Returns the rules about messages.
fn message_rules() -> RuleSet {
    let mut rules = RuleSet::none();
    for name in MESSAGE_RULES.split(' ') {
        rules = with_rule(rules, name);
    }
    rules
}

impl<'a> LeftOut<'a> {
    /// Leaves out rules at paths, or at all others.
    fn add_filter(
        &mut self,
        paths: Vec<&'a str>,
        rules: RuleSet,
        is_inverse: bool,
    ) -> Result<(), AllocError> {
        self.filters.push(Filter {
            paths,
            rules,
            is_inverse,
        })?;
        Ok(())
    }

    /// Adds what a table allows.
    fn add_allowance(&mut self, alloc: Global, section: Section<'a>) -> Result<(), AllocError> {
        let paths = section.texts(alloc, "paths")?;
        if paths.is_empty() {
            self.levels.allowed = with_texts(alloc, self.levels.allowed, section, "warnings")?;
            return Ok(());
        }
        let rules = with_texts(alloc, RuleSet::none(), section, "warnings")?;
        self.add_filter(paths, rules, false)
    }

    /// Adds the paths of a module that aren't messages.
    fn add_messages(
        &mut self,
        alloc: Global,
        section: Section<'a>,
        (key, is_inverse): (&str, bool),
    ) -> Result<(), AllocError> {
        let paths = section.texts(alloc, key)?;
        if paths.is_empty() {
            return Ok(());
        }
        self.add_filter(paths, message_rules(), is_inverse)
    }

    /// Returns what the settings leave out in a text.
    pub(crate) fn of(
        alloc: Global,
        modules: &Modules<'a>,
        levels: Levels,
        name: &str,
    ) -> Result<LeftOut<'a>, AllocError> {
        let mut left_out = LeftOut {
            levels,
            filters: Vec::new(alloc),
        };
        for section in sections_for(alloc, modules.project, "allow", name)? {
            left_out.add_allowance(alloc, section)?;
        }
        if let Some(module) = modules.of_text(alloc, name)? {
            left_out.add_messages(alloc, module.section, ("messages", true))?;
            left_out.add_messages(alloc, module.section, ("no-messages", false))?;
        }
        Ok(left_out)
    }

    pub(crate) fn has_paths(&self) -> bool {
        !self.filters.is_empty()
    }

    /// Returns the paths of findings, or none if nothing is left out by its path.
    pub(crate) fn paths(
        &self,
        alloc: Global,
        text: &[u8],
        findings: &[Finding],
    ) -> Result<Vec<String>, AllocError> {
        if !self.has_paths() {
            return Ok(Vec::new(alloc));
        }
        paths_at(alloc, text, &places_of(alloc, findings)?)
    }

    /// Checks whether a warning at a path is left out.
    pub(crate) fn has(&self, rule: Rule, path: &str) -> bool {
        self.filters.iter().any(|filter| filter.rules.has(rule)
            && is_one(&filter.paths, path) != filter.is_inverse)
    }
}
