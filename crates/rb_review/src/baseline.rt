//! The old warnings of a project, which aren't reported again.
use rb_console::{Console, JsonText, allocated, cannot_read_on, read_file};
use rb_lint::{Finding, Rule};
use rb_project::Project;
use std::alloc::{AllocError, Global};
use std::collections::BTreeMap;
use std::process::ExitCode;
use std::rt::Files;

/// Old warnings, each with the number of those that weren't met yet. A warning is a line of
/// `lint --format json` without its place.
#[derive(Drop)]
pub(crate) struct Baseline {
    counts: BTreeMap<String, u64>,
}

/// Returns a line of `lint --format json` without the line and the column.
fn without_place(alloc: Global, line: &str) -> Result<String, AllocError> {
    match (
        line.split_once("\"line\":"),
        line.split_once("\"severity\":"),
    ) {
        (Some((before, _)), Some((_, after))) => format!(in alloc; "{before}\"severity\":{after}"),
        _ => String::from_str(alloc, line),
    }
}

/// Returns the line of a warning without its place.
fn warning_line(
    alloc: Global,
    file: &str,
    finding: &Finding,
    rule: Rule,
) -> Result<String, AllocError> {
    let message = format!(in alloc; "{}", &finding.message)?;
    let (file, message) = (JsonText(file), JsonText(message.as_str()));
    let (level, rule) = (finding.severity.word(), rule.name());
    format!(in alloc;
        "{{\"file\":\"{file}\",\"severity\":\"{level}\",\"rule\":\"{rule}\",\"message\":\"{message}\"}}"
    )
}

impl Baseline {
    pub(crate) fn none(alloc: Global) -> Baseline {
        Baseline {
            counts: BTreeMap::new(alloc),
        }
    }

    pub(crate) fn is_empty(&self) -> bool {
        self.counts.is_empty()
    }

    /// Counts a warning that isn't met yet.
    fn add(&mut self, warning: String) -> Result<(), AllocError> {
        let count = self.counts.get(&warning).copied().unwrap_or(0);
        self.counts.insert(warning, count.saturating_add(1))?;
        Ok(())
    }

    /// Reads the lines of a baseline.
    fn of(alloc: Global, lines: &str) -> Result<Baseline, AllocError> {
        let mut baseline = Baseline::none(alloc);
        for line in lines.split('\n') {
            if !line.is_empty() {
                baseline.add(without_place(alloc, line)?)?;
            }
        }
        Ok(baseline)
    }

    /// Reads the baseline that the settings name, if they do. Returns the status of the command if
    /// it can't be read, once that is reported.
    pub(crate) fn read<R: Files + AllocGlobal + Eprint>(
        rt: &R,
        console: Console,
        project: &Project,
    ) -> Result<Baseline, ExitCode> {
        let alloc = rt.alloc();
        let Some(name) = project.settings.section("lint").text("baseline") else {
            return Ok(Baseline::none(alloc));
        };
        let name = allocated(rt, console, project.opened(alloc, name))?;
        let lines = read_file(rt, name.as_str()).map_err(|error| cannot_read_on(
            rt,
            console,
            name.as_str(),
            "",
            error,
        ))?;
        let lines = str::from_utf8(&lines).unwrap_or("");
        allocated(rt, console, Baseline::of(alloc, lines))
    }

    /// Checks whether a warning of a file is old, and counts it as met.
    pub(crate) fn takes(
        &mut self,
        alloc: Global,
        file: &str,
        finding: &Finding,
    ) -> Result<bool, AllocError> {
        let Some(rule) = finding.rule else {
            return Ok(false);
        };
        let line = warning_line(alloc, file, finding, rule)?;
        match self.counts.get_mut(&line) {
            Some(count) if *count > 0 => {
                *count = count.saturating_sub(1);
                Ok(true)
            }
            _ => Ok(false),
        }
    }
}
