//! `resb lint`.
use crate::baseline::Baseline;
use crate::data::{TextLinks, read_data};
use crate::left_out::{LeftOut, path_at};
use crate::lint_output::LintOutput;
use crate::lint_words::{Format, has_colors, levels_of, rule_names, with_settings};
use crate::same_texts::SameTexts;
use crate::snippet::Lines;
use crate::string_limits::StringLimits;
use rb_asked::AskedLint;
use rb_console::{
    CommandError, Console, allocated, failed, finish, printed, read_file, read_text, refused_on,
    stem,
};
use rb_coverage::ProjectData;
use rb_lint::{
    Finding, Levels, PathLength, Report, Rule, Settings, Severity, WARNING_LIMIT, find_all,
    lengths_in,
};
use rb_parser::parse;
use rb_project::{Modules, Text, open_project, root_of, texts_of};
use rb_tree::Tree;
use std::alloc::{AllocError, Global};
use std::io;
use std::process::ExitCode;
use std::rt::Files;

/// The root's text.
#[derive(Drop)]
struct RootText {
    tree: Tree,
    /// The limits of its comments, which its translations have too.
    lengths: Vec<PathLength>,
}

/// The last root's text of a module that was read.
#[derive(Drop)]
struct LastRoot {
    name: String,
    /// None if it isn't compiled.
    root: Option<RootText>,
    /// The strings that the texts of the module translate.
    same: SameTexts,
}

impl LastRoot {
    fn none(alloc: Global) -> LastRoot {
        LastRoot {
            name: String::new(alloc),
            root: None,
            same: SameTexts::none(alloc),
        }
    }

    /// Reads the root's text of a module, or reports the error, and what the first of some texts
    /// translate.
    fn read<R: Files + AllocGlobal + Eprint>(
        &mut self,
        rt: &R,
        (console, modules): (Console, &Modules<'_>),
        texts: &[Text],
        name: &str,
    ) -> Result<(), AllocError> {
        self.name = String::from_str(rt.alloc(), name)?;
        self.root = match read_root_text(rt, name) {
            Ok(root) => Some(root),
            Err(error) => {
                let _ = finish(rt, console, error);
                None
            }
        };
        self.same = match &self.root {
            Some(root) => SameTexts::read(rt, modules, texts, (name, &root.tree))?,
            None => SameTexts::none(rt.alloc()),
        };
        Ok(())
    }
}

/// The texts that a text is compared with.
#[derive(Clone, Copy, PartialEq, Eq)]
enum Beside {
    Nothing,
    /// The root's text that the command line names.
    Named,
    /// The root's text of the module.
    Module,
}

/// The arguments, settings and data that all texts of a command share.
#[derive(Clone, Copy)]
struct Common<'a> {
    levels: Levels,
    asked: &'a AskedLint<'a>,
    modules: &'a Modules<'a>,
    data: &'a ProjectData,
}

impl<'a> Common<'a> {
    /// Returns how many warnings of a text are printed.
    fn limit(self) -> usize {
        if self.asked.is_all {
            usize::MAX
        } else {
            WARNING_LIMIT
        }
    }

    /// Checks whether warnings count for the status.
    fn is_strict(self) -> bool {
        self.asked.is_strict || self.modules.project.settings.section("lint").flag("strict")
    }
}

/// The state of a command from text to text.
#[derive(Drop)]
struct Linter<'a> {
    common: Common<'a>,
    output: LintOutput,
    baseline: Baseline,
    /// The root's text that all are compared with.
    named: Option<RootText>,
    last: LastRoot,
    /// A root's text was refused.
    has_bad_root: bool,
}

/// Returns the name that a text's bundle should have, or None for standard input without a name,
/// whose name says nothing of the text.
pub(crate) fn bundle_name(name: &str) -> Option<&[u8]> {
    match name {
        "-" | "/dev/stdin" | "/dev/fd/0" | "/proc/self/fd/0" => None,
        _ => Some(stem(name).as_bytes()),
    }
}

/// The count of the findings of a text.
#[derive(Clone, Copy)]
struct Tally {
    limit: usize,
    is_strict: bool,
    /// There is none that counts for the status.
    is_good: bool,
    /// The numbers of warnings that are printed, and of those past the limit.
    printed: usize,
    more: u64,
}

impl Tally {
    /// Returns the count of no findings.
    fn of(common: Common<'_>) -> Tally {
        Tally {
            limit: common.limit(),
            is_strict: common.is_strict(),
            is_good: true,
            printed: 0,
            more: 0,
        }
    }

    /// Counts a finding. Returns true if it is printed.
    fn takes(&mut self, finding: &Finding) -> bool {
        if finding.rule.is_some() {
            if self.printed >= self.limit {
                self.more = self.more.saturating_add(1);
                return false;
            }
            self.printed = self.printed.saturating_add(1);
        }
        if self.is_strict || finding.severity == Severity::Error {
            self.is_good = false;
        }
        true
    }
}

impl<'a> Linter<'a> {
    /// Returns the root's text that a text is compared with.
    fn root_text(&self, beside: Beside) -> Option<&RootText> {
        match beside {
            Beside::Nothing => None,
            Beside::Named => self.named.as_ref(),
            Beside::Module => self.last.root.as_ref(),
        }
    }

    /// Reads the root's text of a module, and what the first of some texts translate, unless it is
    /// the last root's text that was read.
    fn read_root<R: Files + AllocGlobal + Eprint>(
        &mut self,
        rt: &R,
        texts: &[Text],
        name: &str,
    ) -> Result<(), AllocError> {
        if self.last.name.as_str() != name {
            let from = (self.output.console, self.common.modules);
            self.last.read(rt, from, texts, name)?;
            self.has_bad_root = self.has_bad_root || self.last.root.is_none();
        }
        Ok(())
    }

    /// Reads the root that the first of some texts is compared with, if a module says it.
    fn prepare_root<R: Files + AllocGlobal + Eprint>(
        &mut self,
        rt: &R,
        name: &str,
        texts: &[Text],
    ) -> Result<Beside, AllocError> {
        let (None, Some(text)) = (&self.named, texts.first()) else {
            return Ok(Beside::Named);
        };
        if let Some(root) = &text.root {
            self.read_root(rt, texts, root.as_str())?;
            return Ok(Beside::Module);
        }
        if name == text.name.as_str() {
            return Ok(Beside::Nothing);
        }
        match root_of(rt.alloc(), self.common.modules, name)? {
            Some(root) => {
                self.read_root(rt, &[], root.as_str())?;
                Ok(Beside::Module)
            }
            None => Ok(Beside::Nothing),
        }
    }

    /// Checks whether the settings leave out a warning.
    fn leaves_out(
        &mut self,
        alloc: Global,
        left_out: &LeftOut<'_>,
        finding: &Finding,
        (file, path): (&str, &str),
    ) -> Result<bool, AllocError> {
        let Some(rule) = finding.rule else {
            return Ok(false);
        };
        if left_out.has_paths() && left_out.has(rule, path) {
            return Ok(true);
        }
        if self.last.same.leaves_out(alloc, left_out.levels, finding)? {
            return Ok(true);
        }
        if self.baseline.is_empty() {
            return Ok(false);
        }
        self.baseline.takes(alloc, file, finding)
    }

    /// Prints the findings of a text that aren't left out.
    fn print_findings<R: AllocGlobal + Print>(
        &mut self,
        rt: &R,
        left_out: &LeftOut<'_>,
        (name, text): (&str, &[u8]),
        findings: &[Finding],
    ) -> io::Result<Tally> {
        let paths = left_out.paths(rt.alloc(), text, findings)?;
        let file = self.common.modules.project.relative(rt.alloc(), name)?;
        let mut tally = Tally::of(self.common);
        let mut lines = Lines::of(text);
        for (i, finding) in findings.iter().enumerate() {
            let place = (file.as_str(), path_at(&paths, i));
            if !self.leaves_out(rt.alloc(), left_out, finding, place)? && tally.takes(finding) {
                self.output.finding(rt, name, &mut lines, finding)?;
            }
        }
        Ok(tally)
    }

    /// Returns how many warnings of a text are taken: all, not only as many as are printed, where
    /// some are left out later.
    fn taken(&self, left_out: &LeftOut<'_>, limits: &StringLimits<'_>) -> usize {
        let takes_all = !self.baseline.is_empty()
            || left_out.has_paths()
            || left_out.levels.wanted.has(Rule::SameText)
            || limits.has_lengths();
        if takes_all {
            usize::MAX
        } else {
            self.common.limit()
        }
    }

    /// Returns the findings of a text, also of strings that are within the limits at their paths.
    fn found(
        &self,
        alloc: Global,
        left_out: &LeftOut<'_>,
        (name, text): (&str, &[u8]),
        root: Option<&RootText>,
        limits: &StringLimits<'_>,
    ) -> Result<Report, AllocError> {
        let name = bundle_name(name);
        let links = TextLinks::of(alloc, self.common.data, name, text)?;
        let settings = Settings {
            name,
            levels: left_out.levels,
            limit: self.taken(left_out, limits),
            root: match root {
                Some(root) => Some(&root.tree),
                None => None,
            },
            forbidden: &limits.forbidden,
            longest: limits.lowest(),
            parent: links.parent(),
            dead: &links.dead,
        };
        find_all(alloc, text, &settings)
    }

    /// Returns the findings of a text within the limits of its strings.
    fn report_of(
        &self,
        alloc: Global,
        left_out: &LeftOut<'_>,
        (name, text): (&str, &[u8]),
        root: Option<&RootText>,
    ) -> Result<Report, AllocError> {
        let limits = limits_of(alloc, self.common.modules, (name, text), root)?;
        let report = self.found(alloc, left_out, (name, text), root, &limits)?;
        Ok(Report {
            findings: limits.applied(alloc, text, report.findings)?,
            left_out: report.left_out,
        })
    }

    /// Prints the findings of a text that was read. Returns true if there are none that count.
    fn lint_read<R: AllocGlobal + Print>(
        &mut self,
        rt: &R,
        (name, text): (&str, &[u8]),
        beside: Beside,
    ) -> io::Result<bool> {
        let alloc = rt.alloc();
        let levels = match beside {
            Beside::Module => self.last.same.levels(self.common.levels, name),
            Beside::Nothing | Beside::Named => self.common.levels,
        };
        let left_out = LeftOut::of(alloc, self.common.modules, levels, name)?;
        let report = self.report_of(alloc, &left_out, (name, text), self.root_text(beside))?;
        let tally = self.print_findings(rt, &left_out, (name, text), &report.findings)?;
        let more = report.left_out.saturating_add(tally.more);
        self.output.left_out(rt, name, more)?;
        Ok(tally.is_good)
    }

    /// Prints the findings of the first of some texts.
    fn lint_first<R: Files + Input + AllocGlobal + Print + Eprint>(
        &mut self,
        rt: &R,
        texts: &[Text],
    ) -> ExitCode {
        let Some(text) = texts.first() else {
            return ExitCode::SUCCESS;
        };
        let file = text.name.as_str();
        let name = match self.common.asked.name {
            Some(name) if file == "-" => name,
            _ => file,
        };
        let bytes = match read_text(rt, file) {
            Ok(bytes) => bytes,
            Err(error) => {
                let error = CommandError::Unread(name, ":0", error.kind());
                return failed(rt, self.output.console, error);
            }
        };
        let Ok(beside) = self.prepare_root(rt, name, texts) else {
            return refused_on(rt, self.output.console, name, "Memory");
        };
        let outcome = self.lint_read(rt, (name, &bytes), beside);
        text_status(rt, self.output.console, name, outcome)
    }

    /// Prints the findings of each text.
    fn lint_each<R: Files + Input + AllocGlobal + Print + Eprint>(
        &mut self,
        rt: &R,
        texts: &[Text],
    ) -> ExitCode {
        let mut status = ExitCode::SUCCESS;
        for i in 0..texts.len() {
            let one = self.lint_first(rt, texts.get(i..).unwrap_or(&[]));
            if one == ExitCode::from(2) {
                return one;
            }
            if one != ExitCode::SUCCESS {
                status = one;
            }
        }
        if self.has_bad_root {
            return ExitCode::from(1);
        }
        status
    }

    /// Prints the findings of all texts.
    fn lint_texts<R: Files + Input + AllocGlobal + Print + Eprint>(
        &mut self,
        rt: &R,
        texts: &[Text],
    ) -> ExitCode {
        if let Err(error) = self.output.begin(rt) {
            return printed(rt, Err(error));
        }
        let status = self.lint_each(rt, texts);
        if status == ExitCode::from(2) {
            return status;
        }
        match self.output.end(rt) {
            Ok(()) => status,
            Err(error) => printed(rt, Err(error)),
        }
    }
}

/// Returns the limits of a text's strings: those of the settings, of its comments, and of its root's.
fn limits_of<'a>(
    alloc: Global,
    modules: &Modules<'a>,
    (name, text): (&str, &[u8]),
    root: Option<&RootText>,
) -> Result<StringLimits<'a>, AllocError> {
    let mut limits = StringLimits::of(alloc, modules, name, lengths_in(alloc, text)?)?;
    if let Some(root) = root {
        limits.add_lengths(alloc, &root.lengths)?;
    }
    Ok(limits)
}

/// Returns the status of a text by its findings. Out of memory is an error of the text.
fn text_status<R: Eprint>(
    rt: &R,
    console: Console,
    name: &str,
    outcome: io::Result<bool>,
) -> ExitCode {
    match outcome {
        Ok(true) => ExitCode::SUCCESS,
        Ok(false) => ExitCode::from(1),
        Err(error) if error.kind() == io::ErrorKind::OutOfMemory => {
            refused_on(rt, console, name, "Memory")
        }
        Err(error) => printed(rt, Err(error)),
    }
}

/// Reads the root's text.
fn read_root_text<'a, R: Files + AllocGlobal>(
    rt: &R,
    name: &'a str,
) -> Result<RootText, CommandError<'a>> {
    let text = read_file(rt, name).map_err(|error| CommandError::Unread(name, ":0", error.kind()))?;
    let source = parse(rt.alloc(), &text).map_err(|fault| CommandError::TextRefused(name, fault))?;
    match lengths_in(rt.alloc(), &text) {
        Ok(lengths) => Ok(RootText {
            tree: source.tree,
            lengths,
        }),
        Err(_) => Err(CommandError::Refused(name, "Memory")),
    }
}

/// Reads the root's text of the command line, if it names one. Returns the status of the command if
/// that is refused, once that is reported.
fn read_named<R: Files + AllocGlobal + Eprint>(
    rt: &R,
    console: Console,
    name: Option<&str>,
) -> Result<Option<RootText>, ExitCode> {
    match name {
        Some(name) => match read_root_text(rt, name) {
            Ok(root) => Ok(Some(root)),
            Err(error) => Err(failed(rt, console, error)),
        },
        None => Ok(None),
    }
}

/// Prints the findings of all texts beside the root's text of the command line. Returns the status
/// of the command also if a text isn't found, or the baseline can't be read.
fn lint_beside<R: Files + Input + AllocGlobal + Print + Eprint>(
    rt: &R,
    output: LintOutput,
    common: Common<'_>,
    named: Option<RootText>,
) -> Result<ExitCode, ExitCode> {
    let texts = texts_of(rt, output.console, common.modules, &common.asked.texts)?;
    let mut linter = Linter {
        common,
        output,
        baseline: Baseline::read(rt, output.console, common.modules.project)?,
        named,
        last: LastRoot::none(rt.alloc()),
        has_bad_root: false,
    };
    Ok(linter.lint_texts(rt, &texts))
}

/// Opens the project of a command, reads the data of its settings and the root's text of the command
/// line, and prints the findings of all texts. Returns the status of the command also if something
/// can't be read or is refused, once that is reported.
fn lint_project<R: Files + Input + AllocGlobal + Print + Eprint>(
    rt: &R,
    output: LintOutput,
    levels: Levels,
    asked: &AskedLint<'_>,
) -> Result<ExitCode, ExitCode> {
    let (alloc, console) = (rt.alloc(), output.console);
    let rules = allocated(rt, console, rule_names(alloc))?;
    let project = open_project(rt, console, asked.config, &rules)?;
    let levels = allocated(rt, console, with_settings(alloc, levels, &project))?;
    let modules = allocated(rt, console, Modules::of(alloc, &project))?;
    let section = project.settings.section("data");
    let data = read_data(rt, console, &project, None, section)?;
    let named = read_named(rt, console, asked.root)?;
    let common = Common {
        levels,
        asked,
        modules: &modules,
        data: &data,
    };
    lint_beside(rt, output, common, named)
}

/// Prints the names of all rules, each with what it warns of.
fn list<R: Print>(rt: &R) -> io::Result<()> {
    for rule in Rule::all() {
        let (name, about) = (rule.name(), rule.about());
        println!(rt; "{name}: {about}")?;
    }
    Ok(())
}

/// Prints what is doubtful in bundle texts, and the error of each text that isn't compiled, in the
/// order of each text, as `TEXT:LINE:COLUMN: warning: ..`, or in another format: on a terminal with
/// the line of the text and a caret below the place, in colours. If a root's text
/// is given, prints also how each text that is compiled differs from it. The status is 0; 1 if a
/// text has an error or can't be read, with `is_strict` also if there is a warning, and if the
/// root's text is refused or can't be read, before anything is printed; 2 if a word is no name of a
/// warning or no format, the settings are refused, a folder has no text of a module, and as soon as
/// standard output can't be written.
///
/// The settings of the project say what is left out, which warnings are errors, and which root's
/// text a text is compared with if none is given. A folder stands for the texts of its modules. If
/// the output `is_colorless` it has colours only where they are asked for. With `is_list` the names
/// of all warnings are printed instead.
pub fn lint_all<R: Files + Input + AllocGlobal + Print + Eprint>(
    rt: &R,
    (console, is_colorless): (Console, bool),
    asked: &AskedLint<'_>,
) -> ExitCode {
    if asked.is_list {
        return printed(rt, list(rt));
    }
    let Some(format) = Format::named(asked.format, console) else {
        let _ = eprintln!(rt; "resb: --format is text, full, json, sarif or github");
        return ExitCode::from(2);
    };
    let Some(has_colors) = has_colors(asked.color, console, !is_colorless) else {
        let _ = eprintln!(rt; "resb: --color is auto, always or never");
        return ExitCode::from(2);
    };
    match levels_of(rt, console, asked) {
        Some(levels) => {
            let output = LintOutput::new(format, console, has_colors);
            match lint_project(rt, output, levels, asked) {
                Ok(status) | Err(status) => status,
            }
        }
        None => ExitCode::from(2),
    }
}
