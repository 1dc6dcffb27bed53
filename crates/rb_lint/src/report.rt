ghost use Rattle.std.specs.Prelude.{◌≡◌, ◌≤◌, ◌+◌, All, IfOk, IfSome, IsErr, IsSome, OnOk, vec_len};
ghost use Rattle.rb_lint.specs.Warnings.{AreInOrder, AreWithin, HasNoError, IsCompiled};
ghost use Rattle.rb_lint.specs.Warnings.{line_count};
ghost use Rattle.rb_lint.specs.declared.finding.Severity.TheVariants as Severities;

use crate::allowed::Allowances;
use crate::collector::{Collector, Found};
use crate::fault::{Fault, find_fault, is_utf16};
use crate::finding::{Finding, Message, Severity};
use crate::position::{Position, line_count};
use crate::rule::Levels;
use crate::scan::{Open, Quoting};
use crate::search::search_text;
use crate::text_tokens::parse_text;
use crate::values::search_values;
use rb_lexer::{SourceFault, SourceKind};
use rb_parser::Source;
use rb_tree::Tree;
use std::alloc::{AllocError, Global};

/// The maximum number of warnings of one text, unless all are asked for.
pub const WARNING_LIMIT: usize = 100;

/// The settings of one lint run.
#[derive(Clone, Copy)]
pub struct Settings<'a> {
    /// The name that the bundle should have, if it is known.
    pub name: Option<&'a [u8]>,
    pub levels: Levels,
    /// The maximum number of warnings.
    pub limit: usize,
    /// The tree of the root's text, to compare with.
    pub root: Option<&'a Tree>,
    /// The words that no string may have, in UTF-16.
    pub forbidden: &'a [Vec<u16>],
    /// The maximum number of characters of a string.
    pub longest: usize,
    /// The explicit parent of the bundle's locale.
    pub parent: Option<&'a [u8]>,
    /// The texts of aliases that lead to nothing in ICUDATA, ascending.
    pub dead: &'a [Vec<u16>],
}

/// The findings of a text, in its order.
#[derive(Drop)]
pub struct Report {
    pub findings: Vec<Finding>,
    /// The number of warnings past the limit.
    pub left_out: u64,
}

/// Returns the line of a finding after another one: one of the text's lines, and not an earlier one.
fn line_after(last: u64, line: u64, lines: u64) -> u64
    requires { last ≤ lines }
    ensures { (last ≤ result) × (result ≤ lines) }
{
    if line < last {
        last
    } else if lines < line {
        lines
    } else {
        line
    }
}

/// Returns a warning of a rule, or the error of a text that isn't compiled, in its line.
fn finding_at(line: u64, column: u64, levels: Levels, found: Found) -> Finding
    ensures line { result.line ≡ line }
    ensures error { result.severity ≡ Severities.Warning → IsSome found.rule }
{
    let severity = match found.rule {
        Some(rule) if !levels.makes_error(rule) => Severity::Warning,
        _ => Severity::Error,
    };
    Finding {
        line,
        column,
        severity,
        rule: found.rule,
        message: found.message,
    }
}

/// Converts findings by ascending places to those with lines and columns.
fn located(
    alloc: Global,
    text: &[u8],
    levels: Levels,
    found: Vec<Found>,
) -> Result<Vec<Finding>, AllocError>
    ensures order { IfOk result (λ fs. AreInOrder (λ f. f.line) fs.items) }
    ensures within { IfOk result (λ fs. AreWithin (line_count text.now) (λ f. f.line) fs.items) }
    ensures count { IfOk result (λ fs. vec_len fs ≡ vec_len found) }
    ensures error { IfOk result (λ fs. HasNoError fs.items → All (λ f. IsSome f.rule) found.items) }
{
    let lines = line_count(text);
    let mut findings = Vec::new(alloc);
    let mut position = Position::first();
    let mut last = 1;
    for one in found {
        position.advance(text, one.at);
        let line = line_after(last, position.line, lines);
        findings.push(finding_at(line, position.column, levels, one))?;
        last = line;
    }
    Ok(findings)
}

/// Parses a text, or returns its fault. `Err` means out of memory.
fn parsed(alloc: Global, text: &[u8]) -> Result<Result<Source, SourceFault>, AllocError>
    ensures { IfOk result (λ o. IfOk o (λ s. IsCompiled text.now)) }
{
    match parse_text(alloc, text) {
        Err(fault) if fault.kind == SourceKind::Memory => Err(AllocError),
        outcome => Ok(outcome),
    }
}

/// Checks whether a text can't be searched: it is too long, or it isn't UTF-8.
fn is_unreadable(text: &[u8], outcome: &Result<Source, SourceFault>) -> bool {
    match outcome {
        Ok(_) => false,
        Err(fault) => {
            matches!(fault.kind, SourceKind::TooLong | SourceKind::NotUtf8) || is_utf16(text)
        }
    }
}

/// Finds what is doubtful in a text, and why it isn't compiled.
fn search_readable<'a, 'c>(
    alloc: Global,
    text: &'a [u8],
    settings: &Settings<'a>,
    allowances: &'c Allowances,
    outcome: &Result<Source, SourceFault>,
) -> Result<(Collector<'c>, Option<Fault>), AllocError>
    ensures { IfOk result (λ r. IsErr outcome.now → IsSome r.1) }
{
    let (found, open) = search_text(alloc, text, settings, allowances);
    match outcome {
        Err(fault) => {
            let fault = find_fault(alloc, text, *fault, open)?;
            Ok((found, Some(fault)))
        }
        Ok(source) => {
            let found = search_values(text, &source.tree, settings, found);
            Ok((found, None))
        }
    }
}

/// The findings of a search.
#[derive(Drop)]
struct Searched {
    /// The first warnings, in the order of the text.
    warnings: Vec<Found>,
    /// The number of all warnings.
    count: u64,
    /// Why the text isn't compiled.
    fault: Option<Fault>,
}

/// Finds why a text that can't be searched isn't compiled.
fn search_unreadable(
    alloc: Global,
    text: &[u8],
    outcome: &Result<Source, SourceFault>,
) -> Result<Searched, AllocError>
    ensures { IfOk result (λ s. IsErr outcome.now → IsSome s.fault) }
{
    let fault = match outcome {
        Err(fault) => Some(find_fault(alloc, text, *fault, Open::Nothing)?),
        Ok(_) => None,
    };
    Ok(Searched {
        warnings: Vec::new(alloc),
        count: 0,
        fault,
    })
}

/// Finds what comments don't allow in a text, and why it isn't compiled.
fn search_allowed<'a>(
    alloc: Global,
    text: &'a [u8],
    settings: &Settings<'a>,
    outcome: &Result<Source, SourceFault>,
) -> Result<Searched, AllocError>
    ensures { IfOk result (λ s. IsErr outcome.now → IsSome s.fault) }
{
    let allowances = Allowances::of(alloc, text, Quoting::OverLines)?;
    let (found, fault) = search_readable(alloc, text, settings, &allowances, outcome)?;
    let (warnings, count) = found.ordered()?;
    Ok(Searched {
        warnings,
        count,
        fault,
    })
}

/// Finds what is doubtful in a text that was parsed, and why it isn't compiled.
fn search<'a>(
    alloc: Global,
    text: &'a [u8],
    settings: &Settings<'a>,
    outcome: &Result<Source, SourceFault>,
) -> Result<Searched, AllocError>
    ensures { IfOk result (λ s. IsErr outcome.now → IsSome s.fault) }
{
    if is_unreadable(text, outcome) {
        search_unreadable(alloc, text, outcome)
    } else {
        search_allowed(alloc, text, settings, outcome)
    }
}

/// Inserts the error of a text after the warnings up to its place.
fn insert_fault(found: &mut Vec<Found>, fault: Fault) -> Result<(), AllocError>
    ensures count { OnOk result (vec_len found.new ≡ vec_len found.old + 1) }
    ensures error { OnOk result (All (λ f. IsSome f.rule) found.new.items → ⊥) }
{
    let place = found.partition_point(|warning| warning.at <= fault.at);
    found.insert(
        place,
        Found {
            at: fault.at,
            rule: None,
            message: Message::Fault(fault.text),
        },
    )?;
    Ok(())
}

/// Returns the warnings of a text with its error, if it has one.
fn with_fault(warnings: Vec<Found>, fault: Option<Fault>) -> Result<Vec<Found>, AllocError>
    ensures count { IfOk result (λ fs. vec_len fs ≤ vec_len warnings + 1) }
    ensures error { IfOk result (λ fs. IfSome fault
        (λ f. All (λ g. IsSome g.rule) fs.items → ⊥)) }
{
    match fault {
        Some(fault) => {
            let mut found = warnings;
            insert_fault(&mut found, fault)?;
            Ok(found)
        }
        None => Ok(warnings),
    }
}

/// The findings that are reported of a text.
#[derive(Drop)]
struct Reported {
    found: Vec<Found>,
    /// The number of warnings past the limit.
    left_out: u64,
}

/// Returns the first warnings of a text, at most `limit`, with its error, if it has one.
fn limited(searched: Searched, limit: usize) -> Result<Reported, AllocError>
    ensures few { IfOk result (λ r. vec_len r.found ≤ limit + 1) }
    ensures error { IfOk result (λ r. IfSome searched.fault
        (λ f. All (λ g. IsSome g.rule) r.found.items → ⊥)) }
{
    let mut warnings = searched.warnings;
    warnings.truncate(limit);
    let left_out = searched.count.saturating_sub(warnings.len() as u64);
    let found = with_fault(warnings, searched.fault)?;
    Ok(Reported { found, left_out })
}

/// Finds what is reported of a text that was parsed.
fn search_limited<'a>(
    alloc: Global,
    text: &'a [u8],
    settings: &Settings<'a>,
    outcome: &Result<Source, SourceFault>,
) -> Result<Reported, AllocError>
    ensures few { IfOk result (λ r. vec_len r.found ≤ settings.now.limit + 1) }
    ensures error { IfOk result (λ r. IsErr outcome.now →
        All (λ g. IsSome g.rule) r.found.items → ⊥) }
{
    let searched = search(alloc, text, settings, outcome)?;
    limited(searched, settings.limit)
}

/// Finds what is doubtful in a bundle text, which may have any errors, and why it isn't compiled. The
/// findings are in the order of the text: its first warnings, at most as many as the limit, and its
/// error. The rules are this project's own. `Err` means out of memory.
///
/// If the text ends inside a quoted piece, each quoted piece is taken to end with its line, so that
/// a missing quote is found at its line. If a brace is missing, it is found by indentation, in texts
/// that are indented. In a text with as many braces of each kind, no layout is doubtful.
///
/// ```rust
/// // Of the text `de{a{"b" "c", "d"}}`: one warning at line 1, column 9, `Doubt::Joined`
/// find_all(alloc, text, &settings)?
/// ```
pub fn find_all<'a>(
    alloc: Global,
    text: &'a [u8],
    settings: &Settings<'a>,
) -> Result<Report, AllocError>
    ensures order { IfOk result (λ r. AreInOrder (λ f. f.line) r.findings.items) }
    ensures within { IfOk result
        (λ r. AreWithin (line_count text.now) (λ f. f.line) r.findings.items) }
    ensures few { IfOk result (λ r. vec_len r.findings ≤ settings.now.limit + 1) }
    // Whatever is allowed, a text that isn't compiled has an error.
    ensures error { IfOk result (λ r. HasNoError r.findings.items → IsCompiled text.now) }
{
    let outcome = parsed(alloc, text)?;
    let reported = search_limited(alloc, text, settings, &outcome)?;
    let findings = located(alloc, text, settings.levels, reported.found)?;
    Ok(Report {
        findings,
        left_out: reported.left_out,
    })
}
