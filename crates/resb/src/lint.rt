//! Why a text isn't compiled, and what is doubtful in it.
ghost use Rattle.std.specs.Prelude.{◌≡◌, ◌≢◌, ◌+◌, ◌<◌, ◌≤◌, ◌↔◌, IfOk, drop, length, take};
ghost use Rattle.std.specs.Prelude.{vec_len};
ghost use Rattle.std.specs.List.{AllZip};
ghost use Rattle.rb_lint.specs.Warnings.{AreInOrder, AreWithin, HasNoError, IsCompiled};
ghost use Rattle.rb_lint.specs.Warnings.{line_count};
ghost use Rattle.rb_lint.specs.declared.finding.Severity.TheVariants as Severities;
ghost use Rattle.resb.specs.Lint.{AreFindings, HasText, Shows};

use crate::numbers::{BAD_TEXT, MEMORY, NO_ROOM, text_number};
use crate::origins::zero_ended;
use rb_lint::{Levels, Message, Report, Settings, Severity, find_all};
use std::alloc::{AllocError, Global};

/// The sizes of a rule's name and of a message, with a zero byte after it. No message about a text
/// alone is longer.
const RULE_SIZE: usize = 28;

const MESSAGE_SIZE: usize = 464;

/// An error or a warning at its place in a text. The column counts UTF-16 units.
#[repr(C)]
#[derive(Clone, Copy)]
pub struct Finding {
    pub line: u64,
    pub column: u64,
    /// The number of the error, or 0 for a warning.
    pub error: u32,
    /// The code of the error or the name of the warning, with a zero byte after it.
    pub rule: [u8; RULE_SIZE],
    pub message: [u8; MESSAGE_SIZE],
}

/// Returns the first characters of a text that leave room for a zero byte.
fn front_of(text: &str, size: usize) -> &[u8]
    requires { 0 < size }
    ensures { length result.now < size }
{
    let most = text.len().min(size - 1);
    for cut in 0..4 {
        let past = most.saturating_sub(cut);
        if text.is_char_boundary(past) {
            return &text.as_bytes()[..past];
        }
    }
    &[]
}

/// Returns a field with a text and a zero byte after it.
fn field_of<const N: usize>(text: &str) -> [u8; N]
    requires { 0 < N }
    ensures { HasText result }
{
    zero_ended(front_of(text, N))
}

/// Returns the number of an error, or 0 for a warning.
fn number_of(finding: &rb_lint::Finding) -> u32
    ensures { result ≡ 0 → finding.now.severity ≡ Severities.Warning }
{
    match (finding.severity, &finding.message) {
        (Severity::Warning, _) => 0,
        (Severity::Error, Message::Fault(fault)) => text_number(fault.kind),
        (Severity::Error, _) => BAD_TEXT,
    }
}

fn shown(alloc: Global, finding: &rb_lint::Finding) -> Result<Finding, AllocError>
    ensures { IfOk result (Shows finding.now) }
{
    let message = format!(in alloc; "{}", &finding.message)?;
    Ok(Finding {
        line: finding.line,
        column: finding.column,
        error: number_of(finding),
        rule: field_of(finding.code().unwrap_or("")),
        message: field_of(message.as_str()),
    })
}

fn shown_all(alloc: Global, report: &Report) -> Result<Vec<Finding>, AllocError>
    ensures { IfOk result (λ fs. AllZip Shows report.now.findings.items fs.items) }
{
    let mut all = Vec::new(alloc);
    for finding in &report.findings {
        all.push(shown(alloc, finding)?)?;
    }
    Ok(all)
}

/// Returns what is reported of a text: warnings up to a limit, and its error.
fn report_of(alloc: Global, text: &[u8], name: &[u8], limit: usize) -> Result<Report, AllocError>
    ensures order { IfOk result (λ r. AreInOrder (λ f. f.line) r.findings.items) }
    ensures within { IfOk result
        (λ r. AreWithin (line_count text.now) (λ f. f.line) r.findings.items) }
    ensures few { IfOk result (λ r. vec_len r.findings ≤ limit + 1) }
    ensures error { IfOk result (λ r. HasNoError r.findings.items → IsCompiled text.now) }
{
    let settings = Settings {
        name: if name.is_empty() { None } else { Some(name) },
        levels: Levels::warning(),
        limit,
        root: None,
        forbidden: &[],
        longest: usize::MAX,
        parent: None,
        dead: &[],
    };
    find_all(alloc, text, &settings)
}

/// Returns the findings of a text, with warnings up to a limit, and the number of those past it.
fn findings_of(
    alloc: Global,
    text: &[u8],
    name: &[u8],
    limit: usize,
) -> Result<(Vec<Finding>, u64), AllocError>
    ensures findings { IfOk result (λ r. AreFindings text.now r.0.items) }
    ensures few { IfOk result (λ r. vec_len r.0 ≤ limit + 1) }
{
    let report = report_of(alloc, text, name, limit)?;
    let findings = shown_all(alloc, &report)?;
    Ok((findings, report.left_out))
}

/// Finds what `resb lint` reports of a text, which should have a name unless it is empty: its error
/// and the first warnings, in the order of the text, as far as there is room. Writes the number of
/// warnings that are left out to `more`.
#[unsafe(no_mangle)]
pub extern "C" fn resb_lint(
    alloc: Global,
    text: &[u8],
    name: &[u8],
    out: &mut [Finding],
    count: &mut usize,
    more: &mut u64,
) -> u32
    ensures findings { result ≡ 0 → AreFindings text.now (take count.new out.new) }
    ensures few { result ≡ 0 → count.new ≤ length out.old }
    ensures beyond { result ≡ 0 → drop count.new out.new ≡ drop count.new out.old }
    ensures unchanged { result ≢ 0 → out.new ≡ out.old }
    ensures room { (result ≡ 5) ↔ (length out.old ≡ 0) }
    ensures memory { result ≢ 0 → result ≢ 5 → result ≡ 1 }
{
    let Some(limit) = out.len().checked_sub(1) else {
        *count = 1;
        return NO_ROOM;
    };
    let Ok((findings, left_out)) = findings_of(alloc, text, name, limit) else {
        return MEMORY;
    };
    out[..findings.len()].copy_from_slice(&findings);
    *count = findings.len();
    *more = left_out;
    0
}
