//! The output of `resb lint`: lines for people and editors, JSON, SARIF, and GitHub's commands.
use crate::escaped::{GitHubText, UriText};
use crate::lint_words::Format;
use crate::snippet::{Lines, Snippet};
use rb_console::{Console, JsonText};
use rb_lint::{Finding, Rule};
use std::{fmt, io};

/// The line and the column of a place, each after words of a format, and words after them; nothing
/// for a note on a whole file.
#[derive(Clone, Copy)]
struct Place(Option<(u64, u64)>, &'static str, &'static str, &'static str);

impl fmt::Display for Place {
    fn fmt<W: fmt::Write>(&self, f: &mut fmt::Formatter<W>) -> fmt::Result {
        let Place(place, before, between, after) = *self;
        match place {
            Some((line, column)) => write!(f, "{before}{line}{between}{column}{after}"),
            None => Ok(()),
        }
    }
}

/// A name between words of a format, or nothing.
#[derive(Clone, Copy)]
struct Name(Option<&'static str>, &'static str, &'static str);

impl fmt::Display for Name {
    fn fmt<W: fmt::Write>(&self, f: &mut fmt::Formatter<W>) -> fmt::Result {
        let Name(name, before, after) = *self;
        match name {
            Some(name) => write!(f, "{before}{name}{after}"),
            None => Ok(()),
        }
    }
}

/// A finding, or a note on a file, as it is printed.
#[derive(Clone, Copy)]
struct Line<'a> {
    file: &'a str,
    /// The line and the column; None for a note on the whole file.
    place: Option<(u64, u64)>,
    level: &'static str,
    /// The name of the warning's rule.
    rule: Option<&'static str>,
    /// That, or the code of the error.
    code: Option<&'static str>,
    message: &'a str,
}

impl<'a> Line<'a> {
    /// Returns the line of a finding with this message.
    fn of(file: &'a str, finding: &Finding, message: &'a str) -> Line<'a> {
        Line {
            file,
            place: Some((finding.line, finding.column)),
            level: finding.severity.word(),
            rule: match finding.rule {
                Some(rule) => Some(rule.name()),
                None => None,
            },
            code: finding.code(),
            message,
        }
    }
}

/// Prints findings in one format.
#[derive(Clone, Copy)]
pub(crate) struct LintOutput {
    format: Format,
    pub(crate) console: Console,
    has_colors: bool,
    /// Something was printed, so that SARIF needs a comma.
    has_line: bool,
}

const SARIF_HEAD: &str = "{\"$schema\":\"https://json.schemastore.org/sarif-2.1.0.json\",\
\"version\":\"2.1.0\",\"runs\":[{\"tool\":{\"driver\":{\"name\":\"resb\",\"rules\":[";

/// The control sequences of styles, and the one that ends each.
const BOLD: &str = "\u{1b}[1m";

const FRAME: &str = "\u{1b}[1;34m";

const PLAIN: &str = "\u{1b}[0m";

/// Returns the control sequence of a level's style.
fn level_style(level: &str) -> &'static str {
    match level {
        "error" => "\u{1b}[1;31m",
        "warning" => "\u{1b}[1;33m",
        _ => "\u{1b}[1;36m",
    }
}

impl LintOutput {
    pub(crate) fn new(format: Format, console: Console, has_colors: bool) -> LintOutput {
        LintOutput {
            format,
            console,
            has_colors,
            has_line: false,
        }
    }

    /// Prints what comes before all findings.
    pub(crate) fn begin<R: Print>(&self, rt: &R) -> io::Result<()> {
        if self.format != Format::Sarif {
            return Ok(());
        }
        print!(rt; "{SARIF_HEAD}")?;
        let mut comma = "";
        for rule in Rule::all() {
            sarif_rule(rt, *rule, comma)?;
            comma = ",";
        }
        println!(rt; "]}}}},\"columnKind\":\"utf16CodeUnits\",\"results\":[")
    }

    /// Prints what comes after all findings.
    pub(crate) fn end<R: Print>(&self, rt: &R) -> io::Result<()> {
        if self.format == Format::Sarif {
            println!(rt; "]}}]}}")?;
        }
        Ok(())
    }

    /// Prints a finding.
    pub(crate) fn finding<R: AllocGlobal + Print>(
        &mut self,
        rt: &R,
        file: &str,
        lines: &mut Lines<'_>,
        finding: &Finding,
    ) -> io::Result<()> {
        let message = format!(in rt.alloc(); "{}", &finding.message)?;
        self.line(rt, Line::of(file, finding, message.as_str()))?;
        if self.format == Format::Full {
            let line = lines.line(finding.line);
            self.snippet(rt, line, finding)?;
        }
        Ok(())
    }

    /// Returns the control sequence of a style, or nothing without colours.
    fn style(&self, sequence: &'static str) -> &'static str {
        if self.has_colors { sequence } else { "" }
    }

    /// Prints the line of a finding, and a caret below its place. A line that isn't UTF-8 is left
    /// out.
    fn snippet<R: AllocGlobal + Print>(
        &self,
        rt: &R,
        line: &[u8],
        finding: &Finding,
    ) -> io::Result<()> {
        let Ok(line) = str::from_utf8(line) else {
            return println!(rt; "");
        };
        let snippet = Snippet::of(rt.alloc(), line, finding.column)?;
        let width = snippet.width(rt.alloc(), self.console)?;
        self.source_line(rt, &snippet, finding.line)?;
        self.caret(rt, width, finding.severity.word())
    }

    /// Prints the part of a line around a place.
    fn source_line<R: Print>(&self, rt: &R, snippet: &Snippet, number: u64) -> io::Result<()> {
        let (before, after) = (
            self.console.on_stdout(snippet.before.as_str()),
            self.console.on_stdout(snippet.after.as_str()),
        );
        let (frame, plain) = (self.style(FRAME), self.style(PLAIN));
        println!(rt; "{frame}{number:>5} |{plain} {before}{after}")
    }

    /// Prints a caret in a column, in the style of a level.
    fn caret<R: Print>(&self, rt: &R, column: usize, level: &str) -> io::Result<()> {
        let (frame, plain) = (self.style(FRAME), self.style(PLAIN));
        print!(rt; "{frame}      |{plain} ")?;
        for _ in 0..column {
            print!(rt; " ")?;
        }
        let style = self.style(level_style(level));
        println!(rt; "{style}^{plain}\n")
    }

    /// Prints the level and the message of a finding.
    fn full_message<R: Print>(&self, rt: &R, line: Line<'_>) -> io::Result<()> {
        let (level, message) = (line.level, self.console.on_stdout(line.message));
        let (style, plain) = (self.style(level_style(level)), self.style(PLAIN));
        let (rule, bold) = (Name(line.rule, "[", "]"), self.style(BOLD));
        println!(rt; "{style}{level}{rule}{plain}{bold}: {message}{plain}")
    }

    /// Prints the message of a finding, and its place in a line below.
    fn full_line<R: Print>(&self, rt: &R, line: Line<'_>) -> io::Result<()> {
        self.full_message(rt, line)?;
        let (file, place) = (
            self.console.on_stdout(line.file),
            Place(line.place, ":", ":", ""),
        );
        let (frame, plain) = (self.style(FRAME), self.style(PLAIN));
        let end = if line.place.is_none() { "\n" } else { "" };
        println!(rt; "{frame}     -->{plain} {file}{place}{end}")
    }

    /// Prints how many warnings of a file were left out.
    pub(crate) fn left_out<R: AllocGlobal + Print>(
        &mut self,
        rt: &R,
        file: &str,
        count: u64,
    ) -> io::Result<()> {
        if count == 0 {
            return Ok(());
        }
        let message = format!(in rt.alloc(); "{count} more warnings; --all prints them")?;
        self.line(
            rt,
            Line {
                file,
                place: None,
                level: "note",
                rule: None,
                code: None,
                message: message.as_str(),
            },
        )
    }

    fn line<R: Print>(&mut self, rt: &R, line: Line<'_>) -> io::Result<()> {
        match self.format {
            Format::Text => self.text_line(rt, line),
            Format::Full => self.full_line(rt, line),
            Format::Json => json_line(rt, line),
            Format::GitHub => self.github_line(rt, line),
            Format::Sarif => {
                let comma = if self.has_line { "," } else { "" };
                self.has_line = true;
                sarif_line(rt, line, comma)
            }
        }
    }

    fn text_line<R: Print>(&self, rt: &R, line: Line<'_>) -> io::Result<()> {
        let (file, message) = (
            self.console.on_stdout(line.file),
            self.console.on_stdout(line.message),
        );
        let (style, plain) = (self.style(level_style(line.level)), self.style(PLAIN));
        let (place, rule) = (Place(line.place, ":", ":", ""), Name(line.rule, " [", "]"));
        let level = line.level;
        println!(rt; "{file}{place}: {style}{level}{plain}: {message}{rule}")
    }

    fn github_line<R: Print>(&self, rt: &R, line: Line<'_>) -> io::Result<()> {
        let command = if line.level == "note" {
            "notice"
        } else {
            line.level
        };
        let file = GitHubText {
            text: line.file,
            is_property: true,
            console: self.console,
        };
        let message = GitHubText {
            text: line.message,
            is_property: false,
            console: self.console,
        };
        let (place, title) = (
            Place(line.place, ",line=", ",col=", ""),
            Name(line.code, ",title=", ""),
        );
        println!(rt; "::{command} file={file}{place}{title}::{message}")
    }
}

fn json_line<R: Print>(rt: &R, line: Line<'_>) -> io::Result<()> {
    let (file, level, message) = (JsonText(line.file), line.level, JsonText(line.message));
    let (place, rule) = (
        Place(line.place, "\"line\":", ",\"column\":", ","),
        Name(line.code, "\"rule\":\"", "\","),
    );
    println!(rt;
        "{{\"file\":\"{file}\",{place}\"severity\":\"{level}\",{rule}\"message\":\"{message}\"}}"
    )
}

/// Prints a rule of SARIF after a comma, or after nothing if it is the first.
fn sarif_rule<R: Print>(rt: &R, rule: Rule, comma: &str) -> io::Result<()> {
    let (name, about) = (rule.name(), JsonText(rule.about()));
    print!(rt; "{comma}{{\"id\":\"{name}\",\"shortDescription\":{{\"text\":\"{about}\"}}}}")
}

/// Prints a result of SARIF after a comma, or after nothing if it is the first.
fn sarif_line<R: Print>(rt: &R, line: Line<'_>, comma: &str) -> io::Result<()> {
    let (level, message) = (line.level, JsonText(line.message));
    let rule = Name(line.code, "\"ruleId\":\"", "\",");
    print!(rt; "{comma}{{{rule}\"level\":\"{level}\",\"message\":{{\"text\":\"{message}\"}},")?;
    sarif_location(rt, line)
}

/// Prints the place of a result of SARIF, and the end of the result.
fn sarif_location<R: Print>(rt: &R, line: Line<'_>) -> io::Result<()> {
    let (before, between) = (",\"region\":{\"startLine\":", ",\"startColumn\":");
    let (file, place) = (UriText(line.file), Place(line.place, before, between, "}"));
    println!(rt;
        "\"locations\":[{{\"physicalLocation\":{{\"artifactLocation\":{{\"uri\":\"{file}\"}}{place}}}}}]}}"
    )
}
