//! The arguments of commands for bundle texts, and folders of modules.
use crate::shared::{Configured, ParentsSource};

/// `lint TEXT..`
#[derive(Debug, Drop)]
pub struct AskedLint<'a> {
    /// The root's text to compare with: that of `--against`, or that of `--root`.
    pub root: Option<&'a str>,
    /// The name of standard input's text.
    pub name: Option<&'a str>,
    /// The names of warnings that are left out, and of those that are errors.
    pub allow: Vec<&'a str>,
    pub deny: Vec<&'a str>,
    pub format: Option<&'a str>,
    /// When the output has colours: `auto`, `always` or `never`.
    pub color: Option<&'a str>,
    /// Warnings count for the status.
    pub is_strict: bool,
    /// No warning is left out.
    pub is_all: bool,
    pub config: Configured<'a>,
    /// The names of all warnings are printed instead.
    pub is_list: bool,
    pub texts: Vec<&'a str>,
}

/// `fmt TEXT..`
#[derive(Debug, Drop)]
pub struct AskedFormat<'a> {
    pub is_check: bool,
    pub is_diff: bool,
    pub is_quiet: bool,
    pub config: Configured<'a>,
    pub texts: Vec<&'a str>,
}

/// `coverage [LOCALE=]TEXT..`
#[derive(Debug, Drop)]
pub struct AskedCoverage<'a> {
    pub parents: Option<ParentsSource<'a>>,
    pub format: Option<&'a str>,
    pub config: Configured<'a>,
    /// Each as `LOCALE=FILE`, or `FILE`, whose stem is the locale, or a folder of modules.
    pub texts: Vec<&'a str>,
}
