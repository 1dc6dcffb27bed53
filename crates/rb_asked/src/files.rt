//! The arguments of commands for single files.
use crate::shared::Configured;

/// The options of `compile`, for one text and for many.
#[derive(Clone, Copy, Debug)]
pub struct Compiling {
    /// The texts are JSON.
    pub is_json: bool,
    /// The files have the flag *no fallback*, which JSON doesn't have.
    pub no_fallback: bool,
    /// The files may replace ones that are no bundles.
    pub is_forced: bool,
    pub is_quiet: bool,
}

/// `compile IN OUT`
#[derive(Clone, Copy, Debug)]
pub struct AskedCompile<'a> {
    /// `-` is standard input, or standard output.
    pub input: &'a str,
    pub output: &'a str,
    pub how: Compiling,
}

/// `compile --to DIR TEXT..`
#[derive(Debug, Drop)]
pub struct AskedCompileAll<'a> {
    /// The folder of the files.
    pub folder: &'a str,
    /// The folder that the texts are in, if theirs are kept below `folder`.
    pub from: Option<&'a str>,
    pub texts: Vec<&'a str>,
    pub how: Compiling,
}

/// `check FILE..`
#[derive(Debug, Drop)]
pub struct AskedCheck<'a> {
    pub files: Vec<&'a str>,
    pub is_json: bool,
    pub is_quiet: bool,
}

/// `get FILE PATH`
#[derive(Clone, Copy, Debug)]
pub struct AskedGet<'a> {
    pub file: &'a str,
    pub path: &'a str,
    pub is_raw: bool,
}

/// `json FILE [PATH]`
#[derive(Clone, Copy, Debug)]
pub struct AskedJson<'a> {
    pub file: &'a str,
    pub path: &'a str,
    pub is_pretty: bool,
}

/// `text FILE`
#[derive(Clone, Copy, Debug)]
pub struct AskedText<'a> {
    pub file: &'a str,
    pub name: Option<&'a str>,
}

/// `diff OLD NEW`
#[derive(Clone, Copy, Debug)]
pub struct AskedDiff<'a> {
    /// A bundle text, a `.res` file or a folder, and the one that it is compared with.
    pub old: &'a str,
    pub new: &'a str,
    pub is_json: bool,
    pub is_stat: bool,
    pub config: Configured<'a>,
}
