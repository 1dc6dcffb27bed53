//! The arguments of commands for the bundles of several locales. Each file is `LOCALE=FILE`, or
//! `FILE`, whose stem is the locale.
use crate::shared::ParentsSource;

/// `json --inherit LOCALE [LOCALE=]FILE..`
#[derive(Debug, Drop)]
pub struct AskedInherited<'a> {
    pub parents: Option<ParentsSource<'a>>,
    pub locale: &'a str,
    pub path: &'a str,
    pub is_pretty: bool,
    pub files: Vec<&'a str>,
}

/// `look LOCALE PATH [LOCALE=]FILE..`
#[derive(Debug, Drop)]
pub struct AskedLookup<'a> {
    pub parents: Option<ParentsSource<'a>>,
    pub locale: &'a str,
    pub path: &'a str,
    /// The steps of the search are written to standard error.
    pub is_traced: bool,
    pub files: Vec<&'a str>,
}

/// `lines APP [LOCALE=]FILE..`
#[derive(Debug, Drop)]
pub struct AskedLines<'a> {
    pub op: Option<&'a str>,
    pub is_json: bool,
    pub app: &'a str,
    pub files: Vec<&'a str>,
}
