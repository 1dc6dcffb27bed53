//! The words that the strings of a text may not have, and their greatest lengths.
use crate::left_out::{is_one, path_at, places_of, sections_for};
use rb_lint::{Finding, Message, PathLength, PatternDoubt, paths_at};
use rb_project::{Modules, Section};
use std::alloc::{AllocError, Global};

/// The greatest length of strings at some paths, or at all if there are none.
#[derive(Drop)]
struct Limit<'a> {
    paths: Vec<&'a str>,
    longest: usize,
}

/// The limits of one text's strings, by the settings of its project and by comments.
#[derive(Drop)]
pub(crate) struct StringLimits<'a> {
    /// The words in UTF-16.
    pub(crate) forbidden: Vec<Vec<u16>>,
    limits: Vec<Limit<'a>>,
    /// The limits of comments, in the text and in the root's.
    lengths: Vec<PathLength>,
}

/// Checks whether a path is another one or below it. All are below the empty path.
fn is_at_or_below(path: &str, top: &str) -> bool {
    match path.strip_prefix(top) {
        Some(rest) => top.is_empty() || rest.is_empty() || rest.starts_with('/'),
        None => false,
    }
}

/// Returns the length of the string that a finding calls too long, if it does.
fn long_length(finding: &Finding) -> Option<usize> {
    match &finding.message {
        Message::Pattern(PatternDoubt::Long { length, .. }) => Some(*length),
        _ => None,
    }
}

impl<'a> StringLimits<'a> {
    /// Adds the words of a table.
    fn add_words(&mut self, alloc: Global, section: Section<'a>) -> Result<(), AllocError> {
        for word in section.texts(alloc, "words")? {
            let units: Vec<u16> = word.encode_utf16().collect(alloc)?;
            self.forbidden.push(units)?;
        }
        Ok(())
    }

    /// Adds the limit of a table.
    fn add_limit(&mut self, alloc: Global, section: Section<'a>) -> Result<(), AllocError> {
        let Some(number) = section.number("length") else {
            return Ok(());
        };
        self.limits.push(Limit {
            paths: section.texts(alloc, "paths")?,
            longest: usize::try_from(number).unwrap_or(usize::MAX),
        })?;
        Ok(())
    }

    /// Returns the limits of a text's strings, given those of its comments.
    pub(crate) fn of(
        alloc: Global,
        modules: &Modules<'a>,
        name: &str,
        lengths: Vec<PathLength>,
    ) -> Result<StringLimits<'a>, AllocError> {
        let mut limits = StringLimits {
            forbidden: Vec::new(alloc),
            limits: Vec::new(alloc),
            lengths,
        };
        for section in sections_for(alloc, modules.project, "forbid", name)? {
            limits.add_words(alloc, section)?;
        }
        for section in sections_for(alloc, modules.project, "limit", name)? {
            limits.add_limit(alloc, section)?;
        }
        Ok(limits)
    }

    /// Adds the limits of the comments in the root's text.
    pub(crate) fn add_lengths(
        &mut self,
        alloc: Global,
        lengths: &[PathLength],
    ) -> Result<(), AllocError> {
        for one in lengths {
            self.lengths.push(PathLength {
                path: String::from_str(alloc, one.path.as_str())?,
                longest: one.longest,
            })?;
        }
        Ok(())
    }

    pub(crate) fn has_lengths(&self) -> bool {
        !self.limits.is_empty() || !self.lengths.is_empty()
    }

    /// Returns the lowest limit of the settings for a path, or for any without one.
    fn lowest_of_settings(&self, path: Option<&str>) -> usize {
        let mut lowest = usize::MAX;
        for limit in &self.limits {
            let applies = match path {
                Some(path) => limit.paths.is_empty() || is_one(&limit.paths, path),
                None => true,
            };
            if applies && limit.longest < lowest {
                lowest = limit.longest;
            }
        }
        lowest
    }

    /// Returns the lowest limit of the settings and of comments for a path, or for any without one.
    fn lowest_for(&self, path: Option<&str>) -> usize {
        let mut lowest = self.lowest_of_settings(path);
        for length in &self.lengths {
            let applies = match path {
                Some(path) => is_at_or_below(path, length.path.as_str()),
                None => true,
            };
            if applies && length.longest < lowest {
                lowest = length.longest;
            }
        }
        lowest
    }

    /// Returns the lowest limit of all.
    pub(crate) fn lowest(&self) -> usize {
        self.lowest_for(None)
    }

    /// Checks whether a finding at a path isn't that of a string which is short enough there. Writes
    /// the path's limit into the finding.
    fn counts(&self, finding: &mut Finding, path: &str) -> bool {
        let Some(length) = long_length(finding) else {
            return true;
        };
        let longest = self.lowest_for(Some(path));
        finding.message = Message::Pattern(PatternDoubt::Long { length, longest });
        length > longest
    }

    /// Leaves out the findings of strings that are short enough for the limits at their paths.
    pub(crate) fn applied(
        &self,
        alloc: Global,
        text: &[u8],
        findings: Vec<Finding>,
    ) -> Result<Vec<Finding>, AllocError> {
        if !self.has_lengths() {
            return Ok(findings);
        }
        let paths = paths_at(alloc, text, &places_of(alloc, &findings)?)?;
        self.counted(alloc, findings, &paths)
    }

    /// Leaves out the findings of strings that are short enough, given the paths of all.
    fn counted(
        &self,
        alloc: Global,
        findings: Vec<Finding>,
        paths: &[String],
    ) -> Result<Vec<Finding>, AllocError> {
        let mut counted = Vec::new(alloc);
        let mut i: usize = 0;
        for finding in findings {
            let mut finding = finding;
            if self.counts(&mut finding, path_at(paths, i)) {
                counted.push(finding)?;
            }
            i = i.saturating_add(1);
        }
        Ok(counted)
    }
}
