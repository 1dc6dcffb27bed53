ghost use Rattle.std.specs.Prelude.{◌≡◌, IfSome, map};
ghost use Rattle.std.specs.Char.{to_ascii_lowercase};

use crate::words::{
    OF_FILE, OF_JSON, OF_LOOKUP, OF_MEMORY, OF_PATH, OF_PRINTING, OF_REQUEST, OF_SERVING, OF_START,
    OF_TEXT, OF_VALUE,
};
use std::fmt;

/// The subject of an error code: an input, a step or memory.
#[derive(Clone, Copy, PartialEq, Eq)]
pub enum Of {
    /// A bundle text.
    Text,
    /// A `.res` file.
    File,
    /// A path within one file.
    Path,
    /// Printing a file as a text.
    Printing,
    /// Printing an item as one value.
    Value,
    /// JSON that is read back.
    Json,
    /// Starting `serve`.
    Start,
    /// A request to `serve`.
    Request,
    /// A lookup.
    Lookup,
    /// The early end of serving.
    Serving,
    /// Running out of memory.
    Memory,
}

impl Of {
    /// Returns the explanations of the error codes of this subject, a line each, which
    /// `Explanation::read` reads.
    pub fn explanations(self) -> &'static str {
        match self {
            Of::Text => OF_TEXT,
            Of::File => OF_FILE,
            Of::Path => OF_PATH,
            Of::Printing => OF_PRINTING,
            Of::Value => OF_VALUE,
            Of::Json => OF_JSON,
            Of::Start => OF_START,
            Of::Request => OF_REQUEST,
            Of::Lookup => OF_LOOKUP,
            Of::Serving => OF_SERVING,
            Of::Memory => OF_MEMORY,
        }
    }

    /// Finds the explanation of an error code of this subject, ignoring case.
    pub fn explanation(self, word: &str) -> Option<Explanation>
        ensures { IfSome result
            (λ e. map to_ascii_lowercase e.word.now ≡ map to_ascii_lowercase word.now) }
    {
        for line in self.explanations().lines() {
            let explanation = Explanation::read(self, line);
            if explanation.word.eq_ignore_ascii_case(word) {
                return Some(explanation);
            }
        }
        None
    }
}

impl fmt::Display for Of {
    fn fmt<W: fmt::Write>(&self, f: &mut fmt::Formatter<W>) -> fmt::Result {
        f.write_str(match self {
            Of::Text => "an error of bundle texts (compile, lint, look, lines)",
            Of::File => "an error of files (check, get, text, json)",
            Of::Path => "an error of paths in one file (get, json)",
            Of::Printing => "an error of files that are printed (text)",
            Of::Value => "an error of whole items (json)",
            Of::Json => "an error of JSON that is read (compile --json)",
            Of::Start => "an error of files that are given (serve, look)",
            Of::Request => "an error in a reply to a request (serve), or of an argument (lines)",
            Of::Lookup => "an error in a reply to a lookup (serve, look)",
            Of::Serving => "why serving ended early (serve)",
            Of::Memory => "an error of any command",
        })
    }
}

/// The explanation of an error code.
#[derive(Clone, Copy)]
pub struct Explanation {
    pub word: &'static str,
    pub of: Of,
    /// The meaning, as a sentence without a capital and a full stop.
    pub meaning: &'static str,
    pub cause: &'static str,
    pub remedy: &'static str,
}

/// Splits a text at its first tab.
fn split(text: &'static str) -> (&'static str, &'static str) {
    match text.split_once('\t') {
        Some(parts) => parts,
        None => (text, ""),
    }
}

impl Explanation {
    /// Reads a line of a subject's explanations.
    pub fn read(of: Of, line: &'static str) -> Explanation {
        let (word, rest) = split(line);
        let (meaning, rest) = split(rest);
        let (cause, remedy) = split(rest);
        Explanation {
            word,
            of,
            meaning,
            cause,
            remedy,
        }
    }
}

impl fmt::Display for Explanation {
    fn fmt<W: fmt::Write>(&self, f: &mut fmt::Formatter<W>) -> fmt::Result {
        let (word, of) = (self.word, self.of);
        write!(
            f,
            "{word}, {of}\n  meaning: {}\n  likely cause: {}\n  what to do: {}",
            self.meaning, self.cause, self.remedy
        )
    }
}
