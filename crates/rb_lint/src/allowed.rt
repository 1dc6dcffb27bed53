//! Comments that allow warnings: `// resb-lint: allow NAME` before an entry.
use crate::heap::Heap;
use crate::lengths::longest_of;
use crate::piece::Piece;
use crate::rule::{Rule, RuleSet};
use crate::scan::{Quoting, Visit, visit_pieces};
use rb_lexer::PieceKind;
use std::alloc::{AllocError, Global};

/// The rules that are allowed from a byte on.
#[derive(Clone, Copy)]
struct Change {
    at: usize,
    rules: RuleSet,
}

/// The rules that comments of a text allow, by place.
#[derive(Drop)]
pub(crate) struct Allowances {
    /// By ascending places.
    changes: Vec<Change>,
    /// The places of names that no rule has.
    unknown: Vec<usize>,
}

impl Allowances {
    /// Returns the rules that are allowed at a byte.
    pub(crate) fn at(&self, at: usize) -> RuleSet {
        let past = self.changes.partition_point(|change| change.at <= at);
        match self.changes.get(..past) {
            Some([.., change]) => change.rules,
            _ => RuleSet::none(),
        }
    }

    pub(crate) fn unknown(&self) -> &[usize] {
        &self.unknown
    }
}

/// A comment whose entry isn't over.
#[derive(Clone, Copy)]
struct OpenAllowance {
    /// The number of braces that are open at the comment.
    depth: u64,
    /// The rules that are allowed without it.
    before: RuleSet,
    /// A piece of its entry was read.
    has_begun: bool,
}

#[derive(Drop)]
struct AllowSearch {
    depth: u64,
    rules: RuleSet,
    open: Vec<OpenAllowance>,
    found: Allowances,
    heap: Heap,
}

const PREFIX: &str = "resb-lint:";

/// Returns what follows `resb-lint:` in a comment of one line.
pub(crate) fn directive(comment: &str) -> Option<&str> {
    comment.strip_prefix("//")?.trim().strip_prefix(PREFIX)
}

impl AllowSearch {
    /// Adds the rules that a comment names after `allow`.
    fn allow(&mut self, at: usize, names: &str) {
        let before = self.rules;
        for names in names.split(',') {
            self.allow_names(at, names);
        }
        let open = OpenAllowance {
            depth: self.depth,
            before,
            has_begun: false,
        };
        self.heap.push(&mut self.open, open);
        self.change(at);
    }

    /// Adds the rules with names between blanks.
    fn allow_names(&mut self, at: usize, names: &str) {
        for name in names.split_whitespace() {
            match Rule::named(name) {
                Some(rule) => self.rules = self.rules.with(rule),
                None => self.unknown(at),
            }
        }
    }

    fn unknown(&mut self, at: usize) {
        self.heap.push(&mut self.found.unknown, at);
    }

    /// Notes the rules that are allowed from a byte on.
    fn change(&mut self, at: usize) {
        let rules = self.rules;
        self.heap
            .push(&mut self.found.changes, Change { at, rules });
    }

    /// Ends the entries at this depth or deeper that have begun.
    fn end(&mut self, depth: u64, past: usize) {
        let count = self.open.len();
        for _ in 0..count {
            match self.open.last() {
                Some(last) if last.depth > depth || last.depth == depth && last.has_begun => {
                    self.rules = last.before;
                }
                _ => break,
            }
            let _ = self.open.pop();
        }
        if self.open.len() < count {
            self.change(past);
        }
    }

    /// Notes that the entries after the last comments have begun.
    fn begin(&mut self) {
        for open in self.open.iter_mut().rev() {
            if open.has_begun {
                break;
            }
            open.has_begun = true;
        }
    }
}

impl Visit for AllowSearch {
    fn piece(&mut self, piece: &Piece) {
        match piece.kind {
            PieceKind::LeftBrace => {
                self.begin();
                self.depth = self.depth.saturating_add(1);
            }
            PieceKind::RightBrace => {
                self.depth = self.depth.saturating_sub(1);
                self.end(self.depth, piece.past);
            }
            PieceKind::Comma => self.end(self.depth, piece.past),
            _ => self.begin(),
        }
    }

    fn comment(&mut self, at: usize, comment: &str) {
        let Some(words) = directive(comment) else {
            return;
        };
        match words.trim().strip_prefix("allow") {
            Some(names) => self.allow(at, names),
            None if longest_of(words).is_none() => self.unknown(at),
            None => {}
        }
    }
}

/// Checks whether a text may have a comment for the linter, as nearly all have none.
pub(crate) fn has_directive(text: &[u8]) -> bool {
    for window in text.windows(PREFIX.len()) {
        if window == PREFIX.as_bytes() {
            return true;
        }
    }
    false
}

impl Allowances {
    /// Reads the comments of a text.
    pub(crate) fn of(
        alloc: Global,
        text: &[u8],
        quoting: Quoting,
    ) -> Result<Allowances, AllocError> {
        let mut search = AllowSearch {
            depth: 0,
            rules: RuleSet::none(),
            open: Vec::new(alloc),
            found: Allowances {
                changes: Vec::new(alloc),
                unknown: Vec::new(alloc),
            },
            heap: Heap::new(alloc),
        };
        if has_directive(text) {
            visit_pieces(text, quoting, &mut search);
        }
        search.heap.finish(search.found)
    }
}
