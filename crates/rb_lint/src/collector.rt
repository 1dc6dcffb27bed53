use crate::allowed::Allowances;
use crate::finding::Message;
use crate::heap::Heap;
use crate::rule::{Levels, Rule};
use crate::warning::Doubt;
use std::alloc::{AllocError, Global};

/// A finding at a byte of the text.
#[derive(Drop)]
pub(crate) struct Found {
    pub(crate) at: usize,
    /// The rule of a warning; None for the error of a text that isn't compiled.
    pub(crate) rule: Option<Rule>,
    pub(crate) message: Message,
}

/// Collects the first findings of a text, by their places, and counts all.
#[derive(Drop)]
pub(crate) struct Collector<'a> {
    levels: Levels,
    allowances: &'a Allowances,
    limit: usize,
    found: Vec<Found>,
    count: u64,
    pub(crate) heap: Heap,
}

impl<'a> Collector<'a> {
    pub(crate) fn new(
        alloc: Global,
        levels: Levels,
        allowances: &'a Allowances,
        limit: usize,
    ) -> Collector<'a> {
        Collector {
            levels,
            allowances,
            limit,
            found: Vec::new(alloc),
            count: 0,
            heap: Heap::new(alloc),
        }
    }

    pub(crate) fn add(&mut self, at: usize, doubt: Doubt) {
        self.push(at, doubt.rule(), Message::Doubt(doubt));
    }

    /// Checks whether warnings of a rule are left out at a place.
    pub(crate) fn is_allowed(&self, at: usize, rule: Rule) -> bool {
        self.levels.leaves_out(rule) || self.allowances.at(at).has(rule)
    }

    pub(crate) fn push(&mut self, at: usize, rule: Rule, message: Message) {
        if self.is_allowed(at, rule) {
            return;
        }
        self.skip();
        let found = Found {
            at,
            rule: Some(rule),
            message,
        };
        self.heap.push(&mut self.found, found);
        if self.found.len() / 2 >= self.limit {
            self.keep_first();
        }
    }

    pub(crate) fn limit(&self) -> usize {
        self.limit
    }

    /// Counts a finding.
    pub(crate) fn skip(&mut self) {
        self.count = self.count.saturating_add(1);
    }

    /// Keeps the first findings, in the order of the text.
    fn keep_first(&mut self) {
        self.heap.note(self.found.sort_by_key(|found| found.at));
        self.found.truncate(self.limit);
    }

    /// Returns the first findings in the order of the text, and the number of all. `Err` means that the
    /// search ran out of memory.
    pub(crate) fn ordered(mut self) -> Result<(Vec<Found>, u64), AllocError> {
        self.keep_first();
        self.heap.finish((self.found, self.count))
    }
}
