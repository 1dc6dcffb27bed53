//! The differences of two bundles as they are printed.
use rb_asked::AskedDiff;
use rb_console::Printing;
use rb_json::{Layout, Outlet, put_leaf, spell_bytes, spell_text, spell_unsigned};
use rb_tree::Node;
use std::io::Write;

/// The form in which differences are printed.
#[derive(Clone, Copy, PartialEq, Eq)]
pub(crate) enum DiffForm {
    /// A line for each item that only one bundle has, and two for one that differs.
    Lines,
    /// An object for each item, in a line.
    Json,
    /// The number of items that differ.
    Counts,
}

impl DiffForm {
    /// Returns the form that is asked for.
    pub(crate) fn of(asked: &AskedDiff<'_>) -> DiffForm {
        match (asked.is_stat, asked.is_json) {
            (true, _) => DiffForm::Counts,
            (false, true) => DiffForm::Json,
            (false, false) => DiffForm::Lines,
        }
    }
}

/// The numbers of items that differ: those of both bundles, and those that only one has.
#[derive(Clone, Copy, PartialEq, Eq)]
pub(crate) struct Counts {
    pub(crate) changed: u64,
    pub(crate) added: u64,
    pub(crate) removed: u64,
}

impl Counts {
    pub(crate) const NONE: Counts = Counts {
        changed: 0,
        added: 0,
        removed: 0,
    };

    /// Counts an item that the old bundle has, the new one, or both.
    fn add(&mut self, is_old: bool, is_new: bool) {
        match (is_old, is_new) {
            (true, true) => self.changed = self.changed.saturating_add(1),
            (true, false) => self.removed = self.removed.saturating_add(1),
            _ => self.added = self.added.saturating_add(1),
        }
    }
}

/// Prints the differences of two bundles, and counts them.
#[derive(Drop)]
pub(crate) struct DiffPrinter<W: Write + Drop> {
    pub(crate) out: Printing<W>,
    pub(crate) form: DiffForm,
    /// The name of the two bundles among several; empty if there are only two.
    pub(crate) name: String,
    /// The name as it is printed at the beginning of a line.
    pub(crate) shown: String,
    pub(crate) counts: Counts,
}

/// A value that differs: an item, or the flag *no fallback*.
#[derive(Clone, Copy)]
pub(crate) enum Value<N> {
    Item(N),
    Flag(bool),
}

impl<N: Node> Value<N> {
    /// Returns the value that is an item, if there is one.
    pub(crate) fn of_item(item: Option<N>) -> Option<Value<N>> {
        match item {
            Some(node) => Some(Value::Item(node)),
            None => None,
        }
    }

    fn put<O: Outlet>(self, out: &mut O) {
        match self {
            Value::Item(node) => put_leaf(out, node, Layout::Compact, 0),
            Value::Flag(true) => out.put(b"true"),
            Value::Flag(false) => out.put(b"false"),
        }
    }
}

impl<W: Write + Drop> DiffPrinter<W> {
    /// Writes the name of the two bundles at the beginning of a line, if there are several.
    fn begin_line(&mut self) {
        if !self.name.is_empty() {
            self.out.put(self.shown.as_bytes());
            self.out.put(b": ");
        }
    }

    /// Writes a line with what one bundle has.
    fn put_line<N: Node>(&mut self, sign: &[u8], path: &[u8], value: Option<Value<N>>) {
        if let Some(value) = value {
            self.begin_line();
            self.out.put(sign);
            self.out.put(path);
            self.out.put(b" ");
            value.put(&mut self.out);
            self.out.put(b"\n");
        }
    }

    /// Writes a member that has another one behind it.
    fn put_member<N: Node>(&mut self, key: &[u8], value: Option<Value<N>>) {
        if let Some(value) = value {
            self.out.put(key);
            value.put(&mut self.out);
            self.out.put(b",");
        }
    }

    /// Writes an object whose members ascend by their names.
    fn put_object<N: Node>(&mut self, path: &[u8], old: Option<Value<N>>, new: Option<Value<N>>) {
        self.out.put(b"{");
        if !self.name.is_empty() {
            self.out.put(b"\"file\":");
            spell_text(&mut self.out, self.name.as_str());
            self.out.put(b",");
        }
        self.put_member(b"\"new\":", new);
        self.put_member(b"\"old\":", old);
        self.out.put(b"\"path\":");
        spell_bytes(&mut self.out, path);
        self.out.put(b"}\n");
    }

    /// Reports the flag *no fallback* if only one of two bundles with these roots has it.
    pub(crate) fn report_flags<N: Node>(&mut self, _root: N, old: bool, new: bool) {
        if old != new {
            let flags: (Option<Value<N>>, Option<Value<N>>) = (
                Some(Value::Flag(old)),
                Some(Value::Flag(new)),
            );
            self.report(b":no-fallback", flags.0, flags.1);
        }
    }

    /// Prints how many items differ, if that is asked for.
    pub(crate) fn put_counts(&mut self) {
        if self.form != DiffForm::Counts {
            return;
        }
        self.begin_line();
        spell_unsigned(&mut self.out, self.counts.changed);
        self.out.put(b" changed, ");
        spell_unsigned(&mut self.out, self.counts.added);
        self.out.put(b" added, ");
        spell_unsigned(&mut self.out, self.counts.removed);
        self.out.put(b" removed\n");
    }

    /// Counts a difference, and prints it in the form that is asked for.
    pub(crate) fn report<N: Node>(
        &mut self,
        path: &[u8],
        old: Option<Value<N>>,
        new: Option<Value<N>>,
    ) {
        self.counts.add(old.is_some(), new.is_some());
        match self.form {
            DiffForm::Counts => {}
            DiffForm::Json => self.put_object(path, old, new),
            DiffForm::Lines => {
                self.put_line(b"- ", path, old);
                self.put_line(b"+ ", path, new);
            }
        }
    }
}
