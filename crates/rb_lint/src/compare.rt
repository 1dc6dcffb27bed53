//! Compares a String with that of the root.
use crate::difference::Change;
use crate::heap::Heap;
use crate::language::Language;
use crate::messages::{Message, search_message};
use crate::path::shown_name;
use crate::pattern::PlacedDoubt;
use rb_messages::{
    Edge, Mark, MarkKind, Named, ValueKind, lacking_ending, marks_lacking, marks_of, other_blanks,
};

/// A change of a String, at one of its units or of all of it.
#[derive(Drop)]
pub(crate) struct PlacedChange {
    /// The unit; 0 for a change of all of the String.
    pub(crate) at: usize,
    pub(crate) is_whole: bool,
    pub(crate) change: Change,
}

#[derive(Drop)]
struct Comparison {
    heap: Heap,
    changes: Vec<PlacedChange>,
}

const BRACE: u16 = 0x7B;

/// The longest name that is searched for.
const NAME_LIMIT: usize = 32;

/// Returns where the name of an argument is in a text.
fn plain_name(text: &[u16], name: &[u16]) -> Option<usize> {
    if name.len() < 2 || name.len() > NAME_LIMIT {
        return None;
    }
    for (at, window) in text.windows(name.len()).enumerate() {
        if window == name {
            return Some(at);
        }
    }
    None
}

/// Returns the argument with a name, among arguments by ascending names.
fn find_named<'a>(named: &[Named<'a>], name: &[u16]) -> Option<Named<'a>> {
    match named.binary_search_by(|other| other.name.cmp(name)) {
        Ok(i) => named.get(i).copied(),
        Err(_) => None,
    }
}

/// Returns the arguments that are not among others, in the order of the text. Both are by ascending names.
fn without<'a>(heap: &mut Heap, named: &[Named<'a>], others: &[Named<'_>]) -> Vec<Named<'a>> {
    let mut found = Vec::new(heap.alloc);
    for argument in named {
        if find_named(others, argument.name).is_none() {
            heap.push(&mut found, *argument);
        }
    }
    heap.note(found.sort_by_key(|argument| argument.first));
    found
}

/// Returns the kind of value that the root has for an argument, or the argument's own if one of them says
/// nothing of it.
fn root_kind(argument: Named<'_>, root: &[Named<'_>]) -> ValueKind {
    match find_named(root, argument.name) {
        Some(other) if argument.kind.is_other(other.kind) => other.kind,
        _ => argument.kind,
    }
}

/// Checks whether numbers are compared: those of texts without a brace.
fn has_plain_numbers(here: &[u16], root: &[u16]) -> bool {
    !here.contains(&BRACE) && !root.contains(&BRACE)
}

impl Comparison {
    /// Adds a change at a unit, or else of all of the String.
    fn add(&mut self, at: Option<usize>, change: Change) {
        let placed = PlacedChange {
            at: at.unwrap_or(0),
            is_whole: at.is_none(),
            change,
        };
        self.heap.push(&mut self.changes, placed);
    }

    /// Reports arguments that a text lacks: at the first one that only it has, as that is often the same one
    /// with a mistake, or where the name is plain text.
    fn lacking(&mut self, text: &[u16], lacking: &[Named<'_>], added: &[Named<'_>]) {
        for argument in lacking {
            let place = match added.first() {
                Some(argument) => Some(argument.at),
                None => plain_name(text, argument.name),
            };
            let name = shown_name(&mut self.heap, argument.name);
            self.add(place, Change::Lacks(name));
        }
    }

    fn added(&mut self, added: &[Named<'_>]) {
        for argument in added {
            let name = shown_name(&mut self.heap, argument.name);
            self.add(Some(argument.at), Change::Adds(name));
        }
    }

    /// Reports arguments that two messages use as other kinds of values.
    fn uses(&mut self, here: &[Named<'_>], root: &[Named<'_>]) {
        for argument in here {
            let kind = root_kind(*argument, root);
            if argument.kind != kind {
                self.other_use(*argument, kind);
            }
        }
    }

    fn other_use(&mut self, argument: Named<'_>, root: ValueKind) {
        let change = Change::OtherUse {
            name: shown_name(&mut self.heap, argument.name),
            here: argument.kind,
            root,
        };
        self.add(Some(argument.at), change);
    }

    /// Compares the arguments of two messages.
    fn arguments(&mut self, text: &[u16], here: &[Named<'_>], root: &[Named<'_>]) {
        let added = without(&mut self.heap, here, root);
        let lacking = without(&mut self.heap, root, here);
        self.lacking(text, &lacking, &added);
        self.added(&added);
        self.uses(here, root);
    }

    /// Compares two texts as messages.
    fn messages(&mut self, text: &[u16], here: &Message<'_>, root: &Message<'_>) {
        match (&here.named, &root.named) {
            (Ok(here), Ok(root)) => self.arguments(text, here, root),
            (Err(error), Ok(root)) if !root.is_empty() => {
                self.add(Some(error.at), Change::Unreadable(error.fault));
            }
            _ => {}
        }
    }

    /// Reports a mark of the root that a text lacks, at a unit, or else at all of the String.
    fn lacking_mark(&mut self, root: &[u16], mark: Mark, place: Option<usize>) {
        let name = shown_name(&mut self.heap, mark.of(root));
        self.add(place, Change::LacksMark(mark.kind, name));
    }

    fn added_mark(&mut self, here: &[u16], mark: Mark) {
        let name = shown_name(&mut self.heap, mark.of(here));
        self.add(Some(mark.first), Change::AddsMark(mark.kind, name));
    }

    /// Reports the marks that a text lacks, and those that only it has, given the texts of both.
    fn report_marks(
        &mut self,
        (here, added): (&[u16], &[Mark]),
        (root, lacking): (&[u16], &[Mark]),
    ) {
        let has_numbers = has_plain_numbers(here, root);
        let place = match added.first() {
            Some(mark) => Some(mark.first),
            None => None,
        };
        for mark in lacking {
            if has_numbers || mark.kind != MarkKind::Number {
                self.lacking_mark(root, *mark, place);
            }
        }
        for mark in added {
            if has_numbers || mark.kind != MarkKind::Number {
                self.added_mark(here, *mark);
            }
        }
    }

    /// Reports the marks that a text lacks, at the first of those that only it has, and the latter.
    fn marks(&mut self, here: &[u16], root: &[u16], is_set: bool) {
        let heap = &mut self.heap;
        let alloc = heap.alloc;
        let (marks, others) = (
            heap.list(marks_of(alloc, here)),
            heap.list(marks_of(alloc, root)),
        );
        let (this, that) = ((here, marks.as_slice()), (root, others.as_slice()));
        let added = heap.list(marks_lacking(alloc, this, that, is_set));
        let lacking = heap.list(marks_lacking(alloc, that, this, is_set));
        self.report_marks((here, &added), (root, &lacking));
    }

    fn blanks(&mut self, here: &[u16], root: &[u16]) {
        for edge in other_blanks(here, root) {
            if let Some(edge) = edge {
                let at = match edge {
                    Edge::First { .. } => 0,
                    Edge::Last { .. } => here.len().saturating_sub(1),
                    Edge::Spelled(at) => at,
                };
                self.add(Some(at), Change::Blanks(edge));
            }
        }
    }

    /// Compares two texts that aren't empty.
    fn texts(&mut self, here: &[u16], root: &[u16], is_set: bool) {
        self.marks(here, root, is_set);
        self.blanks(here, root);
        if let Some(ending) = lacking_ending(here, root) {
            let last = here.len().saturating_sub(1);
            self.add(Some(last), Change::LacksEnding(ending));
        }
    }

    /// Compares two different texts, as messages and in other ways.
    fn strings(
        &mut self,
        (here, message): (&[u16], &Message<'_>),
        (root, other): (&[u16], &Message<'_>),
    ) {
        self.messages(here, message, other);
        if !here.is_empty() && !root.is_empty() {
            self.texts(here, root, message.has_branches || other.has_branches);
        } else if self.changes.is_empty() && !root.is_empty() {
            self.add(None, Change::Empty);
        }
    }
}

/// The doubts of a String and its differences from the root's, each in the order of its units.
#[derive(Drop)]
pub(crate) struct Compared {
    pub(crate) doubts: Vec<PlacedDoubt>,
    pub(crate) changes: Vec<PlacedChange>,
}

/// Checks whether a text isn't a message, and the root's is one with arguments.
fn is_broken(here: &Message<'_>, root: &Message<'_>) -> bool {
    match (&here.named, &root.named) {
        (Err(_), Ok(named)) => !named.is_empty(),
        _ => false,
    }
}

/// Returns how a String differs from the root's, in the order of its units.
fn string_changes(
    heap: &mut Heap,
    (here, message): (&[u16], &Message<'_>),
    (root, other): (&[u16], &Message<'_>),
) -> Vec<PlacedChange> {
    let mut comparison = Comparison {
        heap: *heap,
        changes: Vec::new(heap.alloc),
    };
    if here == root && !here.is_empty() {
        comparison.add(None, Change::Same);
    } else {
        comparison.strings((here, message), (root, other));
    }
    *heap = comparison.heap;
    let mut changes = comparison.changes;
    heap.note(changes.sort_by_key(|change: &PlacedChange| change.at));
    changes
}

/// Reads a String and compares it with the root's.
pub(crate) fn compare_strings(
    heap: &mut Heap,
    units: &[u16],
    root: &[u16],
    language: Language,
) -> Compared {
    let mut message = search_message(heap, units, language);
    let other = search_message(heap, root, Language::unknown());
    let changes = string_changes(heap, (units, &message), (root, &other));
    if is_broken(&message, &other) {
        message.doubts.clear();
    }
    Compared {
        doubts: message.doubts,
        changes,
    }
}
