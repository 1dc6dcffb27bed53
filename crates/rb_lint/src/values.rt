//! Walks through the values of a text that is compiled: checks messages, and compares with the root's.
use crate::collector::Collector;
use crate::compare::{PlacedChange, compare_strings};
use crate::difference::{Change, Difference};
use crate::finding::Message;
use crate::heap::Heap;
use crate::language::Language;
use crate::links::{has_units, is_bundle_key, is_misspelled, is_parent, leads_nowhere};
use crate::messages::read_string;
use crate::parent::Parent;
use crate::path::shown_name;
use crate::pattern::{PatternDoubt, PlacedDoubt};
use crate::report::Settings;
use crate::rule::Rule;
use crate::text_tokens::TextTokens;
use crate::unit_walk::UnitWalk;
use crate::warning::Doubt;
use rb_compare::{SHOWN_PATH, has_text, is_icu_key, push_shown, shortened};
use rb_lexer::{Mark, Token};
use rb_messages::{character_count, find_word};
use rb_tree::{Entries, Kind, Node, Tree};
use std::alloc::Global;

/// The last part of the path of an item.
#[derive(Drop)]
enum Segment {
    Bundle,
    Key(Vec<u8>),
    Index(usize),
}

/// A body that is open, with its value in the text's tree and in the root's.
#[derive(Drop)]
struct Level<'a> {
    segment: Segment,
    tree: Option<&'a Tree>,
    root: Option<&'a Tree>,
    /// The index of its next item.
    next: usize,
    /// Its missing keys are reported at its first key that the root lacks, which may be one of them with a
    /// mistake.
    is_deferred: bool,
}

/// Checks whether an item has text to translate, or may have it in its entries.
fn may_have_text(kind: Kind) -> bool {
    has_text(kind) || kind == Kind::Table
}

/// Returns the characters of a token in ASCII, with `?` for each other one.
fn key_of(heap: &mut Heap, token: &Token) -> Vec<u8> {
    let mut key = Vec::new(heap.alloc);
    if let Mark::Text(units) = &token.what {
        for unit in units.as_slice() {
            heap.push(&mut key, u8::try_from(*unit).unwrap_or(b'?'));
        }
    }
    key
}

fn entry_of<'a>(table: Option<&'a Tree>, key: &[u8]) -> Option<&'a Tree> {
    match table? {
        Tree::Table(entries) => entries.get(key),
        _ => None,
    }
}

fn item_of(array: Option<&Tree>, i: usize) -> Option<&Tree> {
    match array? {
        Tree::Array(items) => items.as_slice().get(i),
        _ => None,
    }
}

/// Checks whether a table has a key that the root's lacks.
fn has_added(tree: &Entries, root: &Entries) -> bool {
    for i in 0..tree.len() {
        let key = tree.key_at(i);
        if root.get(key).is_none() && !is_icu_key(key) {
            return true;
        }
    }
    false
}

/// Returns the number of items of an array or a vector.
fn item_count(tree: &Tree) -> Option<usize> {
    match tree {
        Tree::Array(items) => Some(items.as_slice().len()),
        Tree::Ints(numbers) => Some(numbers.as_slice().len()),
        _ => None,
    }
}

fn segment_key(segment: &Segment) -> &[u8] {
    match segment {
        Segment::Key(key) => key.as_slice(),
        _ => b"",
    }
}

/// Returns the key of the innermost level, if that is an entry of the bundle itself.
fn top_key<'a>(levels: &'a [Level<'_>]) -> &'a [u8] {
    match levels.last() {
        Some(level) if levels.len() == 2 => segment_key(&level.segment),
        _ => b"",
    }
}

/// Adds the key or the index of a level to a path.
fn add_segment(heap: &mut Heap, path: &mut Vec<u8>, segment: &Segment) {
    match segment {
        Segment::Bundle => {}
        Segment::Key(key) => heap.note(push_shown(heap.alloc, path, key)),
        Segment::Index(index) => match format!(in heap.alloc; "{index}") {
            Ok(index) => heap.note(push_shown(heap.alloc, path, index.as_bytes())),
            Err(_) => heap.fail(),
        },
    }
}

/// Checks whether an entry of a table of the text, with a key, isn't in the root's table.
fn is_added(level: &Level<'_>, root: Option<&Tree>, key: &[u8]) -> bool {
    root.is_none()
        && matches!(level.root, Some(Tree::Table(_)))
        && matches!(level.tree, Some(Tree::Table(_)))
        && !is_icu_key(key)
}

fn is_array(level: &Level<'_>) -> bool {
    matches!(level.tree, Some(Tree::Array(_)))
}

#[derive(Drop)]
struct ValueSearch<'a, 'c> {
    source: &'a [u8],
    /// The name that the bundle should have, or else the one that it has.
    name: Vec<u8>,
    tree: &'a Tree,
    root: Option<&'a Tree>,
    /// The words that no string may have, and the maximum number of characters of one.
    forbidden: &'a [Vec<u16>],
    longest: usize,
    /// The aliases that lead to nothing in ICUDATA.
    dead: &'a [Vec<u16>],
    parent: Parent,
    /// The language of the name that the bundle should have, or else of the one that it has.
    language: Option<Language>,
    /// The open bodies: only their paths are stored, since those of all items may be far longer than the
    /// text.
    levels: Vec<Level<'a>>,
    /// The last text, which is a key if a colon or a brace comes next, and else an item.
    text: Option<Token>,
    /// A colon precedes: the next text is a type, and no key.
    is_type: bool,
    /// The number of differences that were passed on.
    passed: usize,
    found: Collector<'c>,
}

impl<'a, 'c> ValueSearch<'a, 'c> {
    /// Returns the path of the innermost level, and of an entry in it: keys and indexes with slashes between
    /// them. Of a long key, and of a long path, it has the first and the last bytes.
    fn path(&mut self, entry: Option<&[u8]>) -> Vec<u8> {
        let heap = &mut self.found.heap;
        let mut path = Vec::new(heap.alloc);
        for level in &self.levels {
            add_segment(heap, &mut path, &level.segment);
        }
        if let Some(key) = entry {
            heap.note(push_shown(heap.alloc, &mut path, key));
        }
        heap.list(shortened(heap.alloc, &path, SHOWN_PATH))
    }

    /// Passes a difference on. Paths are built only of the first ones that aren't allowed.
    fn report(&mut self, first: usize, entry: Option<&[u8]>, change: Change) {
        let rule = change.rule();
        if self.found.is_allowed(first, rule) {
            return;
        }
        if self.passed >= self.found.limit() {
            return self.found.skip();
        }
        self.passed = self.passed.saturating_add(1);
        let path = self.path(entry);
        let difference = Difference { path, change };
        self.found
            .push(first, rule, Message::Difference(difference));
    }

    /// Reports the keys that only the root's table has: those that are neither inherited from another locale
    /// nor the same in all languages.
    fn absences(&mut self, first: usize, tree: &'a Entries, root: &'a Entries) {
        if self.parent != Parent::Root {
            return;
        }
        for i in 0..root.len() {
            let key = root.key_at(i);
            if tree.get(key).is_none() && may_have_text(root.at(i).kind()) && !is_icu_key(key) {
                self.report(first, Some(key), Change::Absent);
            }
        }
    }

    /// Passes on what is doubtful in a String, whose text is between two offsets.
    fn doubts(&mut self, span: (usize, usize), doubts: Vec<PlacedDoubt>) {
        let mut walk = UnitWalk::new(self.source, span.0, span.1);
        for placed in doubts {
            let rule = placed.doubt.rule();
            let at = walk.place_of(placed.at);
            // An escape for U+FFFD is meant.
            if rule != Rule::ReplacementCharacter || self.source.get(at) != Some(&b'\\') {
                self.found.push(at, rule, Message::Pattern(placed.doubt));
            }
        }
    }

    /// Passes on how a String differs from the root's.
    fn changes(&mut self, span: (usize, usize), changes: Vec<PlacedChange>) {
        let mut walk = UnitWalk::new(self.source, span.0, span.1);
        for placed in changes {
            let at = if placed.is_whole {
                span.0
            } else {
                walk.place_of(placed.at)
            };
            self.report(at, None, placed.change);
        }
    }

    /// Reports the words of a String that the settings forbid.
    fn words(&mut self, span: (usize, usize), units: &[u16]) {
        for word in self.forbidden {
            if let Some(unit) = find_word(units, word) {
                self.forbidden_word(span, unit, word);
            }
        }
    }

    /// Reports a forbidden word, which begins at a unit of a String.
    fn forbidden_word(&mut self, span: (usize, usize), unit: usize, word: &[u16]) {
        let at = UnitWalk::new(self.source, span.0, span.1).place_of(unit);
        let word = shown_name(&mut self.found.heap, word);
        let doubt = PatternDoubt::Forbidden(word);
        self.found
            .push(at, Rule::ForbiddenWord, Message::Pattern(doubt));
    }

    /// Reports a String that is longer than the settings allow.
    fn length(&mut self, first: usize, units: &[u16]) {
        let (length, longest) = (character_count(units), self.longest);
        if length > longest {
            let doubt = PatternDoubt::Long { length, longest };
            self.found
                .push(first, Rule::TooLong, Message::Pattern(doubt));
        }
    }

    /// Checks a String, and compares it with the root's.
    fn string(&mut self, span: (usize, usize), units: &[u16], root: Option<&Tree>) {
        let language = self.language.unwrap_or(Language::unknown());
        let heap = &mut self.found.heap;
        match root {
            Some(Tree::String(root)) => {
                let compared = compare_strings(heap, units, root.as_slice(), language);
                self.changes(span, compared.changes);
                self.doubts(span, compared.doubts);
            }
            _ => {
                let doubts = read_string(heap, units, language);
                self.doubts(span, doubts);
            }
        }
    }

    /// Checks a String by itself, and compares it with the root's.
    fn whole_string(&mut self, span: (usize, usize), units: &[u16], root: Option<&Tree>) {
        if is_bundle_key(top_key(&self.levels)) && !is_parent(units, &self.name) {
            self.found.add(span.0, Doubt::BadParent);
        }
        self.length(span.0, units);
        self.words(span, units);
        self.string(span, units, root);
    }

    /// Reports an alias that leads to nothing.
    fn alias(&mut self, first: usize, units: &[u16]) {
        if leads_nowhere(units, self.tree, self.root, &self.name) {
            self.found.add(first, Doubt::AliasToNothing);
        } else if has_units(self.dead, units) {
            self.found.add(first, Doubt::NothingInData);
        }
    }

    /// Checks what the text of a String or an alias says, which is between two offsets.
    fn text_value(&mut self, span: (usize, usize)) {
        let Some(level) = self.levels.last() else {
            return;
        };
        match (level.tree, level.root) {
            (Some(Tree::String(units)), root) => self.whole_string(span, units.as_slice(), root),
            (Some(Tree::Alias(units)), _) => self.alias(span.0, units.as_slice()),
            _ => {}
        }
    }

    /// Reports another kind than the root's; an alias may lead to any kind.
    fn kinds(&mut self, first: usize, here: Kind, root: Kind) {
        if root != here && root != Kind::Alias && here != Kind::Alias {
            self.report(first, None, Change::OtherKind { here, root });
        }
    }

    /// Reports another number of items than the root's.
    fn lengths(&mut self, first: usize, tree: &Tree, root: &Tree) {
        match (item_count(tree), item_count(root)) {
            (Some(here), Some(other)) if here != other && tree.kind() == root.kind() => {
                self.report(first, None, Change::OtherLength { here, root: other });
            }
            _ => {}
        }
    }

    /// Reports the missing keys of the innermost level, if that was deferred.
    fn deferred(&mut self, first: usize) {
        let Some(level) = self.levels.last_mut() else {
            return;
        };
        let is_deferred = level.is_deferred;
        level.is_deferred = false;
        match (level.tree, level.root) {
            (Some(Tree::Table(tree)), Some(Tree::Table(root))) if is_deferred => {
                self.absences(first, tree, root);
            }
            _ => {}
        }
    }

    /// Takes the value of the innermost level, which is at a byte.
    fn value(&mut self, first: usize) {
        let Some(level) = self.levels.last() else {
            return;
        };
        if let (Some(tree), Some(root)) = (level.tree, level.root) {
            self.compare(first, tree, root);
        }
    }

    /// Compares a value, which is at a byte, with the root's.
    fn compare(&mut self, first: usize, tree: &'a Tree, root: &'a Tree) {
        self.kinds(first, tree.kind(), root.kind());
        match (tree, root) {
            (Tree::Table(tree), Tree::Table(root)) if !has_added(tree, root) => {
                self.absences(first, tree, root);
            }
            (Tree::Table(_), _) => {
                if let Some(level) = self.levels.last_mut() {
                    level.is_deferred = true;
                }
            }
            _ => self.lengths(first, tree, root),
        }
    }

    /// Begins a level.
    fn open(&mut self, segment: Segment, tree: Option<&'a Tree>, root: Option<&'a Tree>) {
        let level = Level {
            segment,
            tree,
            root,
            next: 0,
            is_deferred: false,
        };
        self.found.heap.push(&mut self.levels, level);
    }

    /// Begins an item of the innermost level, which is an array.
    fn item(&mut self, first: usize) {
        let Some(level) = self.levels.last_mut() else {
            return;
        };
        let i = level.next;
        level.next = i.saturating_add(1);
        let (tree, root) = (item_of(level.tree, i), item_of(level.root, i));
        self.open(Segment::Index(i), tree, root);
        self.value(first);
    }

    /// Takes an item of the innermost level that is a text.
    fn item_text(&mut self, token: &Token) {
        self.item(token.first);
        self.text_value((token.first, token.past));
        let _ = self.levels.pop();
    }

    /// Begins an entry of the innermost level, which is a table.
    fn entry(&mut self, token: &Token) {
        let key = key_of(&mut self.found.heap, token);
        let Some(level) = self.levels.last() else {
            return;
        };
        let (tree, root) = (entry_of(level.tree, &key), entry_of(level.root, &key));
        let is_added = is_added(level, root, &key);
        if is_added {
            self.deferred(token.first);
        }
        self.open(Segment::Key(key), tree, root);
        if is_added {
            self.report(token.first, None, Change::Additional);
        }
        self.entry_value(token.first);
    }

    /// Takes the value of an entry that has begun at a byte.
    fn entry_value(&mut self, first: usize) {
        if is_misspelled(top_key(&self.levels)) {
            self.found.add(first, Doubt::MisspelledKey);
        }
        self.value(first);
    }

    /// Takes the value of the bundle, which is at its name or else at its brace.
    fn bundle(&mut self, name: Option<Token>, brace: usize) {
        self.open(Segment::Bundle, Some(self.tree), self.root);
        let Some(token) = name else {
            return self.value(brace);
        };
        if self.language.is_none() {
            self.name = key_of(&mut self.found.heap, &token);
            self.language = Some(Language::of(&self.name));
        }
        self.value(token.first);
    }

    /// Begins a body at a brace; the text before it, if there is one, is its key, or an item before it.
    fn enter(&mut self, brace: usize) {
        self.is_type = false;
        let text = self.text.take();
        match self.levels.last() {
            Some(level) => {
                let is_list = is_array(level);
                self.enter_level(text, is_list, brace);
            }
            None => self.bundle(text, brace),
        }
    }

    /// Begins a body in another one, given the text before its brace.
    fn enter_level(&mut self, text: Option<Token>, is_list: bool, brace: usize) {
        match text {
            Some(token) if is_list => {
                self.item_text(&token);
                self.item(brace);
            }
            Some(token) => self.entry(&token),
            None => self.item(brace),
        }
    }

    /// Ends a text before a comma or a brace at an offset.
    fn end_text(&mut self, at: usize) {
        let is_list = match self.levels.last() {
            Some(level) => is_array(level),
            None => false,
        };
        match self.text.take() {
            Some(token) if is_list => self.item_text(&token),
            Some(token) => self.text_value((token.first, token.past)),
            None if is_list => {}
            None => self.text_value((at, at)),
        }
    }

    /// Takes all tokens.
    fn run(&mut self, tokens: &mut TextTokens<'_>) {
        for _ in 0..u64::MAX {
            let Some(token) = tokens.pop(&mut self.found.heap) else {
                break;
            };
            self.step(token);
        }
    }

    fn step(&mut self, token: Token) {
        match &token.what {
            Mark::Text(_) if self.is_type => {}
            Mark::Text(_) => self.text = Some(token),
            Mark::Colon => self.is_type = true,
            Mark::LeftBrace => self.enter(token.first),
            Mark::Comma => self.end_text(token.first),
            Mark::RightBrace => {
                self.end_text(token.first);
                let _ = self.levels.pop();
            }
        }
    }
}

/// Makes a search in a text at its beginning.
fn search_of<'a, 'c>(
    text: &'a [u8],
    tree: &'a Tree,
    settings: &Settings<'a>,
    mut found: Collector<'c>,
) -> ValueSearch<'a, 'c> {
    let alloc = found.heap.alloc;
    let name = settings.name.unwrap_or(b"");
    ValueSearch {
        tree,
        root: settings.root,
        forbidden: settings.forbidden,
        longest: settings.longest,
        dead: settings.dead,
        parent: Parent::of(name, tree, settings.parent),
        source: text,
        name: found.heap.list(name.to_vec(alloc)),
        language: match settings.name {
            Some(name) => Some(Language::of(name)),
            None => None,
        },
        levels: Vec::new(alloc),
        text: None,
        is_type: false,
        passed: 0,
        found,
    }
}

/// Checks the messages of a bundle text, and compares the text with that of the root locale, if it is
/// known. Reports keys that only one of them has, items of another kind, and arguments of messages that
/// only one of two Strings has or that they use differently. `tree` is the bundle that the text spells.
/// The rules are this project's own.
///
/// A missing key is reported at its table, or at the first key there that the root lacks, if its parent
/// is the root and the root's item has text: a String, an array or a table. Keys that begin with `%%` and
/// aliases are skipped, and of arrays only the items that both have are compared. Of a long path and a
/// long name a warning has the first and the last bytes.
pub(crate) fn search_values<'a, 'c>(
    text: &'a [u8],
    tree: &'a Tree,
    settings: &Settings<'a>,
    found: Collector<'c>,
) -> Collector<'c> {
    let mut search = search_of(text, tree, settings, found);
    let mut tokens = TextTokens::of(&mut search.found.heap, text);
    search.run(&mut tokens);
    search.found
}
