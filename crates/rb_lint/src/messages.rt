//! Finds what is doubtful in a message of ICU's MessageFormat.
use crate::heap::Heap;
use crate::language::Language;
use crate::path::shown_name;
use crate::pattern::{PatternDoubt, PlacedDoubt};
use crate::piece::narrow;
use rb_messages::{
    Argument, ArgumentType, Categories, Category, MessageError, MessageFault, MessageParser, Named,
    Part, PatternFault, Span, Uses, damage_in, date_fault, number_fault,
};

/// The maximum number of doubts of one message.
const DOUBT_LIMIT: usize = 100;

/// The maximum number of messages around a use that are looked at.
const AROUND_LIMIT: u32 = 64;

const BRACE: u16 = 0x7B;

const CLOSING_BRACE: u16 = 0x7D;

const COMMA: u16 = 0x2C;

const EQUALS: u16 = 0x3D;

const BRACKET: u16 = 0x5B;

const CLOSING_BRACKET: u16 = 0x5D;

const COLON: u16 = 0x3A;

const DOLLAR: u16 = 0x24;

/// One of the messages that an argument chooses from.
#[derive(Clone, Copy)]
struct Branch {
    /// The index of the argument in `choosing`.
    owner: u32,
    /// The branch around the argument.
    around: Option<u32>,
    /// The index after the last use in it.
    past: u32,
    /// It is for a word, and not for a number.
    is_counted: bool,
}

/// An argument that chooses a message.
#[derive(Clone, Copy)]
struct Choosing {
    of_type: ArgumentType,
    /// The number of its branches that are for words.
    count: u32,
}

/// An argument whose messages aren't over.
#[derive(Clone, Copy)]
struct OpenArgument {
    of_type: ArgumentType,
    /// Its index in `choosing`.
    owner: u32,
    /// The branch around it.
    around: Option<u32>,
    /// The branch that is being read.
    branch: Option<u32>,
    /// The number of selectors before its own.
    selectors: u32,
}

#[derive(Drop)]
struct MessageSearch<'a> {
    heap: Heap,
    text: &'a [u16],
    language: Language,
    uses: Uses<'a>,
    choosing: Vec<Choosing>,
    branches: Vec<Branch>,
    open: Vec<OpenArgument>,
    /// The selectors of the open arguments.
    selectors: Vec<(u32, u32)>,
    doubts: Vec<PlacedDoubt>,
    /// The first closing brace that closes none.
    stray: Option<usize>,
}

/// The arguments of a message, by ascending names, or why it can't be parsed, and what is doubtful in it.
#[derive(Drop)]
pub(crate) struct Message<'a> {
    pub(crate) named: Result<Vec<Named<'a>>, MessageError>,
    pub(crate) doubts: Vec<PlacedDoubt>,
    /// It has messages to choose from.
    pub(crate) has_branches: bool,
}

fn is_name_unit(unit: u16) -> bool {
    matches!(unit, 0x30..=0x39 | 0x41..=0x5A | 0x5F | 0x61..=0x7A)
}

/// Returns the name of the argument that a text begins with: a brace, a name, and a comma or a brace.
fn leading_argument(units: &[u16]) -> Option<&[u16]> {
    let inside = units.strip_prefix(&[BRACE])?;
    for (past, unit) in inside.iter().enumerate() {
        if !is_name_unit(*unit) {
            let is_name = past > 0 && matches!(*unit, CLOSING_BRACE | COMMA);
            return if is_name { inside.get(..past) } else { None };
        }
    }
    None
}

/// Checks whether a text is a set of characters or rules of a transliteration, as ICU reads them: it begins
/// with a bracket, two colons or a variable. A set that begins with a string ends with a bracket, too.
fn is_set(text: &[u16]) -> bool {
    let second = text.get(1).copied();
    match text.first().copied() {
        Some(BRACKET) => second != Some(BRACE) || text.last() == Some(&CLOSING_BRACKET),
        Some(COLON) => second == Some(COLON),
        Some(DOLLAR) => match second {
            Some(unit) => is_name_unit(unit),
            None => false,
        },
        _ => false,
    }
}

/// Checks for a brace and a name without a brace that closes it before the next one.
fn has_open_name(text: &[u16]) -> bool {
    let mut is_open = false;
    let mut before = None;
    for unit in text {
        match *unit {
            BRACE if is_open => return true,
            CLOSING_BRACE => is_open = false,
            _ if before == Some(BRACE) => is_open = is_name_unit(*unit),
            _ => {}
        }
        before = Some(*unit);
    }
    is_open
}

/// Returns what is doubtful in the style of an argument.
fn style_fault(of_type: ArgumentType, style: &[u16]) -> Option<PatternFault> {
    match of_type {
        ArgumentType::Date | ArgumentType::Time => date_fault(style),
        ArgumentType::Number => number_fault(style),
        _ => None,
    }
}

/// Returns the number of blanks and control characters before other ones, or 0 without these.
fn blank_count(style: &[u16]) -> usize {
    for (at, unit) in style.iter().enumerate() {
        if *unit > 0x20 {
            return at;
        }
    }
    0
}

/// Checks whether one of some selectors is a number after `=`.
fn has_number(selectors: &[(&[u16], u32)]) -> bool {
    for selector in selectors {
        if selector.0.first() == Some(&EQUALS) {
            return true;
        }
    }
    false
}

fn has_category(selectors: &[(&[u16], u32)], category: Category) -> bool {
    for selector in selectors {
        if Category::named(selector.0) == Some(category) {
            return true;
        }
    }
    false
}

/// Returns the selectors at some ranges, in ascending order, each with its first unit.
fn selectors_of<'a>(
    heap: &mut Heap,
    text: &'a [u16],
    ranges: &[(u32, u32)],
) -> Vec<(&'a [u16], u32)> {
    let mut found = Vec::new(heap.alloc);
    for (first, past) in ranges {
        let range = *first as usize..*past as usize;
        heap.push(&mut found, (text.get(range).unwrap_or(&[]), *first));
    }
    heap.note(found.sort());
    found
}

impl<'a> MessageSearch<'a> {
    fn new(heap: Heap, text: &'a [u16], language: Language) -> MessageSearch<'a> {
        let alloc = heap.alloc;
        MessageSearch {
            heap,
            text,
            language,
            uses: Uses::new(alloc, text),
            choosing: Vec::new(alloc),
            branches: Vec::new(alloc),
            open: Vec::new(alloc),
            selectors: Vec::new(alloc),
            doubts: Vec::new(alloc),
            stray: None,
        }
    }

    fn add(&mut self, at: usize, doubt: PatternDoubt) {
        if self.doubts.len() < DOUBT_LIMIT {
            self.heap.push(&mut self.doubts, PlacedDoubt { at, doubt });
        }
    }

    /// Returns the innermost branch.
    fn branch_here(&self) -> Option<u32> {
        self.open.last()?.branch
    }

    fn quoted(&mut self, span: Span) {
        if let Some(name) = leading_argument(span.of(self.text)) {
            let name = shown_name(&mut self.heap, name);
            self.add(span.first, PatternDoubt::Quoted(name));
        }
    }

    /// Checks the pattern of a date or a number.
    fn style(&mut self, argument: Argument) {
        let Some(span) = argument.style else {
            return;
        };
        let style = span.of(self.text);
        if let Some(fault) = style_fault(argument.of_type, style) {
            let at = span.first.saturating_add(blank_count(style));
            self.add(at, PatternDoubt::Style(fault));
        }
    }

    fn argument(&mut self, argument: Argument) {
        let around = self.branch_here();
        self.style(argument);
        self.heap
            .note(self.uses.add(argument.name, argument.of_type, around));
        if argument.of_type.has_messages() {
            self.begin_choosing(argument.of_type, around);
        }
    }

    /// Begins an argument of a type that has messages.
    fn begin_choosing(&mut self, of_type: ArgumentType, around: Option<u32>) {
        let open = OpenArgument {
            of_type,
            owner: narrow(self.choosing.len() as u64),
            around,
            branch: None,
            selectors: narrow(self.selectors.len() as u64),
        };
        let choosing = Choosing { of_type, count: 0 };
        self.heap.push(&mut self.choosing, choosing);
        self.heap.push(&mut self.open, open);
    }

    /// Ends the branch that is being read, if there is one.
    fn end_branch(&mut self) {
        let past = narrow(self.uses.uses.len() as u64);
        if let Some(at) = self.branch_here() {
            if let Some(branch) = self.branches.get_mut(at as usize) {
                branch.past = past;
            }
        }
    }

    fn branch(&mut self, selector: Span) {
        self.end_branch();
        let at = narrow(self.branches.len() as u64);
        let Some(open) = self.open.last_mut() else {
            return;
        };
        open.branch = Some(at);
        let branch = Branch {
            owner: open.owner,
            around: open.around,
            past: u32::MAX,
            is_counted: open.of_type != ArgumentType::Choice
                && selector.of(self.text).first() != Some(&EQUALS),
        };
        self.begin_branch(branch);
        let range = (narrow(selector.first as u64), narrow(selector.past as u64));
        self.heap.push(&mut self.selectors, range);
    }

    fn begin_branch(&mut self, branch: Branch) {
        if let Some(choosing) = self.choosing.get_mut(branch.owner as usize) {
            choosing.count = choosing.count.saturating_add(u32::from(branch.is_counted));
        }
        self.heap.push(&mut self.branches, branch);
    }

    fn repeated(&mut self, selectors: &[(&'a [u16], u32)]) {
        for pair in selectors.windows(2) {
            if let [(selector, at), (next, next_at)] = pair {
                if selector == next {
                    let shown = shown_name(&mut self.heap, selector);
                    self.add((*at).max(*next_at) as usize, PatternDoubt::Repeated(shown));
                }
            }
        }
    }

    /// Reports words that are no category of the language.
    fn unknown(&mut self, selectors: &[(&'a [u16], u32)], categories: Option<Categories>) {
        for (selector, at) in selectors {
            if selector.first() != Some(&EQUALS) {
                self.word(*selector, *at as usize, categories);
            }
        }
    }

    /// Reports a word that is no category of the language.
    fn word(&mut self, word: &[u16], at: usize, categories: Option<Categories>) {
        match (Category::named(word), categories) {
            (None, _) => {
                let shown = shown_name(&mut self.heap, word);
                self.add(at, PatternDoubt::Unknown(shown));
            }
            (Some(category), Some(known)) if !known.has(category) => {
                self.add(at, PatternDoubt::Unused(category));
            }
            _ => {}
        }
    }

    /// Reports the categories of the language's integers for which no selector is. `=1` stands for `one` in
    /// languages in which that is no more than 1, and so on.
    fn lacking(&mut self, at: usize, selectors: &[(&'a [u16], u32)], categories: Categories) {
        let is_simple = !categories.has(Category::Few) && !categories.has(Category::Many);
        if is_simple && has_number(selectors) {
            return;
        }
        for category in Category::ALL {
            if categories.is_common(category) && !has_category(selectors, category) {
                self.add(at, PatternDoubt::Lacking(category));
            }
        }
    }

    /// Checks the selectors of an argument that ends at a brace.
    fn end(&mut self, brace: usize) {
        self.end_branch();
        let Some(open) = self.open.pop() else {
            return;
        };
        let (mut heap, text) = (self.heap, self.text);
        let selectors = match self.selectors.get(open.selectors as usize..) {
            Some(ranges) => selectors_of(&mut heap, text, ranges),
            None => Vec::new(heap.alloc),
        };
        self.heap = heap;
        self.selectors.truncate(open.selectors as usize);
        self.check_selectors(open.of_type, brace, &selectors);
    }

    /// Checks the selectors of an argument of a type, which ends at a brace.
    fn check_selectors(
        &mut self,
        of_type: ArgumentType,
        brace: usize,
        selectors: &[(&'a [u16], u32)],
    ) {
        if of_type == ArgumentType::Choice {
            return;
        }
        self.repeated(selectors);
        match of_type {
            ArgumentType::Plural => self.words(brace, selectors, self.language.cardinal),
            ArgumentType::SelectOrdinal => self.words(brace, selectors, self.language.ordinal),
            _ => {}
        }
    }

    /// Checks the words among selectors, given the categories of the language.
    fn words(
        &mut self,
        brace: usize,
        selectors: &[(&'a [u16], u32)],
        categories: Option<Categories>,
    ) {
        self.unknown(selectors, categories);
        if let Some(categories) = categories {
            self.lacking(brace, selectors, categories);
        }
    }

    fn step(&mut self, part: Part) {
        match part {
            Part::Quoted(span) => self.quoted(span),
            Part::Hash(_) => {}
            Part::Argument(argument) => self.argument(argument),
            Part::Branch(selector) => self.branch(selector),
            Part::End(brace) => self.end(brace),
            Part::Stray(at) => self.stray = self.stray.or(Some(at)),
        }
    }

    /// Reads all parts. Returns the error, if the text is no message.
    fn read(&mut self) -> Option<MessageError> {
        let mut parser = MessageParser::new(self.heap.alloc, self.text);
        for _ in 0..u64::MAX {
            match parser.next_part() {
                Ok(Some(part)) => self.step(part),
                Ok(None) => break,
                Err(error) => {
                    if error.fault == MessageFault::Memory {
                        self.heap.fail();
                    }
                    return Some(error);
                }
            }
        }
        None
    }

    /// Returns the innermost branch that all uses of an argument are in.
    fn branch_around(&self, named: &Named<'a>) -> Option<Branch> {
        let mut at = self.uses.uses.get(named.first)?.branch;
        for _ in 0..AROUND_LIMIT {
            let branch = self.branches.get(at? as usize)?;
            if named.last < branch.past as usize {
                return Some(*branch);
            }
            at = branch.around;
        }
        None
    }

    /// Checks whether an argument is in only one of the branches of another one. Of plural branches, one of
    /// two may well have an argument for itself.
    fn is_lonely(&self, named: &Named<'a>) -> bool {
        let Some(branch) = self.branch_around(named) else {
            return false;
        };
        match self.choosing.get(branch.owner as usize) {
            Some(choosing) => {
                let least = match choosing.of_type {
                    ArgumentType::Select => 2,
                    ArgumentType::Choice => u32::MAX,
                    _ => 3,
                };
                branch.is_counted && choosing.count >= least
            }
            None => false,
        }
    }

    fn lonely(&mut self, named: &[Named<'a>]) {
        if self.branches.is_empty() {
            return;
        }
        for argument in named {
            if self.is_lonely(argument) {
                let shown = shown_name(&mut self.heap, argument.name);
                self.add(argument.at, PatternDoubt::OneBranch(shown));
            }
        }
    }

    /// Finds what is doubtful in all of a message. Returns its arguments.
    fn finish(&mut self) -> Vec<Named<'a>> {
        let named = self.heap.list(self.uses.named());
        self.lonely(&named);
        if let Some(at) = self.stray {
            if !named.is_empty() && !is_set(self.text) {
                self.add(at, PatternDoubt::Stray);
            }
        }
        named
    }

    /// Checks whether a text that can't be parsed is clearly meant as a message: it has an argument with a
    /// type or a number, or a name after a brace that isn't closed. Braces around names alone are of other
    /// templates too.
    fn is_meant(&self, fault: MessageFault) -> bool {
        self.uses.has_type()
            || !is_set(self.text)
                && (fault == MessageFault::UnknownType
                    || self.uses.has_number()
                    || has_open_name(self.text))
    }
}

/// Reads a message, and finds what is doubtful in it.
pub(crate) fn search_message<'a>(
    heap: &mut Heap,
    text: &'a [u16],
    language: Language,
) -> Message<'a> {
    let mut search = MessageSearch::new(*heap, text, language);
    let named = match search.read() {
        Some(error) => Err(error),
        None => Ok(search.finish()),
    };
    if let Err(error) = &named {
        search.doubts.clear();
        if search.is_meant(error.fault) {
            search.add(error.at, PatternDoubt::Invalid(error.fault));
        }
    }
    let has_branches = named.is_ok() && !search.branches.is_empty();
    *heap = search.heap;
    let mut doubts = search.doubts;
    add_damage(heap, &mut doubts, text);
    Message {
        named,
        doubts,
        has_branches,
    }
}

/// Returns what is doubtful in a String, in the order of its units: as a message, if it has a brace, and in
/// its characters.
pub(crate) fn read_string(heap: &mut Heap, text: &[u16], language: Language) -> Vec<PlacedDoubt> {
    if text.contains(&BRACE) {
        return search_message(heap, text, language).doubts;
    }
    let mut doubts = Vec::new(heap.alloc);
    add_damage(heap, &mut doubts, text);
    doubts
}

/// Adds characters that no one writes, and puts all doubts in order.
fn add_damage(heap: &mut Heap, doubts: &mut Vec<PlacedDoubt>, text: &[u16]) {
    for damage in damage_in(text) {
        if let Some((at, damage)) = damage {
            let doubt = PatternDoubt::Damaged(damage);
            heap.push(doubts, PlacedDoubt { at, doubt });
        }
    }
    heap.note(doubts.sort_by_key(|placed: &PlacedDoubt| placed.at));
}
