//! Finds the error of a text that isn't compiled, and describes it.
use crate::heap::Heap;
use crate::named_text::shown;
use crate::path::shown_source;
use crate::piece::Piece;
use crate::position::line_of;
use crate::repeated::first_line_of;
use crate::scan::{Open, Quoting, Visit, visit_pieces};
use crate::text_tokens::{TextTokens, parse_text};
use rb_lexer::{SourceFault, SourceKind};
use std::alloc::{AllocError, Global};
use std::fmt;

/// The part of a text that an error is about.
#[derive(Drop)]
pub enum About {
    /// Nothing is known of it but its kind.
    Unknown,
    /// The source at the error, shortened.
    Source(Vec<u8>),
    /// A key that is already defined in this line.
    Key(Vec<u8>, u64),
    /// The text ends.
    End,
    /// The text is UTF-16.
    Utf16,
    /// The escape `\c`.
    Control,
}

/// Why a text isn't compiled.
#[derive(Drop)]
pub struct FaultText {
    pub kind: SourceKind,
    pub about: About,
}

/// The error of a text, at a byte.
#[derive(Drop)]
pub(crate) struct Fault {
    pub(crate) at: usize,
    pub(crate) text: FaultText,
}

/// Says what to do about a type of genrb that isn't read.
fn type_advice(word: &str) -> &'static str {
    if word.starts_with("process") || word == "import" || word == "include" {
        "; put the data itself in the text, or compile it with genrb --formatVersion 1"
    } else {
        "; the types are string, int, intvector, bin, alias, array and table"
    }
}

fn kind_text(kind: SourceKind) -> &'static str {
    match kind {
        SourceKind::TooLong => "a text has at most 8,388,608 bytes",
        SourceKind::NotUtf8 => "this byte isn't UTF-8",
        SourceKind::BadEscape => "this backslash begins no escape; a backslash is written \\\\",
        SourceKind::OpenQuote => "this quote isn't closed before the end of the text",
        SourceKind::OpenComment => "this comment isn't closed before the end of the text",
        SourceKind::Unexpected => "the grammar has nothing like this here",
        SourceKind::UnknownType => "the word after the colon is no type",
        SourceKind::BadKey => "a key is one or more characters from space to tilde",
        SourceKind::DuplicateKey => "a key is already defined in its table",
        SourceKind::BadInt => "this is no integer, or it is too large",
        SourceKind::BadHex => "a bin has an even number of hexadecimal digits",
        SourceKind::TooDeep => "a value is nested deeper than 64 levels",
        SourceKind::TrailingText => "the bundle is already closed",
        SourceKind::TooLarge => "the bundle is too large for a file",
        SourceKind::Memory => "out of memory",
    }
}

/// Returns what is wrong with the source at an error, in two parts, or None if the kind of the error says it.
fn source_text(kind: SourceKind, source: &str) -> Option<(&'static str, &'static str)> {
    match kind {
        SourceKind::UnknownType => Some((" is no type", type_advice(source))),
        SourceKind::BadInt => Some((" is no integer, or it is too large", "")),
        SourceKind::BadKey => Some((" is no key: ", kind_text(kind))),
        SourceKind::Unexpected | SourceKind::TrailingText => {
            Some((" isn't expected here: ", kind_text(kind)))
        }
        SourceKind::BadHex => Some((": ", kind_text(kind))),
        _ => None,
    }
}

/// Returns the description of an error without its source, in two parts.
fn about_text(about: &About, kind: SourceKind) -> (&'static str, &'static str) {
    match about {
        About::Utf16 => ("this text is UTF-16; save it as UTF-8", ""),
        About::Control => (
            kind_text(kind),
            "; genrb makes a control character of \\c and the next one",
        ),
        About::End => ("the text ends before its bundle; is a brace missing?", ""),
        _ => (kind_text(kind), ""),
    }
}

fn write_key<W: fmt::Write>(
    f: &mut fmt::Formatter<W>,
    word: &str,
    key: &str,
    line: u64,
) -> fmt::Result {
    write!(f, "{word}: key '{key}' is already defined in line {line}")
}

fn write_about<W: fmt::Write>(
    f: &mut fmt::Formatter<W>,
    word: &str,
    (text, more): (&str, &str),
) -> fmt::Result {
    write!(f, "{word}: {text}{more}")
}

fn write_source<W: fmt::Write>(
    f: &mut fmt::Formatter<W>,
    kind: SourceKind,
    source: &str,
) -> fmt::Result {
    let word = kind.word();
    match source_text(kind, source) {
        Some((is, text)) => write!(f, "{word}: '{source}'{is}{text}"),
        None => write_about(f, word, (kind_text(kind), "")),
    }
}

impl fmt::Display for FaultText {
    fn fmt<W: fmt::Write>(&self, f: &mut fmt::Formatter<W>) -> fmt::Result {
        let word = self.kind.word();
        match &self.about {
            About::Key(key, line) => write_key(f, word, shown(key), *line),
            About::Source(source) => write_source(f, self.kind, shown(source)),
            about => write_about(f, word, about_text(about, self.kind)),
        }
    }
}

/// Checks whether a text that isn't compiled is UTF-16: it begins with a byte order mark, or each second
/// of its first bytes is NUL.
pub(crate) fn is_utf16(text: &[u8]) -> bool {
    matches!(
        text,
        [0xFF, 0xFE, ..]
            | [0xFE, 0xFF, ..]
            | [1..=0x7F, 0, 1..=0x7F, 0, ..]
            | [0, 1..=0x7F, 0, 1..=0x7F, ..]
    )
}

/// Finds the first backslash that begins no escape.
#[derive(Clone, Copy)]
struct EscapeSearch {
    found: Option<usize>,
}

impl Visit for EscapeSearch {
    fn piece(&mut self, _piece: &Piece) {}

    fn escape(&mut self, at: usize, code: Option<u32>, _rest: &str) {
        if code.is_none() {
            self.found = self.found.or(Some(at));
        }
    }
}

/// Returns the places of the tokens of a line, or none of a text that can't be split into tokens.
fn tokens_of(heap: &mut Heap, text: &[u8], line: u64) -> Vec<(usize, usize)> {
    let mut found = Vec::new(heap.alloc);
    let mut tokens = TextTokens::of(heap, text);
    for _ in 0..u64::MAX {
        let Some(token) = tokens.pop(heap) else {
            break;
        };
        if token.line == line {
            heap.push(&mut found, (token.first, token.past));
        }
    }
    found
}

/// Appends a part of a text, and a line feed.
fn add_line(heap: &mut Heap, broken: &mut Vec<u8>, part: Option<&[u8]>) {
    heap.extend(broken, part.unwrap_or(&[]));
    heap.push(broken, b'\n');
}

/// Returns a text with a line feed before each of some places, in order, and at its end.
fn with_breaks(heap: &mut Heap, text: &[u8], places: &[usize]) -> Vec<u8> {
    let mut broken = Vec::new(heap.alloc);
    let mut last = 0;
    for place in places {
        add_line(heap, &mut broken, text.get(last..*place));
        last = *place;
    }
    add_line(heap, &mut broken, text.get(last..));
    broken
}

/// Returns the index of the offset in one line that has a fault, or a large one if none has it. The text
/// is parsed again with a line break before each of them, so that the fault's line identifies the offset.
fn place_of(heap: &mut Heap, text: &[u8], places: &[usize], fault: SourceFault) -> usize {
    let broken = with_breaks(heap, text, places);
    match parse_text(heap.alloc, &broken) {
        Err(found) if found.kind == SourceKind::Memory => {
            heap.fail();
            usize::MAX
        }
        Err(found) if found.kind == fault.kind => {
            let breaks = found.line.saturating_sub(fault.line);
            usize::try_from(breaks.wrapping_sub(1)).unwrap_or(usize::MAX)
        }
        _ => usize::MAX,
    }
}

/// Returns what is known of a token that has an error.
fn token_about(
    heap: &mut Heap,
    text: &[u8],
    (first, past): (usize, usize),
    kind: SourceKind,
) -> About {
    let source = shown_source(heap, text.get(first..past).unwrap_or(&[]));
    let line = match kind {
        SourceKind::DuplicateKey => first_line_of(heap, text, first),
        _ => None,
    };
    match line {
        Some(line) => About::Key(source, line),
        None => About::Source(source),
    }
}

/// Finds the token that has the error of a text.
fn find_token(heap: &mut Heap, text: &[u8], fault: SourceFault) -> Fault {
    let tokens = tokens_of(heap, text, fault.line);
    let mut places = Vec::new(heap.alloc);
    for token in &tokens {
        heap.push(&mut places, token.0);
    }
    let found = place_of(heap, text, &places, fault);
    match tokens.get(found) {
        Some(token) => {
            let about = token_about(heap, text, *token, fault.kind);
            fault_at(token.0, fault.kind, about)
        }
        None => not_found(text, fault),
    }
}

/// Returns an error at the beginning of its line, or at the end of the text if that comes too early.
fn not_found(text: &[u8], fault: SourceFault) -> Fault {
    let (first, line) = line_of(text, fault.line);
    let is_end = fault.kind == SourceKind::Unexpected
        && first.saturating_add(line.len()) >= text.len();
    if is_end {
        fault_at(text.len(), fault.kind, About::End)
    } else {
        fault_at(first, fault.kind, About::Unknown)
    }
}

fn fault_at(at: usize, kind: SourceKind, about: About) -> Fault {
    Fault {
        at,
        text: FaultText { kind, about },
    }
}

/// Finds the escape that has the error of a text.
fn find_escape(text: &[u8], fault: SourceFault) -> Fault {
    let mut search = EscapeSearch { found: None };
    visit_pieces(text, Quoting::OverLines, &mut search);
    let Some(at) = search.found else {
        return not_found(text, fault);
    };
    let about = match text.get(at.saturating_add(1)) {
        Some(b'c') => About::Control,
        _ => About::Unknown,
    };
    fault_at(at, fault.kind, about)
}

/// Finds the place of the error of a text.
pub(crate) fn find_fault(
    alloc: Global,
    text: &[u8],
    fault: SourceFault,
    open: Open,
) -> Result<Fault, AllocError> {
    if is_utf16(text) {
        return Ok(fault_at(0, fault.kind, About::Utf16));
    }
    let mut heap = Heap::new(alloc);
    let found = match (fault.kind, open) {
        (SourceKind::OpenQuote, Open::Quote(at)) | (SourceKind::OpenComment, Open::Comment(at)) => {
            fault_at(at, fault.kind, About::Unknown)
        }
        (SourceKind::NotUtf8, _) => match str::from_utf8(text) {
            Ok(_) => not_found(text, fault),
            Err(error) => fault_at(error.valid_up_to(), fault.kind, About::Unknown),
        },
        (SourceKind::BadEscape, _) => find_escape(text, fault),
        (SourceKind::TooLong | SourceKind::TooLarge | SourceKind::Memory, _) => {
            fault_at(0, fault.kind, About::Unknown)
        }
        _ => find_token(&mut heap, text, fault),
    };
    heap.finish(found)
}
