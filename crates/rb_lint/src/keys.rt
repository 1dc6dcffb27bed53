//! Finds keys and values that are valid and seldom meant.
use crate::collector::Collector;
use crate::piece::Piece;
use crate::warning::Doubt;
use rb_lexer::PieceKind;
use std::alloc::Global;

/// The kind of a body, by its type or by its first entry or item.
#[derive(Clone, Copy, PartialEq, Eq)]
enum Body {
    Unknown,
    Table,
    Array,
    /// Its content is neither entries nor items, as of an int.
    Leaf,
}

/// Consecutive pieces of one text.
#[derive(Clone, Copy)]
struct Texts {
    first: Piece,
    last: Piece,
    /// The first doubt of it as a key.
    doubt: Option<Doubt>,
    /// It begins with a conflict marker.
    is_conflict: bool,
}

/// Finds suspicious keys, texts before braces in arrays, quotes of another kind and conflict markers.
#[derive(Drop)]
pub(crate) struct KeySearch {
    open: Vec<Body>,
    texts: Option<Texts>,
    /// A colon precedes: the next text is a type.
    is_type: bool,
    of_type: Option<Body>,
}

const MARKERS: [&[u8]; 4] = [b"<<<<<<<", b"=======", b">>>>>>>", b"|||||||"];

/// The quotes that may begin a value, and those that may end one.
const BEGINNING: [&[u8]; 8] = [
    b"'",
    b"`",
    b"\xE2\x80\x98",
    b"\xE2\x80\x9A",
    b"\xE2\x80\x9C",
    b"\xE2\x80\x9D",
    b"\xE2\x80\x9E",
    b"\xC2\xAB",
];

const ENDING: [&[u8]; 7] = [
    b"'",
    b"`",
    b"\xE2\x80\x98",
    b"\xE2\x80\x99",
    b"\xE2\x80\x9C",
    b"\xE2\x80\x9D",
    b"\xC2\xBB",
];

/// Checks for a conflict marker at the beginning of a line.
fn is_marker(text: &[u8], piece: &Piece) -> bool {
    piece.begins_line && piece.column == 1 && MARKERS.contains(&piece.of(text))
}

/// Checks for a character that is seldom meant in a key.
fn is_sign(byte: u8) -> bool {
    matches!(byte, 0 | b';' | b'<' | b'=' | b'>' | b'\'' | b'`')
}

/// Returns what is doubtful in one piece of a key.
fn sign_doubt(text: &[u8], piece: &Piece) -> Option<Doubt> {
    if piece.kind != PieceKind::Run {
        return None;
    }
    for byte in piece.of(text) {
        if is_sign(*byte) {
            return Some(Doubt::KeyWith(char::from(*byte)));
        }
    }
    None
}

/// Returns what is doubtful between two pieces of a key. A comment between them puts no space into it.
fn space_doubt(text: &[u8], before: &Piece, piece: &Piece) -> Option<Doubt> {
    let gap = text.get(before.past..piece.first).unwrap_or(&[]);
    if gap.contains(&b'/') {
        return None;
    }
    Some(Doubt::KeyWithSpace)
}

fn begins_with_quote(bytes: &[u8]) -> bool {
    for quote in BEGINNING {
        if bytes.starts_with(quote) {
            return true;
        }
    }
    false
}

fn ends_with_quote(bytes: &[u8]) -> bool {
    for quote in ENDING {
        if bytes.ends_with(quote) {
            return true;
        }
    }
    false
}

/// Checks whether a value begins and ends with quotes of another kind.
fn is_quoted_otherwise(text: &[u8], texts: &Texts) -> bool {
    let (first, last) = (texts.first.of(text), texts.last.of(text));
    let is_long = texts.first.first < texts.last.first || first.len() > 1;
    texts.first.kind == PieceKind::Run
        && texts.last.kind == PieceKind::Run
        && is_long
        && begins_with_quote(first)
        && ends_with_quote(last)
}

fn body_of(of_type: &[u8]) -> Body {
    match of_type {
        b"table" => Body::Table,
        b"array" => Body::Array,
        b"string" => Body::Unknown,
        _ => Body::Leaf,
    }
}

impl KeySearch {
    pub(crate) fn new(alloc: Global) -> KeySearch {
        KeySearch {
            open: Vec::new(alloc),
            texts: None,
            is_type: false,
            of_type: None,
        }
    }

    fn decide(&mut self, body: Body) {
        if let Some(open) = self.open.last_mut() {
            if *open == Body::Unknown {
                *open = body;
            }
        }
    }

    /// Takes a piece of a text.
    fn text_piece(&mut self, text: &[u8], piece: &Piece) {
        if self.is_type {
            self.of_type = Some(body_of(piece.of(text)));
            self.is_type = false;
            return;
        }
        let doubt = sign_doubt(text, piece);
        self.texts = Some(match self.texts {
            None => Texts {
                first: *piece,
                last: *piece,
                doubt,
                is_conflict: is_marker(text, piece),
            },
            Some(before) => Texts {
                first: before.first,
                last: *piece,
                doubt: before
                    .doubt
                    .or(doubt)
                    .or(space_doubt(text, &before.last, piece)),
                is_conflict: before.is_conflict,
            },
        });
    }

    /// Takes the text before a colon or a brace: a key, unless this is an array.
    fn key(&mut self, warnings: &mut Collector<'_>) {
        let Some(texts) = self.texts.take() else {
            if !self.is_type && self.of_type.is_none() {
                self.decide(Body::Array);
            }
            return;
        };
        self.decide(Body::Table);
        if let Some(doubt) = self.key_doubt(&texts) {
            warnings.add(texts.first.first, doubt);
        }
    }

    /// Returns what is doubtful in the text before a colon or a brace.
    fn key_doubt(&self, texts: &Texts) -> Option<Doubt> {
        match self.open.last()? {
            _ if texts.is_conflict => None,
            Body::Array => Some(Doubt::EntryInArray),
            Body::Table if texts.first.kind == PieceKind::Run => texts.doubt,
            _ => None,
        }
    }

    /// Takes the text before a comma or a closing brace: a value.
    fn value(&mut self, text: &[u8], warnings: &mut Collector<'_>) {
        if let Some(texts) = self.texts.take() {
            if is_quoted_otherwise(text, &texts) {
                warnings.add(texts.first.first, Doubt::OtherQuotes);
            }
        }
    }

    fn enter(&mut self, warnings: &mut Collector<'_>) {
        self.key(warnings);
        let body = self.of_type.take().unwrap_or(Body::Unknown);
        warnings.heap.push(&mut self.open, body);
    }

    /// Takes the next piece.
    pub(crate) fn step(&mut self, text: &[u8], piece: &Piece, warnings: &mut Collector<'_>) {
        match piece.kind {
            PieceKind::Quoted | PieceKind::Run => {
                self.text_piece(text, piece);
                if is_marker(text, piece) {
                    warnings.add(piece.first, Doubt::Conflict);
                }
            }
            PieceKind::Colon => {
                self.key(warnings);
                self.is_type = true;
            }
            PieceKind::LeftBrace => self.enter(warnings),
            PieceKind::RightBrace => {
                self.value(text, warnings);
                let _ = self.open.pop();
            }
            PieceKind::Comma => {
                self.decide(Body::Array);
                self.value(text, warnings);
            }
            _ => {}
        }
    }
}
