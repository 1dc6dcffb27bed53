use crate::adjacent::AdjacentSearch;
use crate::allowed::Allowances;
use crate::collector::Collector;
use crate::escapes::escape_doubt;
use crate::keys::KeySearch;
use crate::layout::Layout;
use crate::name::is_other_name;
use crate::piece::Piece;
use crate::report::Settings;
use crate::scan::{Open, Quoting, Visit, visit_pieces};
use crate::warning::Doubt;
use std::alloc::Global;

/// Searches the pieces of a text for what is doubtful in any layout.
#[derive(Drop)]
struct PieceSearch<'a, 'c> {
    text: &'a [u8],
    /// The name that the bundle should have, if it is known.
    stem: Option<&'a [u8]>,
    before: Option<Piece>,
    /// The number of pieces before this one, up to 2.
    count: u8,
    layout: Layout,
    adjacent: AdjacentSearch,
    keys: KeySearch,
    quoting: Quoting,
    /// The places of doubled backslashes, and the number of those that follow a letter that is no digit.
    doubled: Vec<usize>,
    within: usize,
    found: Collector<'c>,
}

/// The number of doubled backslashes from which on they are the style of a text.
const STYLE: usize = 10;

/// Checks whether a piece closes a brace that it doesn't open, as one does whose quote is missing.
fn closes_brace(bytes: &[u8]) -> bool {
    let mut open: usize = 0;
    for byte in bytes {
        match *byte {
            b'{' => open = open.saturating_add(1),
            b'}' if open == 0 => return true,
            b'}' => open = open.saturating_sub(1),
            _ => {}
        }
    }
    false
}

impl<'a, 'c> PieceSearch<'a, 'c> {
    /// Checks whether a quoted piece over several lines lacks its quote. If all quotes of the text are
    /// closed, it does only if it has braces of the text in it.
    fn is_open(&self, piece: &Piece) -> bool {
        self.quoting == Quoting::WithinLine || closes_brace(piece.of(self.text))
    }

    /// Takes a doubtful escape. Doubled backslashes are stored, up to some.
    fn doubt(&mut self, at: usize, doubt: Doubt) {
        if !matches!(doubt, Doubt::TwoBackslashes) {
            return self.found.add(at, doubt);
        }
        let before = self.text.get(at.saturating_sub(1)).copied().unwrap_or(b' ');
        if matches!(before, b'g'..=b'z') {
            self.within = self.within.saturating_add(1);
        }
        self.found.heap.push(&mut self.doubled, at);
    }

    /// Reports doubled backslashes, unless they are the style of the text, as of rules of transliteration:
    /// it has many, and few are in words.
    fn report_doubled(&mut self) {
        let count = self.doubled.len();
        if count > STYLE && self.within < count / STYLE {
            return;
        }
        for at in &self.doubled {
            self.found.add(*at, Doubt::TwoBackslashes);
        }
    }

    fn compare(&mut self, before: &Piece, piece: &Piece) {
        if let (1, Some(stem)) = (self.count, self.stem) {
            if is_other_name(self.text, before, piece, stem) {
                self.found.add(before.first, Doubt::OtherName);
            }
        }
        self.adjacent
            .step(self.text, before, piece, &mut self.found);
    }
}

impl<'a, 'c> Visit for PieceSearch<'a, 'c> {
    fn piece(&mut self, piece: &Piece) {
        if piece.spans_lines && self.is_open(piece) {
            self.found.add(piece.first, Doubt::RunsOn);
        }
        if piece.is_turned {
            self.found.add(piece.first, Doubt::Direction);
        }
        self.layout.step(piece);
        if let Some(before) = self.before {
            self.layout.compare(&before, piece);
            self.compare(&before, piece);
        }
        self.keys.step(self.text, piece, &mut self.found);
        self.count = self.count.saturating_add(1).min(2);
        self.before = Some(*piece);
    }

    fn escape(&mut self, at: usize, _code: Option<u32>, rest: &str) {
        if let Some(doubt) = escape_doubt(rest.as_bytes()) {
            self.doubt(at, doubt);
        }
    }

    fn comment(&mut self, at: usize, _comment: &str) {
        let before = self.text.get(..at).unwrap_or(&[]);
        if before.ends_with(b"http:") || before.ends_with(b"https:") {
            self.found.add(at, Doubt::UnquotedAddress);
        }
    }
}

/// The findings of a text, and how it was split into pieces.
#[derive(Drop)]
pub(crate) struct Searched<'a> {
    pub(crate) found: Collector<'a>,
    pub(crate) layout: Layout,
    pub(crate) open: Open,
}

/// Searches a text, split in one way, for what is doubtful in any layout.
pub(crate) fn search_pieces<'a, 'c>(
    alloc: Global,
    text: &'a [u8],
    settings: &Settings<'a>,
    allowances: &'c Allowances,
    quoting: Quoting,
) -> Searched<'c> {
    let mut search = PieceSearch {
        text,
        stem: settings.name,
        before: None,
        count: 0,
        layout: Layout::new(),
        adjacent: AdjacentSearch::new(alloc),
        keys: KeySearch::new(alloc),
        quoting,
        doubled: Vec::new(alloc),
        within: 0,
        found: Collector::new(alloc, settings.levels, allowances, settings.limit),
    };
    let open = visit_pieces(text, quoting, &mut search);
    search.report_doubled();
    Searched {
        found: search.found,
        layout: search.layout,
        open,
    }
}
