use crate::allowed::Allowances;
use crate::braces::BraceSearch;
use crate::collector::Collector;
use crate::layout::Layout;
use crate::pieces::{Searched, search_pieces};
use crate::report::Settings;
use crate::scan::{Open, Quoting, visit_pieces};
use crate::warning::Doubt;
use std::alloc::Global;

/// Finds lost braces of a text by its layout.
fn search_braces<'a>(
    alloc: Global,
    text: &[u8],
    quoting: Quoting,
    layout: &Layout,
    found: Collector<'a>,
) -> Collector<'a> {
    if !layout.lacks_brace() || !layout.is_indented() {
        return found;
    }
    let mut search = BraceSearch::new(alloc, found);
    visit_pieces(text, quoting, &mut search);
    search.warnings
}

/// Returns how to split a text into pieces: if it ends inside a quoted piece, each quoted piece is taken
/// to end with its line.
fn quoting_of(open: Open) -> Quoting {
    match open {
        Open::Quote(_) => Quoting::WithinLine,
        Open::Nothing | Open::Comment(_) => Quoting::OverLines,
    }
}

/// Searches a text for what is doubtful, without comparing it with the root's. Returns the findings, and
/// what the text leaves open.
pub(crate) fn search_text<'a, 'c>(
    alloc: Global,
    text: &'a [u8],
    settings: &Settings<'a>,
    allowances: &'c Allowances,
) -> (Collector<'c>, Open) {
    let whole = search_pieces(alloc, text, settings, allowances, Quoting::OverLines);
    let open = whole.open;
    let quoting = quoting_of(open);
    let searched = match quoting {
        Quoting::OverLines => whole,
        Quoting::WithinLine => search_pieces(alloc, text, settings, allowances, quoting),
    };
    let mut found = searched.found;
    for at in allowances.unknown() {
        found.add(*at, Doubt::UnknownAllowed);
    }
    let found = search_braces(alloc, text, quoting, &searched.layout, found);
    (found, open)
}
