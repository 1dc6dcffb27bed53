ghost use Rattle.std.specs.Prelude.{IfOk};
ghost use Rattle.rb_tree.specs.Parts.{Fits};
ghost use Rattle.rb_tree.specs.View.{view_of};
ghost use Rattle.rb_json_reader.specs.Text.{IsJsonOf};

use crate::fault::{Fault, JsonFault, JsonFaultKind};
use crate::input::Input;
use crate::limits::JSON_LIMIT;
use crate::path::path_at;
use crate::place::place_after;
use crate::value::read_value;
use json::{Reader, Scratch};
use rb_tree::{HEIGHT_LIMIT, Tree, WEIGHT_LIMIT};
use std::alloc::Global;

/// Reads a whole text as a table.
fn read_text(alloc: Global, text: &str) -> Result<Tree, Fault>
    ensures fits { IfOk result (λ t. Fits (view_of t)) }
    ensures reads { IfOk result (λ t. IsJsonOf text.now (view_of t)) }
{
    let mut scratch = Scratch::new(alloc);
    let mut input = Input {
        reader: Reader::new(text, &mut scratch)?,
        weight_left: WEIGHT_LIMIT,
    };
    let at = input.at();
    let tree = read_value(alloc, &mut input, HEIGHT_LIMIT)?;
    if input.at() < text.len() || input.reader.next().is_some() {
        return Err(Fault::new(JsonFaultKind::TrailingText, input.at()));
    }
    if !matches!(tree, Tree::Table(_)) {
        return Err(Fault::new(JsonFaultKind::NotTable, at));
    }
    if !tree.fits() {
        return Err(Fault::new(JsonFaultKind::TooLarge, at));
    }
    Ok(tree)
}

/// Makes the error at a byte of a text.
fn located(alloc: Global, text: &str, fault: Fault) -> JsonFault {
    let kind = fault.kind;
    if kind == JsonFaultKind::Memory {
        return without_place(alloc, kind);
    }
    let at = fault.at.min(text.len());
    let place = place_after(&text.as_bytes()[..at]);
    match path_at(alloc, text, at) {
        Ok(path) => JsonFault {
            kind,
            line: place.line,
            column: place.column,
            path,
        },
        Err(_) => without_place(alloc, JsonFaultKind::Memory),
    }
}

fn without_place(alloc: Global, kind: JsonFaultKind) -> JsonFault {
    JsonFault {
        kind,
        line: 0,
        column: 0,
        path: String::new(alloc),
    }
}

fn at_front(alloc: Global, kind: JsonFaultKind, front: &[u8]) -> JsonFault {
    let place = place_after(front);
    JsonFault {
        kind,
        line: place.line,
        column: place.column,
        path: String::new(alloc),
    }
}

/// Reads a bundle's tree from its JSON form, which docs/JSON.md describes.
///
/// The tree is a table that `fits`. Errors: see `JsonFaultKind`. If a text has several, one of them is reported.
///
/// ```rust
/// let tree = read_tree(alloc, b"{\"a\":\"x\",\"b\":{\":alias\":\"/LOCALE/a\"}}")?;
/// read_tree(alloc, b"{\"a\":\n{\"b\":1.5}}") // Err: BadNumber, line 2, column 6, path /a/b
/// ```
pub fn read_tree(alloc: Global, bytes: &[u8]) -> Result<Tree, JsonFault>
    ensures fits { IfOk result (λ t. Fits (view_of t)) }
    // The text has the tokens of the tree's value, with the members of objects in any order.
    ensures reads { IfOk result (λ t. IsJsonOf bytes.now (view_of t)) }
{
    if bytes.len() > JSON_LIMIT {
        return Err(at_front(alloc, JsonFaultKind::TooLong, b""));
    }
    let text = match str::from_utf8(bytes) {
        Ok(text) => text,
        Err(e) => {
            let front = &bytes[..e.valid_up_to()];
            return Err(at_front(alloc, JsonFaultKind::NotUtf8, front));
        }
    };
    match read_text(alloc, text) {
        Ok(tree) => Ok(tree),
        Err(fault) => Err(located(alloc, text, fault)),
    }
}
