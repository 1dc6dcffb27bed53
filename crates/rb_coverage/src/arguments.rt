//! The arguments of a message.
use rb_messages::{MessageFault, MessageParser, Named, Part, Uses};
use rb_tree::Tree;
use std::alloc::{AllocError, Global};

const BRACE: u16 = 0x7B;

/// Returns the arguments of a text by ascending names, or None if it is no message.
fn named_in(alloc: Global, text: &[u16]) -> Result<Option<Vec<Named<'_>>>, AllocError> {
    let mut uses = Uses::new(alloc, text);
    let mut parser = MessageParser::new(alloc, text);
    for _ in 0..u64::MAX {
        match parser.next_part() {
            Ok(Some(Part::Argument(argument))) => uses.add(argument.name, argument.of_type, None)?,
            Ok(Some(_)) => {}
            Ok(None) => break,
            Err(error) if error.fault == MessageFault::Memory => return Err(AllocError),
            Err(_) => return Ok(None),
        }
    }
    Ok(Some(uses.named()?))
}

/// Returns the arguments of an item by ascending names, or None if it is no message.
pub(crate) fn arguments_of(
    alloc: Global,
    tree: &Tree,
) -> Result<Option<Vec<Named<'_>>>, AllocError> {
    let Tree::String(units) = tree else {
        return Ok(None);
    };
    let text = units.as_slice();
    if !text.contains(&BRACE) {
        return Ok(Some(Vec::new(alloc)));
    }
    named_in(alloc, text)
}

/// Checks whether two messages have other arguments: other names, or another kind of value. Both
/// are by ascending names.
pub(crate) fn are_other(here: &[Named<'_>], parent: &[Named<'_>]) -> bool {
    if here.len() != parent.len() {
        return true;
    }
    for (a, b) in here.iter().zip(parent) {
        if a.name != b.name || a.kind.is_other(b.kind) {
            return true;
        }
    }
    false
}
