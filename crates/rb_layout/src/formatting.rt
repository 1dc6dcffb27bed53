ghost use Rattle.std.specs.Prelude.{◌≡◌, IfOk, IfErr, true};
ghost use Rattle.rb_layout.specs.Formatted.{SpellSame, SpellOne, IsOwnFault, IsFaultOf};

use crate::comments::have_same_comments;
use crate::fault::FormatFault;
use crate::layout::lay_out;
use crate::style::Style;
use crate::tokens::have_same_marks;
use rb_lexer::{SourceFault, SourceKind, Tokens};
use rb_parser::parse;
use std::alloc::Global;

/// Returns the error of two texts whose tokens can't be compared.
fn not_compared(fault: SourceFault) -> FormatFault
    ensures { IsOwnFault result }
{
    match fault.kind {
        SourceKind::Memory => FormatFault::Memory,
        _ => FormatFault::Differs,
    }
}

/// Checks whether two texts have the same tokens.
fn have_same_tokens(alloc: Global, old: &[u8], new: &[u8]) -> Result<bool, FormatFault>
    ensures same { IfOk result (λ same. same ≡ true → SpellSame old.now new.now) }
    ensures error { IfErr result IsOwnFault }
{
    let mut olds = match Tokens::of(alloc, old) {
        Ok(olds) => olds,
        Err(fault) => return Err(not_compared(fault)),
    };
    let mut news = match Tokens::of(alloc, new) {
        Ok(news) => news,
        Err(fault) => return Err(not_compared(fault)),
    };
    match have_same_marks(&mut olds, &mut news) {
        Ok(is_same) => Ok(is_same),
        Err(_) => Err(FormatFault::Memory),
    }
}

/// Formats a bundle text in a style. The formatted text spells the same name, tree and flag, as it
/// has the same tokens in the same order; its comments are the same in the same order. Only white
/// space changes: outside of quoted pieces and comments, and at the end of a line comment.
///
/// # Errors
///
/// Returns `Refused` with the error of the text that `parse` finds. Returns `TooLarge` if the
/// formatted text would have more bytes than a source may have, `Differs` if it would have other
/// tokens or comments, and `Memory` when out of memory.
pub fn format_in(alloc: Global, text: &[u8], style: Style) -> Result<Vec<u8>, FormatFault>
    ensures tokens { IfOk result (λ formatted. SpellSame text.now formatted.items) }
    ensures bundle { IfOk result (λ formatted. SpellOne text.now formatted.items) }
    ensures error { IfErr result (IsFaultOf text.now) }
{
    let source = parse(alloc, text)?;
    drop(source);
    let formatted = lay_out(alloc, text, style)?;
    if formatted.as_slice() == text {
        return Ok(formatted);
    }
    let is_same = have_same_tokens(alloc, text, &formatted)?;
    if !is_same || !have_same_comments(text, &formatted) {
        return Err(FormatFault::Differs);
    }
    Ok(formatted)
}

/// Formats a bundle text in the standard style, as `format_in` does.
///
/// ```rust
/// format(alloc, b"de{menu{open{\"O\"}}}")? // five lines: `de {`, `    menu {`, ..
/// ```
pub fn format(alloc: Global, text: &[u8]) -> Result<Vec<u8>, FormatFault>
    ensures tokens { IfOk result (λ formatted. SpellSame text.now formatted.items) }
    ensures bundle { IfOk result (λ formatted. SpellOne text.now formatted.items) }
    ensures error { IfErr result (IsFaultOf text.now) }
{
    format_in(alloc, text, Style::standard())
}
