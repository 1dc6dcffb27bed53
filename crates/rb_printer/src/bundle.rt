ghost use Rattle.std.specs.Prelude.{◌≡◌, ◌<◌, [], ◌∷◌, length, IfOk, IfErr, OnOk};
ghost use Rattle.rb_tree.specs.Parts.{kind_of};
ghost use Rattle.rb_printer.specs.Sign.{signs_chars, left, feed};
ghost use Rattle.rb_format.specs.File.{source_tree_of};
ghost use Rattle.rb_printer.specs.Page.{page, head_signs, members_of, page_bytes};
ghost use Rattle.rb_printer.specs.Sound.{AreUnits, IsSound, IsBundleTree};
ghost use Rattle.rb_printer.specs.inner.Growth.{Adds, Exceeds};
ghost use Rattle.rb_printer.specs.Whole.{IsBundleText};
ghost use Rattle.rb_printer.specs.declared.error.PrintError.TheVariants as errors;
ghost use Rattle.rb_lexer.specs.Limits.{source_limit};

use crate::budget::charge_entries;
use crate::error::PrintError;
use crate::limit::{LENGTH_LIMIT, fits_limit};
use crate::text::{put_name, put_str};
use crate::tree::put_entries;
use rb_tree::{Node, UnitList};
use rb_validator::Bundle;
use rb_views::root;
use std::alloc::{AllocError, Global};

fn begin_bundle(out: &mut Vec<u8>, no_fallback: bool) -> Result<(), AllocError>
    ensures { OnOk result (Adds out.old.items out.new.items
        (signs_chars (head_signs no_fallback (left ∷ feed ∷ [])))) }
{
    if no_fallback {
        put_str(out, ":table(nofallback) {\n")
    } else {
        put_str(out, " {\n")
    }
}

fn put_page<N: Node>(
    out: &mut Vec<u8>,
    name: &[u16],
    root: N,
    no_fallback: bool,
) -> Result<(), PrintError>
    requires { IsBundleTree (N.tree root) }
    ensures adds { OnOk result (Adds out.old.items out.new.items
        (signs_chars (page name.now no_fallback (members_of (N.tree root))))) }
    ensures sound { OnOk result (IsSound (N.tree root)) }
    ensures units { OnOk result (AreUnits name.now) }
    ensures error { IfErr result (Exceeds out.old.items
        (signs_chars (page name.now no_fallback (members_of (N.tree root))))) }
{
    put_name(out, name)?;
    begin_bundle(out, no_fallback)?;
    put_entries(out, 1, root)?;
    put_str(out, "}\n")?;
    Ok(())
}

/// Prints a tree, with a guess at the length of its keys and texts. The guess changes no byte, but
/// a low one makes the buffer grow more often.
fn print_expecting<N: Node>(
    alloc: Global,
    name: &UnitList,
    root: N,
    no_fallback: bool,
    expected: usize,
) -> Result<Vec<u8>, PrintError>
    requires { IsBundleTree (N.tree root) }
    ensures error { IfErr result (λ e. e ≡ errors.TooLarge → source_limit
        < length (page_bytes name.now (record { tree = N.tree root; no_fallback = no_fallback }))) }
    ensures text { IfOk result (λ bytes. IsBundleText bytes.items name.now
        (record { tree = N.tree root; no_fallback = no_fallback })) }
{
    let Some(left) = charge_entries(LENGTH_LIMIT, 1, root) else {
        return Err(PrintError::TooLarge);
    };
    let capacity = LENGTH_LIMIT - left.saturating_sub(expected);
    let mut bytes = Vec::with_capacity(alloc, capacity)?;
    put_page(&mut bytes, name.as_slice(), root, no_fallback)?;
    if !fits_limit(bytes.as_slice().len(), 0) {
        return Err(PrintError::TooLarge);
    }
    Ok(bytes)
}

/// Prints a file as a bundle text under a name, since a file has none. `parse` reads the name, the
/// tree and the flag back. Files of equal trees give equal bytes.
///
/// Each entry of a table has its own lines, indented by four spaces a level. The strings of an
/// array, and the numbers of a vector of more than four, share lines of at most 100 columns; a line
/// has 32 bytes of a Binary. A key or a name of letters, digits, `_` and `-` has no quotes. A type
/// is written if a reader wouldn't guess it: `:int`, `:intvector`, `:bin`, `:alias`, and `:array`
/// and `:table` of empty ones. Texts are UTF-8, with a backslash before quotes and backslashes, `\n`
/// and `\t`, and escapes of four digits for other control characters, lone surrogates, U+2028,
/// U+2029, controls of the writing direction and U+FEFF.
///
/// # Errors
///
/// Returns `TooLarge` if the text would exceed 8,388,608 bytes, as that of each tree above the
/// limit of weight does. If it exceeds them without its keys, Strings and Aliases, this is found
/// before anything is written, and else as soon as the text does. Returns `Memory` when out of
/// memory.
///
/// ```rust
/// print_bundle(alloc, &name, &accept(alloc, file)?)? // `root {`, a line feed, `}` and a line feed for `root{}`
/// ```
pub fn print_bundle(alloc: Global, name: &UnitList, bundle: &Bundle) -> Result<Vec<u8>, PrintError>
    ensures text { IfOk result
        (λ bytes. IsBundleText bytes.items name.now (source_tree_of bundle.now)) }
{
    // A text is about as long as its file and the frame.
    let expected = bundle.bytes().len();
    print_expecting(alloc, name, root(bundle), bundle.no_fallback(), expected)
}
