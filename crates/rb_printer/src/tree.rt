ghost use Rattle.std.specs.Prelude.{◌≡◌, ◌+◌, ◌≤◌, [], ◌∷◌, OnOk, IfErr};
ghost use Rattle.rb_grammar.specs.Form.{array_word, table_word};
ghost use Rattle.rb_tree.specs.Resource.{height};
ghost use Rattle.rb_tree.specs.Parts.{kind_of};
ghost use Rattle.rb_tree.specs.declared.kind.Kind.TheVariants as Kinds;
ghost use Rattle.rb_printer.specs.Sign.{signs_chars, left, right, feed};
ghost use Rattle.rb_printer.specs.Page as page;
ghost use Rattle.rb_printer.specs.Page.{indent, gap, type_unless, item_signs, body_signs};
ghost use Rattle.rb_printer.specs.Page.{entries_signs, members_of};
ghost use Rattle.rb_printer.specs.Sound.{IsSound, IsWell};
ghost use Rattle.rb_printer.specs.inner.Growth.{Adds, Exceeds};

use crate::error::PrintError;
use crate::leaf::{put_bytes_of, put_int, put_numbers_of, put_text_of};
use crate::limit::fits_limit;
use crate::line::{fit_item, is_short, put_indent, put_pause, wraps};
use crate::text::{put_key, put_str};
use rb_tree::{Kind, Node};
use std::alloc::AllocError;

/// Checks whether a reader guesses the type of a tree, so that it isn't written.
fn is_guessed<N: Node>(node: N) -> bool
    ensures { result ≡ page.is_guessed (N.tree node) }
{
    match node.kind() {
        Kind::String => true,
        Kind::Array | Kind::Table => node.len() > 0,
        Kind::Int | Kind::Ints | Kind::Binary | Kind::Alias => false,
    }
}

fn put_gap(out: &mut Vec<u8>, guessed: bool) -> Result<(), AllocError>
    ensures { OnOk result (Adds out.old.items out.new.items (signs_chars (gap guessed []))) }
{
    if guessed { put_str(out, " ") } else { Ok(()) }
}

fn begin_array(out: &mut Vec<u8>, guessed: bool) -> Result<(), AllocError>
    ensures { OnOk result (Adds out.old.items out.new.items
        (signs_chars (type_unless guessed array_word (left ∷ [])))) }
{
    if guessed {
        put_str(out, "{")
    } else {
        put_str(out, ":array {")
    }
}

fn begin_table(out: &mut Vec<u8>, guessed: bool) -> Result<(), AllocError>
    ensures { OnOk result (Adds out.old.items out.new.items
        (signs_chars (type_unless guessed table_word (left ∷ feed ∷ [])))) }
{
    if guessed {
        put_str(out, "{\n")
    } else {
        put_str(out, ":table {\n")
    }
}

fn end_braces(out: &mut Vec<u8>, level: usize) -> Result<(), AllocError>
    ensures { OnOk result
        (Adds out.old.items out.new.items (signs_chars (indent level (right ∷ [])))) }
{
    put_indent(out, level)?;
    put_str(out, "}")
}

fn end_array(out: &mut Vec<u8>, level: usize) -> Result<(), AllocError>
    ensures { OnOk result
        (Adds out.old.items out.new.items (signs_chars (feed ∷ indent level (right ∷ [])))) }
{
    put_str(out, "\n")?;
    end_braces(out, level)
}

/// Writes a tree after its key: its type, if it isn't guessed, and braces.
#[cycle(tree)]
fn put_body<N: Node>(out: &mut Vec<u8>, level: usize, node: N) -> Result<(), PrintError>
    requires low { level + height (N.tree node) ≤ 64 }
    requires well { IsWell (N.tree node) }
    ensures adds { OnOk result
        (Adds out.old.items out.new.items (signs_chars (body_signs level (N.tree node) []))) }
    ensures sound { OnOk result (IsSound (N.tree node)) }
    ensures error { IfErr result
        (Exceeds out.old.items (signs_chars (body_signs level (N.tree node) []))) }
{
    match node.kind() {
        Kind::String => {
            put_str(out, "{ ")?;
            put_text_of(out, node)?;
            put_str(out, " }")?;
        }
        Kind::Int => {
            put_str(out, ":int { ")?;
            put_int(out, node.int())?;
            put_str(out, " }")?;
        }
        Kind::Ints => {
            put_str(out, ":intvector {")?;
            let wrapped = wraps(level + 1, node);
            put_numbers_of(out, wrapped, level + 1, node)?;
            put_pause(out, !wrapped, level)?;
            put_str(out, "}")?;
        }
        Kind::Binary => {
            let short = is_short(node);
            put_str(out, ":bin {")?;
            put_pause(out, short, level + 1)?;
            put_bytes_of(out, level + 1, node)?;
            put_pause(out, short, level)?;
            put_str(out, "}")?;
        }
        Kind::Alias => {
            put_str(out, ":alias { ")?;
            put_text_of(out, node)?;
            put_str(out, " }")?;
        }
        Kind::Array => {
            begin_array(out, is_guessed(node))?;
            let mut remaining = 0;
            for i in 0..node.len() {
                let child = node.at(i);
                let fit = fit_item(level + 1, remaining, child);
                put_pause(out, fit.fits, level + 1)?;
                put_item(out, level + 1, child)?;
                put_str(out, ",")?;
                remaining = fit.left;
            }
            end_array(out, level)?;
        }
        Kind::Table => {
            begin_table(out, is_guessed(node))?;
            put_entries(out, level + 1, node)?;
            end_braces(out, level)?;
        }
    }
    Ok(())
}

#[cycle(tree)]
fn put_item<N: Node>(out: &mut Vec<u8>, level: usize, node: N) -> Result<(), PrintError>
    requires low { level + height (N.tree node) ≤ 64 }
    requires well { IsWell (N.tree node) }
    ensures adds { OnOk result (Adds out.old.items out.new.items
        (signs_chars (item_signs (N.tree node) (body_signs level (N.tree node) []) []))) }
    ensures sound { OnOk result (IsSound (N.tree node)) }
    ensures error { IfErr result (Exceeds out.old.items
        (signs_chars (item_signs (N.tree node) (body_signs level (N.tree node) []) []))) }
{
    match node.kind() {
        Kind::String => put_text_of(out, node),
        _ => put_body(out, level, node),
    }
}

/// Writes the entries of a table, each in separate lines.
#[cycle(tree)]
pub fn put_entries<N: Node>(out: &mut Vec<u8>, level: usize, node: N) -> Result<(), PrintError>
    requires table { kind_of (N.tree node) ≡ Kinds.Table }
    requires low { level + height (N.tree node) ≤ 65 }
    requires well { IsWell (N.tree node) }
    ensures adds { OnOk result (Adds out.old.items out.new.items
        (signs_chars (entries_signs level (members_of (N.tree node)) []))) }
    ensures sound { OnOk result (IsSound (N.tree node)) }
    ensures error { IfErr result (Exceeds out.old.items
        (signs_chars (entries_signs level (members_of (N.tree node)) []))) }
{
    for i in 0..node.len() {
        if !fits_limit(out.as_slice().len(), 0) {
            return Err(PrintError::TooLarge);
        }
        put_indent(out, level)?;
        put_key(out, node.key_at(i))?;
        let child = node.at(i);
        put_gap(out, is_guessed(child))?;
        put_body(out, level, child)?;
        put_str(out, "\n")?;
    }
    Ok(())
}
