ghost use Rattle.std.specs.Prelude.{◌≡◌, ◌<◌, ◌+◌, ◌^◌, ℕ, List, drop, [], ◌∷◌, ◌++◌, true, false};
ghost use Rattle.std.specs.Prelude.{length, ◌≤◌, OnOk, IfOk, IfErr, ◌/◌, ◌%◌};
ghost use Rattle.std.specs.Char.{digit_char};
ghost use Rattle.std.specs.List.{AllByRecursion};
ghost use Rattle.std.specs.Fmt.{decimal, signed_decimal};
ghost use Rattle.rb_tree.specs.Parts.{HasUnits, kind_of, len_of, units_of, numbers_of, bytes_of};
ghost use Rattle.rb_tree.specs.Parts.{int_of};
ghost use Rattle.rb_tree.specs.declared.kind.Kind.TheVariants as Kinds;
ghost use Rattle.rb_printer.specs.Sign.{first_unit, unit_chars, pieces, sign_chars, signs_chars};
ghost use Rattle.rb_printer.specs.Sign.{text_chars, text, right};
ghost use Rattle.rb_printer.specs.Page.{hex_first, hex_later, numbers_signs, comma_if};
ghost use Rattle.rb_printer.specs.Sound.{AreUnits, AreBytes, IsNumber};
ghost use Rattle.rb_printer.specs.inner.Growth.{Adds, Exceeds, after_break, break_chars};
ghost use Rattle.rb_printer.specs.inner.Run.{IsRun};

use crate::error::PrintError;
use crate::limit::fits_limit;
use crate::line::{number_fits, put_indent, put_pause, remaining_after};
use crate::text::{digit_char, is_high, is_plain, put, put_other, put_str, shown};
use rb_tree::Node;
use std::alloc::AllocError;

pub fn next_of<N: Node>(node: N, i: usize) -> Option<u16>
    requires units { HasUnits (kind_of (N.tree node)) }
    requires in_range { i < len_of (N.tree node) }
    ensures { result ≡ first_unit (drop (i + 1) (units_of (N.tree node))) }
{
    let len = node.len();
    if i + 1 < len {
        Some(node.unit(i + 1))
    } else {
        None
    }
}

#[inline(always)]
fn put_unit_of<N: Node>(
    out: &mut Vec<u8>,
    after_high: bool,
    unit: u16,
    node: N,
    i: usize,
) -> Result<(), AllocError>
    requires units { HasUnits (kind_of (N.tree node)) }
    requires in_range { i < len_of (N.tree node) }
    ensures { OnOk result (Adds out.old.items out.new.items
        (unit_chars after_high unit (first_unit (drop (i + 1) (units_of (N.tree node)))))) }
{
    match shown(unit) {
        Some(c) => put(out, c),
        None => put_other(out, after_high, unit, next_of(node, i)),
    }
}

/// The maximum number of plain units written at a time.
const RUN: usize = 32;

/// Copies the plain units from an index on into a block, a byte each. Returns how many they are.
#[inline(always)]
fn plain_run<N: Node>(block: &mut [u8; RUN], node: N, at: usize, len: usize) -> usize
    requires units { HasUnits (kind_of (N.tree node)) }
    requires len { len ≡ len_of (N.tree node) }
    requires in_range { at ≤ len }
    ensures bound { (result ≤ 32) × (at + result ≤ len) }
    ensures run { IsRun block.new (units_of (N.tree node)) at result }
{
    let most = RUN.min(len - at);
    for i in 0..most {
        let unit = node.unit(at + i);
        if !is_plain(unit) {
            return i;
        }
        block[i] = unit as u8;
    }
    most
}

/// Writes the text of a String or an Alias, with quotes.
fn put_units_of<N: Node>(out: &mut Vec<u8>, node: N) -> Result<(), AllocError>
    requires { HasUnits (kind_of (N.tree node)) }
    ensures adds { OnOk result
        (Adds out.old.items out.new.items (text_chars false (units_of (N.tree node)))) }
    ensures sound { OnOk result (AreUnits (units_of (N.tree node))) }
{
    put(out, '"')?;
    let len = node.len();
    let mut block = [0; RUN];
    let mut after_high = false;
    let mut at = 0;
    while at < len {
        let run = plain_run(&mut block, node, at, len);
        if run > 0 {
            out.extend_from_slice(&block[..run])?;
            after_high = false;
            at += run;
            continue;
        }
        let unit = node.unit(at);
        put_unit_of(out, after_high, unit, node, at)?;
        after_high = is_high(unit);
        at += 1;
    }
    put(out, '"')
}

/// Writes the text of a String or an Alias, or fails with `TooLarge` if it can't fit.
pub fn put_text_of<N: Node>(out: &mut Vec<u8>, node: N) -> Result<(), PrintError>
    requires { HasUnits (kind_of (N.tree node)) }
    ensures adds { OnOk result
        (Adds out.old.items out.new.items (text_chars false (units_of (N.tree node)))) }
    ensures sound { OnOk result (AreUnits (units_of (N.tree node))) }
    ensures error { IfErr result
        (Exceeds out.old.items (text_chars false (units_of (N.tree node)))) }
{
    if !fits_limit(out.as_slice().len(), node.len()) {
        return Err(PrintError::TooLarge);
    }
    put_units_of(out, node)?;
    Ok(())
}

fn put_byte(out: &mut Vec<u8>, byte: u8) -> Result<(), AllocError>
    ensures { OnOk result
        (Adds out.old.items out.new.items (digit_char (byte / 16) ∷ digit_char (byte % 16) ∷ [])) }
{
    put(out, digit_char(byte as u16 / 16))?;
    put(out, digit_char(byte as u16 % 16))
}

/// Begins a new piece if the current one, at a level, is full. Returns how many more bytes fit
/// after the next.
fn put_break(out: &mut Vec<u8>, level: usize, remaining: usize) -> Result<usize, AllocError>
    ensures adds { OnOk result (Adds out.old.items out.new.items (break_chars remaining level)) }
    ensures remaining { IfOk result (λ more. more ≡ after_break remaining) }
{
    if remaining > 0 {
        return Ok(remaining - 1);
    }
    put_str(out, "\"\n")?;
    put_indent(out, level)?;
    put(out, '"')?;
    Ok(31)
}

/// Writes the bytes of a Binary, with quotes: 32 a piece, each piece after the first in a new line.
pub fn put_bytes_of<N: Node>(out: &mut Vec<u8>, level: usize, node: N) -> Result<(), AllocError>
    requires { kind_of (N.tree node) ≡ Kinds.Binary }
    ensures adds { OnOk result (Adds out.old.items out.new.items
        (sign_chars (pieces level (hex_first (bytes_of (N.tree node)) 32)
        (hex_later (bytes_of (N.tree node)) 32)))) }
    ensures sound { OnOk result (AreBytes (bytes_of (N.tree node))) }
{
    put(out, '"')?;
    let mut remaining = 32;
    for i in 0..node.len() {
        remaining = put_break(out, level, remaining)?;
        put_byte(out, node.byte(i))?;
    }
    put(out, '"')
}

pub fn put_int(out: &mut Vec<u8>, number: u32) -> Result<(), AllocError>
    ensures { OnOk result (Adds out.old.items out.new.items (decimal number)) }
{
    let mut buffer = itoa::Buffer::new();
    out.extend_from_slice(buffer.format(number).as_bytes())
}

fn put_number(out: &mut Vec<u8>, number: i32) -> Result<(), AllocError>
    ensures { OnOk result (Adds out.old.items out.new.items (signed_decimal number)) }
{
    let mut buffer = itoa::Buffer::new();
    out.extend_from_slice(buffer.format(number).as_bytes())
}

/// Writes a signed number and returns its width.
fn put_wide(out: &mut Vec<u8>, number: i32) -> Result<usize, AllocError>
    ensures adds { OnOk result (Adds out.old.items out.new.items (signed_decimal number)) }
    ensures width { IfOk result (λ width. width ≡ length (signed_decimal number)) }
{
    let start = out.as_slice().len();
    put_number(out, number)?;
    Ok(out.as_slice().len() - start)
}

fn put_comma(out: &mut Vec<u8>, more: bool) -> Result<(), AllocError>
    ensures { OnOk result (Adds out.old.items out.new.items (signs_chars (comma_if more []))) }
{
    if more { put(out, ',') } else { Ok(()) }
}

/// Writes the numbers of a vector, each after a space or in a new line, with commas between them.
pub fn put_numbers_of<N: Node>(
    out: &mut Vec<u8>,
    wrapped: bool,
    level: usize,
    node: N,
) -> Result<(), AllocError>
    requires ints { kind_of (N.tree node) ≡ Kinds.Ints }
    requires low { level ≤ 65 }
    ensures adds { OnOk result (Adds out.old.items out.new.items
        (signs_chars (numbers_signs (numbers_of (N.tree node)) wrapped level 0 []))) }
    ensures sound { OnOk result (AllByRecursion IsNumber (numbers_of (N.tree node))) }
{
    let mut remaining = 0;
    for i in 0..node.len() {
        let fits = number_fits(wrapped, remaining);
        put_pause(out, fits, level)?;
        let width = put_wide(out, node.number(i))?;
        put_comma(out, i + 1 < node.len())?;
        remaining = remaining_after(fits, level, remaining, width);
    }
    Ok(())
}
