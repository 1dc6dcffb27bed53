ghost use Rattle.std.specs.Prelude.{◌≡◌, ◌≤◌, ◌<◌, ◌+◌, false, [], length, drop, OnOk};
ghost use Rattle.rb_tree.specs.Parts.{HasUnits, kind_of, len_of, units_of, numbers_of, bytes_of};
ghost use Rattle.rb_tree.specs.declared.kind.Kind.TheVariants as Kinds;
ghost use Rattle.rb_printer.specs.Sign.{first_unit, signs_chars, unit_chars};
ghost use Rattle.rb_printer.specs.Page as page;
ghost use Rattle.rb_printer.specs.Sign as Signs;
ghost use Rattle.rb_printer.specs.Page.{indent, pause};
ghost use Rattle.rb_printer.specs.inner.Growth.{Adds};

use crate::leaf::next_of;
use crate::text::{has_letter, is_high, is_low, is_plain, is_shown, paired, put, put_str};
use rb_tree::{Kind, Node};
use std::alloc::AllocError;

/// The columns of a line.
const LINE: usize = 100;

/// The deepest level at which items share lines.
pub const DEEPEST: usize = 12;

/// The levels whose spaces are written at once.
const LEVELS: usize = 16;

static SPACES: [u8; 4 * LEVELS] = [0x20; 4 * LEVELS];

/// Writes four spaces for each level.
pub fn put_indent(out: &mut Vec<u8>, level: usize) -> Result<(), AllocError>
    ensures { OnOk result (Adds out.old.items out.new.items (signs_chars (indent level []))) }
{
    let mut left = level;
    while left > 0 {
        let levels = left.min(LEVELS);
        out.extend_from_slice(&SPACES[..4 * levels])?;
        left -= levels;
    }
    Ok(())
}

#[inline(never)]
fn begin_line(out: &mut Vec<u8>, level: usize) -> Result<(), AllocError>
    ensures { OnOk result (Adds out.old.items out.new.items (signs_chars (pause false level []))) }
{
    put_str(out, "\n")?;
    put_indent(out, level)
}

/// Writes the gap before an item: a space, or a new line and its indentation.
#[inline(always)]
pub fn put_pause(out: &mut Vec<u8>, fits: bool, level: usize) -> Result<(), AllocError>
    ensures { OnOk result (Adds out.old.items out.new.items (signs_chars (pause fits level []))) }
{
    if fits {
        put(out, ' ')
    } else {
        begin_line(out, level)
    }
}

/// Returns the remaining columns after an item of a width, which follows a space or begins a new
/// line, and a comma.
pub fn remaining_after(fits: bool, level: usize, remaining: usize, width: usize) -> usize
    requires { level ≤ 65 }
    ensures { result ≡ page.remaining_after fits level remaining width }
{
    if fits {
        remaining.saturating_sub(width).saturating_sub(2)
    } else {
        LINE.saturating_sub(4 * level)
            .saturating_sub(width)
            .saturating_sub(1)
    }
}

/// Checks whether a vector's numbers, at a level, get separate lines.
pub fn wraps<N: Node>(level: usize, node: N) -> bool
    requires { kind_of (N.tree node) ≡ Kinds.Ints }
    ensures { result ≡ page.wraps level (numbers_of (N.tree node)) }
{
    4 < node.len() && level <= DEEPEST
}

/// Checks whether the bytes of a Binary need no separate lines.
pub fn is_short<N: Node>(node: N) -> bool
    requires { kind_of (N.tree node) ≡ Kinds.Binary }
    ensures { result ≡ page.is_short (bytes_of (N.tree node)) }
{
    node.len() <= 32
}

/// Checks whether the current line takes another number.
pub fn number_fits(wrapped: bool, remaining: usize) -> bool
    ensures { result ≡ page.number_fits wrapped remaining }
{
    !wrapped || 13 <= remaining
}

/// Returns the columns of a unit that is escaped or part of a surrogate pair.
#[inline(never)]
fn other_width(after_high: bool, unit: u16, next: Option<u16>) -> usize
    requires { Signs.is_shown unit ≡ false }
    ensures width { result ≡ length (unit_chars after_high unit next) }
    ensures bound { result ≤ 6 }
{
    if paired(unit, next).is_some() {
        return 1;
    }
    if after_high && is_low(unit) {
        return 0;
    }
    if has_letter(unit) { 2 } else { 6 }
}

#[inline(always)]
fn width_of<N: Node>(after_high: bool, unit: u16, node: N, i: usize) -> usize
    requires units { HasUnits (kind_of (N.tree node)) }
    requires in_range { i < len_of (N.tree node) }
    ensures width { result
        ≡ length (unit_chars after_high unit (first_unit (drop (i + 1) (units_of (N.tree node))))) }
    ensures bound { result ≤ 6 }
{
    if is_plain(unit) || is_shown(unit) {
        1
    } else {
        other_width(after_high, unit, next_of(node, i))
    }
}

/// Returns the columns of a text with its quotes, at most those of a line.
pub fn text_width<N: Node>(node: N) -> usize
    requires { HasUnits (kind_of (N.tree node)) }
    ensures { result ≡ page.text_width (units_of (N.tree node)) }
{
    let mut width = 2;
    let mut after_high = false;
    for i in 0..node.len() {
        let unit = node.unit(i);
        width += width_of(after_high, unit, node, i);
        if LINE <= width {
            return LINE;
        }
        after_high = is_high(unit);
    }
    width
}

/// The fit of an item into the current line, and the remaining columns after it.
#[derive(Clone, Copy)]
pub struct ItemFit {
    pub fits: bool,
    pub left: usize,
}

/// Fits an item of an array into a line with this many remaining columns.
pub fn fit_item<N: Node>(level: usize, remaining: usize, node: N) -> ItemFit
    requires { level ≤ 65 }
    ensures fits { result.fits ≡ page.item_fits level remaining (N.tree node) }
    ensures left { result.left ≡ page.remaining_after_item level remaining (N.tree node) }
{
    if node.kind() != Kind::String {
        return ItemFit {
            fits: false,
            left: 0,
        };
    }
    let width = text_width(node);
    let fits = level <= DEEPEST && width + 2 <= remaining;
    ItemFit {
        fits,
        left: remaining_after(fits, level, remaining, width),
    }
}
