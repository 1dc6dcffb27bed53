//! Lists of numbers as JSON in a layout, and what is between the values of any list.
ghost use Rattle.std.specs.Prelude.{◌≡◌, ◌+◌, ◌*◌, ◌≤◌, replicate};
ghost use Rattle.serde_json.specs.Data.{number, unsigned};
ghost use Rattle.serde_json.specs.Find.{of_integer};
ghost use Rattle.rb_tree.specs.Parts.{HasUnits, kind_of, numbers_of, units_of};
ghost use Rattle.rb_tree.specs.declared.kind.Kind.TheVariants as Kinds;
ghost use Rattle.rb_json.specs.Laid.{laid_at};
ghost use Rattle.rb_json.specs.Leaf.{numbers_data, units_data};
ghost use Rattle.rb_json.specs.Parts.{SkipsItems, comma_before};
ghost use Rattle.rb_json.specs.inner.Lines.{end_line, item_at, line_at};
ghost use Rattle.rb_json.specs.inner.Listed.{listed};

use crate::layout::Layout;
use crate::outlet::Outlet;
use crate::spell::{spell_integer, spell_unsigned};
use rb_tree::Node;

/// Writes a comma before any item of an array except the first.
fn put_item_comma<O: Outlet>(out: &mut O, i: usize)
    ensures { O.takes out.old out.new (comma_before i) }
{
    if i > 0 {
        out.put(b",")
    }
}

/// Returns true if the outlet needs no more items of an array. If not, the next item may follow:
/// the comma before it is written.
pub fn skips_items<O: Outlet>(out: &mut O, i: usize) -> bool
    ensures { SkipsItems (O.takes out.old out.new) i result }
{
    if out.skips(0) {
        return true;
    }
    put_item_comma(out, i);
    false
}

fn put_indent<O: Outlet>(out: &mut O, depth: u64)
    ensures { O.takes out.old out.new (replicate (2 * depth) 32) }
{
    for _step in 0..depth {
        out.put(b"  ");
    }
}

/// Begins a line inside a number of brackets, in the layout that has lines.
#[inline(always)]
pub(crate) fn put_line<O: Outlet>(out: &mut O, layout: Layout, depth: u64)
    ensures { O.takes out.old out.new (line_at layout depth) }
{
    match layout {
        Layout::Compact => {}
        Layout::Pretty => {
            out.put(b"\n");
            put_indent(out, depth)
        }
    }
}

/// Begins the line of a closing bracket after some values; after none it has no line.
#[tactic(auto, using(crate::proofs::Laid::some_lines, crate::proofs::Laid::no_lines))]
pub(crate) fn put_end_line<O: Outlet>(out: &mut O, layout: Layout, depth: u64, count: usize)
    ensures { O.takes out.old out.new (end_line layout depth count) }
{
    if count > 0 {
        put_line(out, layout, depth)
    }
}

fn put_unit_items<O: Outlet, N: Node>(out: &mut O, node: N, layout: Layout, depth: u64)
    requires { HasUnits (kind_of (N.tree node)) }
    ensures { O.takes out.old out.new
        (listed (λ u. item_at layout depth (number (unsigned u))) (units_of (N.tree node))) }
{
    let len = node.len();
    for i in 0..len {
        if skips_items(out, i) {
            return;
        }
        put_line(out, layout, depth);
        spell_unsigned(out, u64::from(node.unit(i)));
    }
}

/// Writes the units of a text as numbers.
pub(crate) fn put_units<O: Outlet, N: Node>(out: &mut O, node: N, layout: Layout, depth: u64)
    requires units { HasUnits (kind_of (N.tree node)) }
    requires depth { depth ≤ 66 }
    ensures { O.takes out.old out.new (laid_at layout depth (units_data (units_of (N.tree node)))) }
{
    out.put(b"[");
    put_unit_items(out, node, layout, depth + 1);
    put_end_line(out, layout, depth, node.len());
    out.put(b"]")
}

fn put_number_items<O: Outlet, N: Node>(out: &mut O, node: N, layout: Layout, depth: u64)
    requires { kind_of (N.tree node) ≡ Kinds.Ints }
    ensures { O.takes out.old out.new
        (listed (λ z. item_at layout depth (number (of_integer z))) (numbers_of (N.tree node))) }
{
    let len = node.len();
    for i in 0..len {
        if skips_items(out, i) {
            return;
        }
        put_line(out, layout, depth);
        spell_integer(out, i64::from(node.number(i)));
    }
}

/// Writes the numbers of a vector.
pub(crate) fn put_numbers<O: Outlet, N: Node>(out: &mut O, node: N, layout: Layout, depth: u64)
    requires ints { kind_of (N.tree node) ≡ Kinds.Ints }
    requires depth { depth ≤ 66 }
    ensures { O.takes out.old out.new
        (laid_at layout depth (numbers_data (numbers_of (N.tree node)))) }
{
    out.put(b"[");
    put_number_items(out, node, layout, depth + 1);
    put_end_line(out, layout, depth, node.len());
    out.put(b"]")
}
