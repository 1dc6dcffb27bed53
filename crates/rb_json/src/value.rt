//! Trees as JSON in a layout, written piece by piece into an outlet: no text is in memory whole.
ghost use Rattle.std.specs.Prelude.{◌≡◌, ◌+◌, ◌≤◌, ◌∷◌, codes, encode_utf8_all, true};
ghost use Rattle.json.specs.Print.{quoted};
ghost use Rattle.rb_tree.specs.Parts.{HasUnits, children_of, kind_of, pairs_of, units_of};
ghost use Rattle.rb_tree.specs.Resource.{height};
ghost use Rattle.rb_tree.specs.declared.kind.Kind.TheVariants as Kinds;
ghost use Rattle.rb_json.specs.Laid.{laid_at};
ghost use Rattle.rb_json.specs.Leaf.{signed_of, units_data};
ghost use Rattle.rb_json.specs.Printed.{is_within, laid_out};
ghost use Rattle.rb_json.specs.Value.{key_text, leaf_value, tagged, text_or_units, value_of};
ghost use Rattle.rb_json.specs.inner.Lines.{colon, entry_at, tag_end, tag_front, tree_at};
ghost use Rattle.rb_json.specs.inner.Listed.{listed};

use crate::layout::Layout;
use crate::list::{put_end_line, put_line, put_numbers, put_units, skips_items};
use crate::outlet::Outlet;
use crate::spell::{
    is_well_formed, put_latin, spell_bytes, spell_hex, spell_integer, spell_text, spell_units,
};
use crate::units::{RUN, ascii_run};
use rb_tree::{Kind, Node};

fn put_colon<O: Outlet>(out: &mut O, layout: Layout)
    ensures { O.takes out.old out.new (colon layout) }
{
    match layout {
        Layout::Compact => out.put(b":"),
        Layout::Pretty => out.put(b": "),
    }
}

fn put_marked<O: Outlet>(out: &mut O, key: &[u8])
    ensures { O.takes out.old out.new (quoted (encode_utf8_all (58 ∷ key.now))) }
{
    out.put(b"\":");
    put_latin(out, key);
    out.put(b"\"")
}

/// Writes a key as a string, with one more colon if it begins with one.
pub fn put_key<O: Outlet>(out: &mut O, key: &[u8])
    ensures { O.takes out.old out.new (quoted (key_text key.now)) }
{
    if key.first() == Some(&b':') {
        put_marked(out, key)
    } else {
        spell_bytes(out, key)
    }
}

/// Begins an object of one member with a name that no table's key has.
fn begin_tagged<O: Outlet>(out: &mut O, name: &str, layout: Layout, depth: u64)
    requires { depth ≤ 64 }
    ensures { O.takes out.old out.new (tag_front layout depth name.now) }
{
    out.put(b"{");
    put_line(out, layout, depth + 1);
    spell_text(out, name);
    put_colon(out, layout)
}

fn end_tagged<O: Outlet>(out: &mut O, layout: Layout, depth: u64)
    ensures { O.takes out.old out.new (tag_end layout depth) }
{
    put_line(out, layout, depth);
    out.put(b"}")
}

/// Writes a String, of which not even a unit is read if the outlet has no room for one byte for
/// each.
fn put_string<O: Outlet, N: Node>(out: &mut O, node: N, layout: Layout, depth: u64)
    requires string { kind_of (N.tree node) ≡ Kinds.String }
    requires depth { depth ≤ 64 }
    ensures { O.takes out.old out.new (laid_at layout depth (value_of (N.tree node))) }
{
    let len = node.len();
    if out.skips(len as u64) {
        return;
    }
    let mut block = [0; RUN];
    let run = ascii_run(&mut block, node, 0, len);
    if run == len {
        spell_bytes(out, &block[..run]);
        return;
    }
    if is_well_formed(node) {
        spell_units(out, node);
        return;
    }
    begin_tagged(out, ":units", layout, depth);
    put_units(out, node, layout, depth + 1);
    end_tagged(out, layout, depth)
}

/// Writes a text, or its units if it isn't well-formed UTF-16.
fn put_text_or_units<O: Outlet, N: Node>(out: &mut O, node: N, layout: Layout, depth: u64)
    requires units { HasUnits (kind_of (N.tree node)) }
    requires depth { depth ≤ 66 }
    ensures { O.takes out.old out.new
        (laid_at layout depth (text_or_units (units_of (N.tree node)))) }
{
    if is_well_formed(node) {
        spell_units(out, node)
    } else {
        put_units(out, node, layout, depth)
    }
}

/// Returns a number of 28 bits with its sign, like ICU's `ures_getInt`.
pub(crate) fn signed(bits: u32) -> i64
    ensures { result ≡ signed_of bits }
{
    let number = i64::from(bits);
    if number < 1 << 27 {
        number
    } else {
        number - (1 << 28)
    }
}

/// Writes an item inside a number of brackets; of an array or a table the brackets alone.
pub fn put_leaf<O: Outlet, N: Node>(out: &mut O, node: N, layout: Layout, depth: u64)
    requires { depth ≤ 64 }
    ensures { O.takes out.old out.new (laid_at layout depth (leaf_value (N.tree node))) }
{
    match node.kind() {
        Kind::String => put_string(out, node, layout, depth),
        Kind::Int => spell_integer(out, signed(node.int())),
        Kind::Ints => {
            begin_tagged(out, ":intvector", layout, depth);
            put_numbers(out, node, layout, depth + 1);
            end_tagged(out, layout, depth)
        }
        Kind::Binary => {
            begin_tagged(out, ":bin", layout, depth);
            spell_hex(out, node);
            end_tagged(out, layout, depth)
        }
        Kind::Alias => {
            begin_tagged(out, ":alias", layout, depth);
            put_text_or_units(out, node, layout, depth + 1);
            end_tagged(out, layout, depth)
        }
        Kind::Array => out.put(b"[]"),
        Kind::Table => out.put(b"{}"),
    }
}

#[cycle(value)]
fn put_items<O: Outlet, N: Node>(out: &mut O, node: N, layout: Layout, depth: u64)
    requires array { kind_of (N.tree node) ≡ Kinds.Array }
    requires depth { depth + height (N.tree node) ≤ 65 }
    ensures { O.takes out.old out.new (listed (tree_at layout depth) (children_of (N.tree node))) }
{
    for i in 0..node.len() {
        if skips_items(out, i) {
            return;
        }
        put_line(out, layout, depth);
        put_tree(out, node.at(i), layout, depth);
    }
}

#[cycle(value)]
fn put_entries<O: Outlet, N: Node>(out: &mut O, node: N, layout: Layout, depth: u64)
    requires table { kind_of (N.tree node) ≡ Kinds.Table }
    requires depth { depth + height (N.tree node) ≤ 65 }
    ensures { O.takes out.old out.new (listed (entry_at layout depth) (pairs_of (N.tree node))) }
{
    for i in 0..node.len() {
        if skips_items(out, i) {
            return;
        }
        put_line(out, layout, depth);
        put_key(out, node.key_at(i));
        put_colon(out, layout);
        put_tree(out, node.at(i), layout, depth);
    }
}

/// Writes a tree inside a number of brackets.
#[cycle(value)]
fn put_tree<O: Outlet, N: Node>(out: &mut O, node: N, layout: Layout, depth: u64)
    requires { depth + height (N.tree node) ≤ 64 }
    ensures { O.takes out.old out.new (laid_at layout depth (value_of (N.tree node))) }
{
    match node.kind() {
        Kind::Array => {
            out.put(b"[");
            put_items(out, node, layout, depth + 1);
            put_end_line(out, layout, depth, node.len());
            out.put(b"]")
        }
        Kind::Table => {
            out.put(b"{");
            put_entries(out, node, layout, depth + 1);
            put_end_line(out, layout, depth, node.len());
            out.put(b"}")
        }
        _ => put_leaf(out, node, layout, depth),
    }
}

/// Writes a whole item as one JSON value, in a form of this project: a table as an object with its
/// keys ascending, an array as an array, a String as a string, an Int as its signed number; an
/// Alias as `{":alias":".."}`, a Binary as `{":bin":"00ff"}`, a vector as `{":intvector":[..]}`,
/// and a String that isn't well-formed UTF-16 as `{":units":[..]}`. A key that begins with a colon
/// has one more. Aliases are not followed. It takes no memory, with one call for each bracket.
///
/// ```rust
/// put_value(out, &tree, Layout::Compact) // {"a":"x","b":5,"c":{":alias":"/LOCALE/a"}}
/// ```
pub fn put_value<O: Outlet, N: Node>(out: &mut O, node: N, layout: Layout)
    requires { is_within (N.tree node) ≡ true }
    ensures { O.takes out.old out.new (laid_out layout (value_of (N.tree node))) }
{
    put_tree(out, node, layout, 0)
}
