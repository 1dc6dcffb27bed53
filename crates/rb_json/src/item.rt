//! Items as JSON, written piece by piece into an outlet: no text is in memory whole.
ghost use Rattle.std.specs.Prelude.{◌≡◌, Some, codes, encode_utf8_all, false, true};
ghost use Rattle.std.specs.Prelude.{IfOk, IfSome, option_map, string_bytes};
ghost use Rattle.std.specs.Char.Utf16.{has_unpaired_surrogate, utf16_lossy_chars};
ghost use Rattle.std.specs.Map.{keys_of};
ghost use Rattle.json.specs.Print.{escape, quoted};
ghost use Rattle.serde_json.specs.Data.{put, string};
ghost use Rattle.serde_json.specs.Written.{comma_if, compact_text};
ghost use Rattle.rb_tree.specs.Path.{IsPath};
ghost use Rattle.rb_tree.specs.Parts.{HasUnits, kind_of, pairs_of, units_of};
ghost use Rattle.rb_tree.specs.declared.kind.Kind.TheVariants as Kinds;
ghost use Rattle.rb_tree.specs.Resource.{int};
ghost use Rattle.rb_json.specs.Item.{found_data, item_data, item_members, of_type};
ghost use Rattle.rb_json.specs.Item.{texts_data, units_data, with_text};
ghost use Rattle.rb_json.specs.inner.Listed.{listed};
ghost use Rattle.rb_json.specs.Parts.{name_text, rest_text, valid_text};

use crate::buffer::Buffer;
use crate::layout::Layout;
use crate::list::{put_numbers, put_units, skips_items};
use crate::outlet::Outlet;
use crate::spell::{
    is_well_formed, plain_run, put_latin, put_runs, spell_bytes, spell_hex, spell_integer,
    spell_text, spell_units, spell_unsigned,
};
use crate::units::RUN;
use crate::value::signed;
use rb_tree::{Kind, Node};
use std::alloc::{AllocError, Global};

fn put_key_items<O: Outlet, N: Node>(out: &mut O, node: N)
    requires { kind_of (N.tree node) ≡ Kinds.Table }
    ensures { O.takes out.old out.new
        (listed (λ k. quoted (encode_utf8_all k)) (keys_of (pairs_of (N.tree node)))) }
{
    let len = node.len();
    for i in 0..len {
        if skips_items(out, i) {
            return;
        }
        spell_bytes(out, node.key_at(i));
    }
}

fn put_keys<O: Outlet, N: Node>(out: &mut O, node: N)
    requires { kind_of (N.tree node) ≡ Kinds.Table }
    ensures { O.takes out.old out.new
        (compact_text (texts_data (keys_of (pairs_of (N.tree node))))) }
{
    out.put(b"[");
    put_key_items(out, node);
    out.put(b"]")
}

fn put_comma_if<O: Outlet>(out: &mut O, later: bool)
    ensures { O.takes out.old out.new (comma_if later) }
{
    if later {
        out.put(b",")
    }
}

fn put_member_name<O: Outlet>(out: &mut O, name: &str)
    ensures { O.takes out.old out.new (name_text false name.now) }
{
    spell_text(out, name);
    out.put(b":")
}

/// Writes a member's name, after a comma if other members precede it.
pub fn put_name<O: Outlet>(out: &mut O, later: bool, name: &str)
    ensures { O.takes out.old out.new (name_text later name.now) }
{
    put_comma_if(out, later);
    put_member_name(out, name)
}

fn put_valid<O: Outlet>(out: &mut O, valid: Option<&[u8]>)
    ensures { O.takes out.old out.new (valid_text (option_map (λ v. v.now) valid.entry)) }
{
    match valid {
        Some(valid) => {
            put_name(out, true, "valid");
            spell_bytes(out, valid)
        }
        None => {}
    }
}

/// Writes the members of a text, by its characters or else its units. Not even a unit is read if
/// the outlet has no room for one byte for each.
fn put_text<O: Outlet, N: Node>(out: &mut O, later: bool, node: N, word: &str, valid: Option<&[u8]>)
    requires { HasUnits (kind_of (N.tree node)) }
    ensures { O.takes out.old out.new (rest_text later (option_map (λ v. v.now) valid.entry)
        (with_text (units_of (N.tree node)) (of_type word.now))) }
{
    if out.skips(node.len() as u64) {
        return;
    }
    put_name(out, later, "type");
    spell_text(out, word);
    if is_well_formed(node) {
        put_valid(out, valid);
        put_name(out, true, "value");
        spell_units(out, node);
        out.put(b"}")
    } else {
        put_name(out, true, "units");
        put_units(out, node, Layout::Compact, 0);
        put_valid(out, valid);
        out.put(b"}")
    }
}

/// Writes the last members of an item whose own precede its type, and the closing brace.
fn put_type_last<O: Outlet>(out: &mut O, word: &str, valid: Option<&[u8]>)
    ensures { O.takes out.old out.new
        (rest_text true (option_map (λ v. v.now) valid.entry) (of_type word.now)) }
{
    put_name(out, true, "type");
    spell_text(out, word);
    put_valid(out, valid);
    out.put(b"}")
}

fn put_int<O: Outlet>(out: &mut O, later: bool, bits: u32, valid: Option<&[u8]>)
    ensures { O.takes out.old out.new
        (rest_text later (option_map (λ v. v.now) valid.entry) (item_members (int bits))) }
{
    put_name(out, later, "signed");
    spell_integer(out, signed(bits));
    put_name(out, true, "type");
    spell_text(out, "int");
    put_name(out, true, "unsigned");
    spell_unsigned(out, u64::from(bits));
    put_valid(out, valid);
    out.put(b"}")
}

/// Writes the members of an item ascending, with `valid` if it is given, and the closing brace.
fn put_members<O: Outlet, N: Node>(out: &mut O, later: bool, node: N, valid: Option<&[u8]>)
    ensures { O.takes out.old out.new
        (rest_text later (option_map (λ v. v.now) valid.entry) (item_members (N.tree node))) }
{
    match node.kind() {
        Kind::String => put_text(out, later, node, "string", valid),
        Kind::Int => put_int(out, later, node.int(), valid),
        Kind::Ints => {
            put_name(out, later, "type");
            spell_text(out, "intvector");
            put_valid(out, valid);
            put_name(out, true, "values");
            put_numbers(out, node, Layout::Compact, 0);
            out.put(b"}")
        }
        Kind::Binary => {
            put_name(out, later, "hex");
            spell_hex(out, node);
            put_type_last(out, "bin", valid)
        }
        Kind::Alias => put_text(out, later, node, "alias", valid),
        Kind::Array => {
            put_name(out, later, "len");
            spell_unsigned(out, node.len() as u64);
            put_type_last(out, "array", valid)
        }
        Kind::Table => {
            put_name(out, later, "keys");
            put_keys(out, node);
            put_type_last(out, "table", valid)
        }
    }
}

/// Writes an item that was found, member by member.
fn put_found_members<O: Outlet, N: Node>(out: &mut O, actual: &[u8], valid: &[u8], node: N)
    ensures { O.takes out.old out.new
        (compact_text (found_data actual.now valid.now (N.tree node))) }
{
    out.put(b"{\"actual\":");
    spell_bytes(out, actual);
    put_members(out, true, node, Some(valid))
}

/// Writes the characters of a String: those in `plain`, if they are given, in one piece.
#[inline(always)]
fn put_characters<O: Outlet, N: Node>(out: &mut O, node: N, plain: Option<&[u8]>)
    requires units { HasUnits (kind_of (N.tree node)) }
    requires plain { IfSome plain (λ text. text.now
        ≡ escape (encode_utf8_all (utf16_lossy_chars (units_of (N.tree node))))) }
    ensures { O.takes out.old out.new
        (escape (encode_utf8_all (utf16_lossy_chars (units_of (N.tree node))))) }
{
    match plain {
        Some(text) => out.put(text),
        None => put_runs(out, node),
    }
}

/// Writes a String that was found, with what is between its texts in one piece each, and its
/// characters too if `plain` has them.
#[inline(always)]
fn put_found_text<O: Outlet, N: Node>(
    out: &mut O,
    actual: &[u8],
    valid: &[u8],
    node: N,
    plain: Option<&[u8]>,
)
    requires string { kind_of (N.tree node) ≡ Kinds.String }
    requires whole { has_unpaired_surrogate (units_of (N.tree node)) ≡ false }
    requires plain { IfSome plain (λ text. text.now
        ≡ escape (encode_utf8_all (utf16_lossy_chars (units_of (N.tree node))))) }
    ensures { O.takes out.old out.new
        (compact_text (found_data actual.now valid.now (N.tree node))) }
{
    out.put(b"{\"actual\":\"");
    put_latin(out, actual);
    out.put(b"\",\"type\":\"string\",\"valid\":\"");
    put_latin(out, valid);
    out.put(b"\",\"value\":\"");
    put_characters(out, node, plain);
    out.put(b"\"}")
}

/// Writes a String that was found, of which not even a unit is read if the outlet has no room for
/// one byte for each.
fn put_found_string<O: Outlet, N: Node>(out: &mut O, actual: &[u8], valid: &[u8], node: N)
    requires { kind_of (N.tree node) ≡ Kinds.String }
    ensures { O.takes out.old out.new
        (compact_text (found_data actual.now valid.now (N.tree node))) }
{
    let len = node.len();
    if out.skips(len as u64) {
        return;
    }
    let mut block = [0; RUN];
    let run = plain_run(&mut block, node, len);
    if run == len {
        return put_found_text(out, actual, valid, node, Some(&block[..run]));
    }
    if !is_well_formed(node) {
        return put_found_members(out, actual, valid, node);
    }
    put_found_text(out, actual, valid, node, None)
}

/// Writes an item that a lookup found as the compact text of a JSON object: the members of
/// `put_item` except `rest`, and the names of the bundle that has the item, `actual`, and of the
/// one that decided, `valid`. It takes no memory.
///
/// ```rust
/// put_found(out, b"de", b"de_AT", &tree) // {"actual":"de","keys":["a"],"type":"table","valid":"de_AT"}
/// ```
pub fn put_found<O: Outlet, N: Node>(out: &mut O, actual: &[u8], valid: &[u8], node: N)
    ensures { O.takes out.old out.new
        (compact_text (found_data actual.now valid.now (N.tree node))) }
{
    if node.kind() == Kind::String {
        return put_found_string(out, actual, valid, node);
    }
    put_found_members(out, actual, valid, node)
}

/// Writes an alias by itself, with the rest of a path.
fn put_alias<O: Outlet, N: Node>(out: &mut O, node: N, rest: &[u8])
    requires { kind_of (N.tree node) ≡ Kinds.Alias }
    ensures { O.takes out.old out.new (compact_text (item_data (N.tree node) rest.now)) }
{
    out.put(b"{");
    put_member_name(out, "rest");
    spell_bytes(out, rest);
    put_members(out, true, node, None)
}

/// Writes an item by itself as the compact text of a JSON object with its members in ascending
/// order: `type`, and by its kind `value` (or `units`, if a text isn't well-formed UTF-16),
/// `signed` and `unsigned`, `values`, `hex`, `len` or `keys`. An alias also has `rest`, what
/// remains of a path that leads over it. It takes no memory. A form of this project.
///
/// ```rust
/// put_item(out, &tree, b"") // {"keys":["a"],"type":"table"}
/// ```
pub fn put_item<O: Outlet, N: Node>(out: &mut O, node: N, rest: &[u8])
    ensures { O.takes out.old out.new (compact_text (item_data (N.tree node) rest.now)) }
{
    if node.kind() == Kind::Alias {
        return put_alias(out, node, rest);
    }
    out.put(b"{");
    put_members(out, false, node, None)
}

/// Returns what `put_item` writes. An error comes only if memory runs out.
///
/// ```rust
/// item_text(alloc, &tree, b"")? // {"keys":["a"],"type":"table"}
/// ```
pub fn item_text<N: Node>(alloc: Global, node: N, rest: &[u8]) -> Result<String, AllocError>
    requires { IsPath rest.now }
    ensures { IfOk result
        (λ text. string_bytes text ≡ compact_text (item_data (N.tree node) rest.now)) }
{
    let mut out = Buffer::new(alloc);
    put_item(&mut out, node, rest);
    let bytes = out.into_bytes()?;
    match String::from_utf8(bytes) {
        Ok(text) => Ok(text),
        Err(_) => Err(AllocError),
    }
}
