//! Replies to extended requests: each is a compact JSON object, its members ascending, and a line
//! feed.
ghost use Rattle.std.specs.Prelude.{◌↔◌, ◌≤◌, [], ◌∷◌, ◌++◌, length, map, option_map, IsTrue, Some};
ghost use Rattle.hex.specs.Hex.{encode_lower};
ghost use Rattle.serde_json.specs.Data.{array, boolean};
ghost use Rattle.serde_json.specs.View.{items_of};
ghost use Rattle.serde_json.specs.Written.{compact_text};
ghost use Rattle.rb_json.specs.inner.Listed.{listed};
ghost use Rattle.rb_replies.specs.Extended.{file_line, refusal_data, size_data, sizes_data};
ghost use Rattle.rb_replies.specs.Extended.{stored_data, text_data, tree_line};
ghost use Rattle.rb_replies.specs.Within.{IsAbove};
ghost use Rattle.rb_replies.specs.inner.Refusals.{code_text, number_text};

use crate::limit::is_above;
use crate::reply::put_line;
use rb_json::{Outlet, Room, put_name, skips_items, spell_bytes, spell_text, spell_unsigned};
use rb_locales::Name;

/// The members of a refusal's reply, except its code.
#[derive(Clone, Copy, PartialEq, Eq)]
pub struct Detail {
    /// The code of the first error of a text or a file.
    pub code: Option<&'static str>,
    /// The index of a release's first change that is refused.
    pub index: Option<u64>,
    /// The line of the first error of a text.
    pub line: Option<u64>,
}

impl Detail {
    /// Nothing apart from the code.
    pub const NONE: Detail = Detail {
        code: None,
        index: None,
        line: None,
    };
}

fn put_first<O: Outlet>(out: &mut O, code: &str)
    ensures { O.takes out.old out.new (code_text (Some code.now)) }
{
    put_name(out, false, "code");
    spell_text(out, code)
}

/// Writes the member of a code before all others, if there is a code.
fn put_code<O: Outlet>(out: &mut O, code: Option<&str>)
    ensures { O.takes out.old out.new (code_text (option_map (λ s. s.now) code.entry)) }
{
    match code {
        Some(code) => put_first(out, code),
        None => {}
    }
}

fn put_later<O: Outlet>(out: &mut O, name: &str, number: u64)
    ensures { O.takes out.old out.new (number_text name.now (Some number)) }
{
    put_name(out, true, name);
    spell_unsigned(out, number)
}

/// Writes the member of a number after others, if there is a number.
fn put_number<O: Outlet>(out: &mut O, name: &str, number: Option<u64>)
    ensures { O.takes out.old out.new (number_text name.now number) }
{
    match number {
        Some(number) => put_later(out, name, number),
        None => {}
    }
}

/// Writes the line of a refusal with a code and a detail. It takes no memory.
pub fn put_refusal<O: Outlet>(out: &mut O, code: &str, detail: Detail)
    ensures { O.takes out.old out.new (compact_text (refusal_data code.now
        (option_map (λ s. s.now) detail.code)
        detail.index detail.line) ++ 10 ∷ []) }
{
    out.put(b"{");
    put_code(out, detail.code);
    put_name(out, detail.code.is_some(), "error");
    spell_text(out, code);
    put_number(out, "index", detail.index);
    put_number(out, "line", detail.line);
    out.put(b"}");
    out.put(b"\n")
}

fn put_flag<O: Outlet>(out: &mut O, flag: bool)
    ensures { O.takes out.old out.new (compact_text (boolean flag)) }
{
    if flag {
        out.put(b"true")
    } else {
        out.put(b"false")
    }
}

/// Writes the line that says that a bundle is stored, and whether it replaced another. It takes no
/// memory.
pub fn put_stored<O: Outlet>(out: &mut O, is_replaced: bool)
    ensures { O.takes out.old out.new (compact_text (stored_data is_replaced) ++ 10 ∷ []) }
{
    put_line!(out, "ok": put_flag(out, true), "replaced": put_flag(out, is_replaced))
}

fn put_size<O: Outlet>(out: &mut O, size: &(Name, u64))
    ensures { O.takes out.old out.new (compact_text (size_data size.now)) }
{
    out.put(b"{");
    put_name(out, false, "bytes");
    spell_unsigned(out, size.1);
    put_name(out, true, "locale");
    spell_bytes(out, size.0.as_bytes());
    out.put(b"}")
}

fn put_size_items<O: Outlet>(out: &mut O, sizes: &[(Name, u64)])
    ensures { O.takes out.old out.new (listed (λ s. compact_text (size_data s)) sizes.now) }
{
    let len = sizes.len();
    for i in 0..len {
        if skips_items(out, i) {
            return;
        }
        put_size(out, &sizes[i]);
    }
}

fn put_size_array<O: Outlet>(out: &mut O, sizes: &[(Name, u64)])
    ensures { O.takes out.old out.new (compact_text (array (items_of (map size_data sizes.now)))) }
{
    out.put(b"[");
    put_size_items(out, sizes);
    out.put(b"]")
}

/// Writes the line of an application's bundles, the name and the bytes of each. It takes no memory.
pub fn put_sizes<O: Outlet>(out: &mut O, sizes: &[(Name, u64)])
    ensures { O.takes out.old out.new (compact_text (sizes_data sizes.now) ++ 10 ∷ []) }
{
    put_line!(out, "bundles": put_size_array(out, sizes))
}

/// Writes the line of a bundle's text. It takes no memory.
pub fn put_text<O: Outlet>(out: &mut O, text: &str)
    ensures { O.takes out.old out.new (compact_text (text_data text.now) ++ 10 ∷ []) }
{
    put_line!(out, "text": spell_text(out, text))
}

/// The most bytes whose digits are made at a time.
const SPAN: usize = 4_096;

/// Writes the digits of a few bytes, in lower case.
fn put_span<O: Outlet>(out: &mut O, span: &[u8])
    requires { length span.now ≤ 4096 }
    ensures { O.takes out.old out.new (encode_lower span.now) }
{
    let mut digits = [0; 2 * SPAN];
    let digits = &mut digits[..2 * span.len()];
    match hex::encode_to_slice(span, digits) {
        Ok(()) => out.put(digits),
        Err(_) => unreachable!(),
    }
}

/// Writes the digits of bytes, in lower case.
fn put_digits<O: Outlet>(out: &mut O, bytes: &[u8])
    ensures { O.takes out.old out.new (encode_lower bytes.now) }
{
    let mut rest = bytes;
    'spans: while !rest.is_empty() {
        let (span, after) = rest.split_at(rest.len().min(SPAN));
        put_span(out, span);
        rest = after;
    }
}

/// Writes the line of a bundle's file, in hexadecimal. It takes no memory.
pub fn put_file<O: Outlet>(out: &mut O, file: &[u8])
    ensures { O.takes out.old out.new (file_line file.now) }
{
    out.put(b"{\"file\":\"");
    put_digits(out, file);
    out.put(b"\"}\n")
}

/// Writes the line of a tree, with the locales of its item. It takes no memory.
pub fn put_tree_line<O: Outlet>(out: &mut O, actual: &Name, valid: &Name, tree: &[u8])
    ensures { O.takes out.old out.new (tree_line actual.now valid.now tree.now) }
{
    out.put(b"{\"actual\":");
    spell_bytes(out, actual.as_bytes());
    out.put(b",\"tree\":");
    out.put(tree);
    out.put(b",\"valid\":");
    spell_bytes(out, valid.as_bytes());
    out.put(b"}\n")
}

/// The bytes of the line of a bundle's file, apart from its digits.
const FILE_FRAME: u64 = 12;

/// Checks whether the line of a bundle's file exceeds a limit, with its line feed.
#[tactic(auto, using(crate::proofs::Digits::line_len))]
pub fn file_is_above(file: &[u8], limit: Option<u64>) -> bool
    ensures { IsTrue result ↔ IsAbove (length (file_line file.now)) limit }
{
    match limit {
        Some(most) => most < FILE_FRAME || (most - FILE_FRAME) / 2 < file.len() as u64,
        None => false,
    }
}

/// Checks whether the line of a bundle's text exceeds a limit, with its line feed. It takes no
/// memory.
pub fn text_is_above(text: &str, limit: Option<u64>) -> bool
    ensures { IsTrue result
        ↔ IsAbove (length (compact_text (text_data text.now) ++ 10 ∷ [])) limit }
{
    is_above!(limit, put_text(text))
}

/// Checks whether the line of a tree exceeds a limit, with its line feed. It takes no memory.
pub fn tree_is_above(actual: &Name, valid: &Name, tree: &[u8], limit: Option<u64>) -> bool
    ensures { IsTrue result ↔ IsAbove (length (tree_line actual.now valid.now tree.now)) limit }
{
    is_above!(limit, put_tree_line(actual, valid, tree))
}

/// Checks whether the line of an application's bundles exceeds a limit, with its line feed. It
/// takes no memory.
pub fn sizes_are_above(sizes: &[(Name, u64)], limit: Option<u64>) -> bool
    ensures { IsTrue result
        ↔ IsAbove (length (compact_text (sizes_data sizes.now) ++ 10 ∷ [])) limit }
{
    is_above!(limit, put_sizes(sizes))
}
