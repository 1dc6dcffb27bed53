ghost use Rattle.std.specs.Prelude.{◌≡◌, ◌<◌, ◌≤◌, ◌∷◌, [], MatchOption, take, length, true};
ghost use Rattle.std.specs.Prelude.{decimal, encode_utf8, encode_utf8_all, not};
ghost use Rattle.std.specs.Char.{digit_char};
ghost use Rattle.std.specs.Char.Utf16.{has_unpaired_surrogate, utf16_lossy_chars};
ghost use Rattle.hex.specs.Hex.{encode_lower};
ghost use Rattle.json.specs.Print.{escape, escape_byte, escape_letter, quoted};
ghost use Rattle.serde_json.specs.Find.{of_integer};
ghost use Rattle.serde_json.specs.Written.{number_text};
ghost use Rattle.rb_tree.specs.Parts.{HasUnits, bytes_of, kind_of, len_of, units_of};
ghost use Rattle.rb_tree.specs.declared.kind.Kind.TheVariants as Kinds;
ghost use Rattle.rb_json.specs.inner.Run.{IsRun};
ghost use Rattle.rb_json.specs.inner.Spelled.{Spells};

use crate::outlet::Outlet;
use crate::text::ascii;
use crate::units::{RUN, ascii_run, character_at, digit};
use rb_tree::Node;

/// Returns the letter after the backslash of a short escape.
fn short_escape(byte: u8) -> Option<u8>
    ensures { MatchOption result (escape_letter byte ≡ 0)
        (λ l. (escape_letter byte ≡ l) × (0 < l)) }
{
    match byte {
        b'"' | b'\\' => Some(byte),
        8 => Some(b'b'),
        12 => Some(b'f'),
        b'\n' => Some(b'n'),
        b'\r' => Some(b'r'),
        b'\t' => Some(b't'),
        _ => None,
    }
}

fn hex_digit(n: u8) -> u8
    requires { n < 16 }
    ensures { result ≡ digit_char n }
{
    if n < 10 { b'0' + n } else { b'a' - 10 + n }
}

/// Writes a byte as a string of JSON has it.
fn put_escape<O: Outlet>(out: &mut O, byte: u8)
    ensures { O.takes out.old out.new (escape_byte byte) }
{
    match short_escape(byte) {
        Some(letter) => out.put(&[b'\\', letter]),
        None => {
            if byte < 0x20 {
                let digits = [hex_digit(byte / 16), hex_digit(byte % 16)];
                out.put(&[b'\\', b'u', b'0', b'0', digits[0], digits[1]]);
            } else {
                out.put(&[byte]);
            }
        }
    }
}

/// Checks whether a string of JSON has a byte as it is.
fn is_plain(byte: u8) -> bool
    ensures { result ≡ true → escape_byte byte ≡ byte ∷ [] }
{
    0x20 <= byte && byte != b'"' && byte != b'\\'
}

/// Counts the first bytes that a string of JSON has as they are.
fn plain_len(bytes: &[u8]) -> usize
    ensures bound { result ≤ length bytes.now }
    ensures plain { escape (take result bytes.now) ≡ take result bytes.now }
{
    let len = bytes.len();
    for i in 0..len {
        if !is_plain(bytes[i]) {
            return i;
        }
    }
    len
}

/// Writes some first bytes and returns how many: all of them if the outlet needs none.
fn put_front<O: Outlet>(out: &mut O, bytes: &[u8]) -> usize
    requires { 0 < length bytes.now }
    ensures bound { (0 < result) × (result ≤ length bytes.now) }
    ensures taken { O.takes out.old out.new (escape (take result bytes.now)) }
{
    if out.skips(0) {
        return bytes.len();
    }
    let run = plain_len(bytes);
    if run == 0 {
        put_escape(out, bytes[0]);
        return 1;
    }
    out.put(&bytes[..run]);
    run
}

fn put_escaped<O: Outlet>(out: &mut O, bytes: &[u8])
    ensures { O.takes out.old out.new (escape bytes.now) }
{
    let mut at = 0;
    while at < bytes.len() {
        at += put_front(out, &bytes[at..]);
    }
}

fn put_character<O: Outlet>(out: &mut O, character: char)
    ensures { O.takes out.old out.new (escape (encode_utf8 character)) }
{
    let mut buffer = [0; 4];
    put_escaped(out, character.encode_utf8(&mut buffer).as_bytes())
}

/// Writes bytes, a character each.
fn put_each<O: Outlet>(out: &mut O, bytes: &[u8])
    ensures { O.takes out.old out.new (escape (encode_utf8_all bytes.now)) }
{
    for byte in bytes {
        put_character(out, char::from(*byte));
    }
}

/// Checks whether a byte is ASCII, and a string of JSON has it as it is.
#[inline(always)]
fn is_plain_ascii(byte: u8) -> bool
    ensures ascii { result ≡ true → byte < 128 }
    ensures plain { result ≡ true → escape_byte byte ≡ byte ∷ [] }
{
    byte < 0x80 && is_plain(byte)
}

/// Checks whether bytes, a character each, are in a string of JSON as they are.
#[inline(always)]
fn are_plain(bytes: &[u8]) -> bool
    ensures { result ≡ true → escape (encode_utf8_all bytes.now) ≡ bytes.now }
{
    let len = bytes.len();
    for i in 0..len {
        if !is_plain_ascii(bytes[i]) {
            return false;
        }
    }
    true
}

/// Writes bytes, a character each, in longer spans if they are ASCII.
pub(crate) fn put_latin<O: Outlet>(out: &mut O, bytes: &[u8])
    ensures { O.takes out.old out.new (escape (encode_utf8_all bytes.now)) }
{
    // Most names are plain, so one scan replaces two.
    if are_plain(bytes) {
        return out.put(bytes);
    }
    match ascii(bytes) {
        Some(text) => put_escaped(out, text.as_bytes()),
        None => put_each(out, bytes),
    }
}

/// Writes bytes as a string, a character each: byte b is the character U+00b.
pub fn spell_bytes<O: Outlet>(out: &mut O, bytes: &[u8])
    ensures { O.takes out.old out.new (quoted (encode_utf8_all bytes.now)) }
{
    out.put(b"\"");
    put_latin(out, bytes);
    out.put(b"\"")
}

/// Writes a text as a string.
pub fn spell_text<O: Outlet>(out: &mut O, text: &str)
    ensures { O.takes out.old out.new (quoted text.now) }
{
    out.put(b"\"");
    put_escaped(out, text.as_bytes());
    out.put(b"\"")
}

/// Writes the digits of a Binary.
fn put_pairs<O: Outlet, N: Node>(out: &mut O, node: N)
    requires { kind_of (N.tree node) ≡ Kinds.Binary }
    ensures { O.takes out.old out.new (escape (encode_lower (bytes_of (N.tree node)))) }
{
    let len = node.len();
    for i in 0..len {
        if out.skips(0) {
            return;
        }
        let byte = node.byte(i);
        put_escaped(out, &[digit(byte / 16) as u8, digit(byte % 16) as u8]);
    }
}

/// Writes the bytes of a Binary as a string of lower-case hexadecimal digits, two a byte.
pub fn spell_hex<O: Outlet, N: Node>(out: &mut O, node: N)
    requires { kind_of (N.tree node) ≡ Kinds.Binary }
    ensures { O.takes out.old out.new (quoted (encode_lower (bytes_of (N.tree node)))) }
{
    out.put(b"\"");
    put_pairs(out, node);
    out.put(b"\"")
}

/// Checks whether the units of a String or an Alias are well-formed UTF-16.
pub fn is_well_formed<N: Node>(node: N) -> bool
    requires { HasUnits (kind_of (N.tree node)) }
    ensures { result ≡ not (has_unpaired_surrogate (units_of (N.tree node))) }
{
    let len = node.len();
    let mut at = 0;
    while at < len {
        let (character, next) = character_at(node, at, len);
        if character.is_none() {
            return false;
        }
        at = next;
    }
    true
}

/// Writes a span of ASCII units or one character, and returns the index of the next unit: the
/// length if the outlet needs none of them.
fn put_run<O: Outlet, N: Node>(out: &mut O, node: N, at: usize, len: usize) -> usize
    requires units { HasUnits (kind_of (N.tree node)) }
    requires len { len ≡ len_of (N.tree node) }
    requires in_range { at < len }
    ensures more { (at < result) × (result ≤ len) }
    ensures spelled { Spells (O.takes out.old out.new) (units_of (N.tree node)) at result }
{
    if out.skips(0) {
        return len;
    }
    let mut block = [0; RUN];
    let run = ascii_run(&mut block, node, at, len);
    if run > 0 {
        put_escaped(out, &block[..run]);
        return at + run;
    }
    let (character, next) = character_at(node, at, len);
    put_character(out, character.unwrap_or(char::REPLACEMENT_CHARACTER));
    next
}

pub(crate) fn put_runs<O: Outlet, N: Node>(out: &mut O, node: N)
    requires { HasUnits (kind_of (N.tree node)) }
    ensures { O.takes out.old out.new
        (escape (encode_utf8_all (utf16_lossy_chars (units_of (N.tree node))))) }
{
    let len = node.len();
    let mut at = 0;
    while at < len {
        at = put_run(out, node, at, len);
    }
}

/// Copies the first units that a string of JSON has as they are to the front of a block, a byte
/// each, and returns their number.
#[inline(always)]
pub(crate) fn plain_run<N: Node>(block: &mut [u8; RUN], node: N, len: usize) -> usize
    requires units { HasUnits (kind_of (N.tree node)) }
    requires len { len ≡ len_of (N.tree node) }
    ensures bound { (result ≤ 64) × (result ≤ len) }
    ensures run { IsRun block.new (units_of (N.tree node)) 0 result }
    ensures plain { escape (take result block.new) ≡ take result block.new }
{
    let most = RUN.min(len);
    for i in 0..most {
        let unit = node.unit(i);
        if 0x80 <= unit {
            return i;
        }
        let byte = unit as u8;
        if !is_plain(byte) {
            return i;
        }
        block[i] = byte;
    }
    most
}

/// Writes a String or an Alias as a string, with U+FFFD for a surrogate without its partner.
pub fn spell_units<O: Outlet, N: Node>(out: &mut O, node: N)
    requires { HasUnits (kind_of (N.tree node)) }
    ensures { O.takes out.old out.new
        (quoted (encode_utf8_all (utf16_lossy_chars (units_of (N.tree node))))) }
{
    out.put(b"\"");
    put_runs(out, node);
    out.put(b"\"")
}

/// Writes a number in decimal, with a sign if it is negative.
pub fn spell_integer<O: Outlet>(out: &mut O, integer: i64)
    ensures { O.takes out.old out.new (number_text (of_integer integer)) }
{
    let mut buffer = itoa::Buffer::new();
    out.put(buffer.format(integer).as_bytes())
}

/// Writes a number in decimal.
pub fn spell_unsigned<O: Outlet>(out: &mut O, number: u64)
    ensures { O.takes out.old out.new (decimal number) }
{
    let mut buffer = itoa::Buffer::new();
    out.put(buffer.format(number).as_bytes())
}
