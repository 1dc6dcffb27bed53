ghost use Rattle.std.specs.Prelude.{◌≡◌, ◌<◌, ◌+◌, ◌&&◌, ℕ, List, [], ◌∷◌, true, false, None};
ghost use Rattle.std.specs.Prelude.{length, drop, OnOk, MatchOption, IsTrue};
ghost use Rattle.std.specs.Char.{digit_char};
ghost use Rattle.std.specs.Char.Utf16.{is_high_surrogate, is_low_surrogate};
ghost use Rattle.std.specs.List.{list_all};
ghost use Rattle.rb_printer.specs.Sign as sign;
ghost use Rattle.rb_printer.specs.Sign.{text, escape_chars, first_unit, pair_chars, unit_chars};
ghost use Rattle.rb_printer.specs.Sign.{units_chars, sign_chars, is_ascii};
ghost use Rattle.rb_printer.specs.inner.Growth.{Adds};

use std::alloc::AllocError;

const QUOTE: u16 = 0x22;

const BACKSLASH: u16 = 0x5C;

const LINE_FEED: u16 = 0x0A;

const TAB: u16 = 0x09;

/// Checks whether a key or a name may have the unit without quotes.
fn is_name_unit(unit: u16) -> bool
    ensures { result ≡ sign.is_name_unit unit }
{
    (0x30 <= unit && unit <= 0x39)
        || (0x41 <= unit && unit <= 0x5A)
        || (0x61 <= unit && unit <= 0x7A)
        || unit == 0x5F
        || unit == 0x2D
}

/// Checks whether a name needs no quotes.
pub fn is_name(units: &[u16]) -> bool
    ensures { result ≡ sign.is_name units.now }
{
    for unit in units {
        if !is_name_unit(*unit) {
            return false;
        }
    }
    !units.is_empty()
}

pub fn is_name_key(key: &[u8]) -> bool
    ensures { result ≡ sign.is_name key.now }
{
    for byte in key {
        if !is_name_unit(*byte as u16) {
            return false;
        }
    }
    !key.is_empty()
}

fn is_control(unit: u16) -> bool
    ensures { result ≡ sign.is_control unit }
{
    unit < 0x20 || (0x7F <= unit && unit < 0xA0)
}

fn is_surrogate(unit: u16) -> bool
    ensures { result ≡ sign.is_surrogate unit }
{
    0xD800 <= unit && unit < 0xE000
}

/// Checks whether a unit is a separator of lines, a control of the writing direction or the byte
/// order mark, which a reader of the text wouldn't see.
fn is_mark(unit: u16) -> bool
    ensures { result ≡ sign.is_mark unit }
{
    (0x2028 <= unit && unit < 0x202F) || (0x2066 <= unit && unit < 0x206A) || unit == 0xFEFF
}

fn is_cited(unit: u16) -> bool
    ensures { result ≡ sign.is_cited unit }
{
    unit == QUOTE || unit == BACKSLASH
}

/// Checks whether a unit's escape has one character after its backslash.
pub fn has_letter(unit: u16) -> bool
    ensures { result ≡ sign.has_letter unit }
{
    unit == LINE_FEED || unit == TAB || is_cited(unit)
}

/// Checks whether a unit is ASCII and needs no escape between quotes, as most are.
#[inline(always)]
pub fn is_plain(unit: u16) -> bool
    ensures shown { result ≡ true → sign.is_shown unit ≡ true }
    ensures ascii { result ≡ true → unit < 128 }
{
    0x20 <= unit && unit < 0x7F && !is_cited(unit)
}

/// Checks whether a unit needs no escape between quotes.
#[inline(always)]
pub fn is_shown(unit: u16) -> bool
    ensures { result ≡ sign.is_shown unit }
{
    !is_cited(unit) && !(is_control(unit) || is_surrogate(unit) || is_mark(unit))
}

/// Checks whether a unit is a high surrogate.
pub fn is_high(unit: u16) -> bool
    ensures { result ≡ is_high_surrogate unit }
{
    0xD800 <= unit && unit < 0xDC00
}

pub fn is_low(unit: u16) -> bool
    ensures { result ≡ is_low_surrogate unit }
{
    0xDC00 <= unit && unit < 0xE000
}

#[inline(always)]
pub fn shown(unit: u16) -> Option<char>
    ensures { MatchOption result (sign.is_shown unit ≡ false)
        (λ c. (sign.is_shown unit ≡ true) × (c ≡ unit)) }
{
    if is_plain(unit) {
        return Some(char::from(unit as u8));
    }
    if is_shown(unit) {
        char::from_u32(unit as u32)
    } else {
        None
    }
}

pub fn digit_char(digit: u16) -> char
    requires { digit < 16 }
    ensures { result ≡ digit_char digit }
{
    let code = if digit < 10 {
        0x30 + digit as u8
    } else {
        87 + digit as u8
    };
    code as char
}

#[inline(always)]
pub fn put(out: &mut Vec<u8>, c: char) -> Result<(), AllocError>
    ensures { OnOk result (Adds out.old.items out.new.items (c ∷ [])) }
{
    if (c as u32) < 0x80 {
        out.push(c as u8)?;
        return Ok(());
    }
    put_encoded(out, c)
}

#[inline(never)]
fn put_encoded(out: &mut Vec<u8>, c: char) -> Result<(), AllocError>
    ensures { OnOk result (Adds out.old.items out.new.items (c ∷ [])) }
{
    let mut buffer = [0; 4];
    out.extend_from_slice(c.encode_utf8(&mut buffer).as_bytes())
}

/// Returns the character of a surrogate pair, if the two units are one.
pub fn paired(unit: u16, next: Option<u16>) -> Option<char>
    ensures { MatchOption result ((is_high_surrogate unit && sign.is_low next) ≡ false)
        (λ c. ((is_high_surrogate unit && sign.is_low next) ≡ true)
        × (c ∷ [] ≡ pair_chars unit next)) }
{
    let low = next?;
    if !is_high(unit) || !is_low(low) {
        return None;
    }
    char::from_u32(0x1_0000 + (unit as u32 - 0xD800) * 0x400 + (low as u32 - 0xDC00))
}

fn put_digits(out: &mut Vec<u8>, unit: u16) -> Result<(), AllocError>
    ensures { OnOk result (Adds out.old.items out.new.items (sign.four_digits unit)) }
{
    put(out, digit_char(unit / 4096))?;
    put(out, digit_char(unit / 256 % 16))?;
    put(out, digit_char(unit / 16 % 16))?;
    put(out, digit_char(unit % 16))
}

fn put_escape(out: &mut Vec<u8>, unit: u16) -> Result<(), AllocError>
    ensures { OnOk result (Adds out.old.items out.new.items (escape_chars unit)) }
{
    if unit == QUOTE {
        return put_str(out, "\\\"");
    }
    if unit == BACKSLASH {
        return put_str(out, "\\\\");
    }
    if unit == LINE_FEED {
        return put_str(out, "\\n");
    }
    if unit == TAB {
        return put_str(out, "\\t");
    }
    put_str(out, "\\u")?;
    put_digits(out, unit)
}

/// Writes a unit that is escaped or part of a surrogate pair.
#[inline(never)]
pub fn put_other(
    out: &mut Vec<u8>,
    after_high: bool,
    unit: u16,
    next: Option<u16>,
) -> Result<(), AllocError>
    requires { sign.is_shown unit ≡ false }
    ensures { OnOk result (Adds out.old.items out.new.items (unit_chars after_high unit next)) }
{
    if let Some(c) = paired(unit, next) {
        return put(out, c);
    }
    if after_high && is_low(unit) {
        return Ok(());
    }
    put_escape(out, unit)
}

/// Writes a unit between quotes, given whether a high surrogate precedes it, and the next unit.
fn put_unit(
    out: &mut Vec<u8>,
    after_high: bool,
    unit: u16,
    next: Option<u16>,
) -> Result<(), AllocError>
    ensures { OnOk result (Adds out.old.items out.new.items (unit_chars after_high unit next)) }
{
    match shown(unit) {
        Some(c) => put(out, c),
        None => put_other(out, after_high, unit, next),
    }
}

fn next_unit(units: &[u16], i: usize) -> Option<u16>
    requires { i < length units.now }
    ensures { result ≡ first_unit (drop (i + 1) units.now) }
{
    if i + 1 < units.len() {
        Some(units[i + 1])
    } else {
        None
    }
}

fn put_units(out: &mut Vec<u8>, units: &[u16]) -> Result<(), AllocError>
    ensures { OnOk result (Adds out.old.items out.new.items (units_chars units.now false)) }
{
    let mut after_high = false;
    for i in 0..units.len() {
        let unit = units[i];
        put_unit(out, after_high, unit, next_unit(units, i))?;
        after_high = is_high(unit);
    }
    Ok(())
}

pub fn put_str(out: &mut Vec<u8>, text: &str) -> Result<(), AllocError>
    requires { IsTrue (list_all is_ascii text.now) }
    ensures { OnOk result (Adds out.old.items out.new.items text.now) }
{
    out.extend_from_slice(text.as_bytes())
}

/// Writes the name of a bundle, without quotes if it needs none.
pub fn put_name(out: &mut Vec<u8>, units: &[u16]) -> Result<(), AllocError>
    ensures { OnOk result
        (Adds out.old.items out.new.items (sign_chars (text (sign.is_name units.now) units.now))) }
{
    if is_name(units) {
        return put_units(out, units);
    }
    put(out, '"')?;
    put_units(out, units)?;
    put(out, '"')
}

/// Writes a key, without quotes if it needs none.
pub fn put_key(out: &mut Vec<u8>, key: &[u8]) -> Result<(), AllocError>
    ensures { OnOk result
        (Adds out.old.items out.new.items (sign_chars (text (sign.is_name key.now) key.now))) }
{
    if is_name_key(key) {
        return out.extend_from_slice(key);
    }
    put(out, '"')?;
    put_key_units(out, key)?;
    put(out, '"')
}

fn put_key_units(out: &mut Vec<u8>, key: &[u8]) -> Result<(), AllocError>
    ensures { OnOk result (Adds out.old.items out.new.items (units_chars key.now false)) }
{
    for byte in key {
        put_unit(out, false, *byte as u16, None)?;
    }
    Ok(())
}
