ghost use Rattle.std.specs.Prelude.{◌≡◌, ◌≤◌, ◌<◌, ◌++◌, ◌^◌, ℕ, List, length, MatchOption, IfSome};
ghost use Rattle.std.specs.Prelude.{OnOk};
ghost use Rattle.std.specs.Str.{chars};
ghost use Rattle.std.specs.Str.Parse.{digits_value};
ghost use Rattle.rb_lexer.specs.Lexeme.{Escape, escape_value, letter_value, units_of};
ghost use Rattle.rb_lexer.specs.Escapes.{digits_at, escape_at};

use crate::front::split_first;
use crate::units::UnitSink;
use std::alloc::AllocError;

/// Adds the units of a code point. Inlined: it is called for each character of a piece.
#[inline(always)]
pub fn push_code<U: UnitSink>(units: &mut U, code: u32) -> Result<(), AllocError>
    requires { code ≤ 0x10FFFF }
    ensures { (us : List ℕ) → U.has units.old us
        → OnOk result (U.has units.new (us ++ units_of code)) }
{
    if code < 0x10000 {
        units.push(code as u16)?;
    } else {
        let above = code - 0x10000;
        units.push((0xD800 + above / 0x400) as u16)?;
        units.push((0xDC00 + above % 0x400) as u16)?;
    }
    Ok(())
}

/// Reads up to `most` digits. Returns their value and number, and the remaining text.
fn digits(text: &str, radix: u32, most: usize) -> (u32, usize, &str)
    requires least_radix { 2 ≤ radix }
    requires most_radix { radix ≤ 16 }
    requires most { most ≤ 8 }
    ensures value { result.0 ≡ digits_value radix (digits_at radix most (chars text.now)).0 }
    ensures count { result.1 ≡ length (digits_at radix most (chars text.now)).0 }
    ensures below { result.0 < 16 ^ most }
    ensures few { result.1 ≤ most }
    ensures no_longer { length result.2.now ≤ length text.now }
    ensures rest { chars result.2.now ≡ (digits_at radix most (chars text.now)).1 }
{
    let mut value = 0;
    let mut count = 0;
    let mut rest = text;
    'digits: while count < most {
        let Some((c, after)) = split_first(rest) else {
            return (value, count, rest);
        };
        let Some(digit) = c.to_digit(radix) else {
            return (value, count, rest);
        };
        value = value * radix + digit;
        count += 1;
        rest = after;
    }
    (value, count, rest)
}

fn letter(c: char) -> u32
    ensures { result ≡ letter_value c }
{
    match c {
        'a' => 0x07,
        'b' => 0x08,
        'e' => 0x1B,
        'f' => 0x0C,
        'n' => 0x0A,
        'r' => 0x0D,
        't' => 0x09,
        'v' => 0x0B,
        _ => c as u32,
    }
}

/// Reads the escape after a backslash: its value and the remaining text, or None if it is bad.
pub fn escape(text: &str) -> Option<(u32, &str)>
    ensures taken { MatchOption result (escape_at (chars text.now) ≡ None)
        (λ x. (x.0 ≤ 0x10FFFF) × ((e : Escape)
        × (escape_at (chars text.now) ≡ Some (e, chars x.1.now)) × (x.0 ≡ escape_value e))) }
    ensures no_longer { IfSome result (λ x. length x.1.now ≤ length text.now) }
{
    let (c, after) = split_first(text)?;
    match c {
        'u' => {
            let (value, count, rest) = digits(after, 16, 4);
            if count == 4 {
                Some((value, rest))
            } else {
                None
            }
        }
        'U' => {
            let (value, count, rest) = digits(after, 16, 8);
            if count == 8 && value <= 0x10FFFF {
                Some((value, rest))
            } else {
                None
            }
        }
        'x' => {
            let (value, count, rest) = digits(after, 16, 2);
            if count > 0 { Some((value, rest)) } else { None }
        }
        'c' => None,
        _ if c.is_digit(8) => {
            let (value, _, rest) = digits(text, 8, 3);
            Some((value, rest))
        }
        _ => Some((letter(c), after)),
    }
}
