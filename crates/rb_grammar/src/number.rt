ghost use Rattle.std.specs.Prelude.{◌≡◌, ◌≤◌, ◌<◌, ℕ, ℤ, min, Bool, MatchOption};
ghost use Rattle.std.specs.Char.{digit_value};
ghost use Rattle.std.specs.Str.Parse.{digits_value, AllDigits};
ghost use Rattle.rb_grammar.specs.Numeral.{IsNumeral, numeral_value, is_minus, Writes, IsWithin};
ghost use Rattle.rb_grammar.specs.Numeral.{IsIntText, IsElementText};
ghost use Rattle.rb_grammar.specs.Shape.{shape, after_0, sign_of, unsigned_of};

use crate::limits::{ELEMENT_MODULUS, INT_MODULUS, LEAST_ELEMENT_MAGNITUDE, LEAST_INT_MAGNITUDE};

/// Greater than any limit.
const CEILING: u64 = 1 << 33;

pub(crate) fn digit(unit: u16) -> u64
    ensures value { result ≡ digit_value unit }
    ensures small { result ≤ 36 }
{
    match unit {
        0x30..=0x39 => unit as u64 - 0x30,
        0x41..=0x5A => unit as u64 - 55,
        0x61..=0x7A => unit as u64 - 87,
        _ => 36,
    }
}

fn digits(units: &[u16], radix: u64) -> Option<u64>
    requires least { 1 ≤ radix }
    requires most { radix ≤ 16 }
    ensures { MatchOption result (AllDigits radix units.now → ⊥)
        (λ v. AllDigits radix units.now × (v ≡ min (digits_value radix units.now) CEILING)) }
{
    let mut value = 0;
    for unit in units {
        let next = digit(*unit);
        if next >= radix {
            return None;
        }
        value = (value * radix + next).min(CEILING);
    }
    Some(value)
}

fn unsigned(units: &[u16]) -> Option<u64>
    ensures { MatchOption result (IsNumeral (shape units.now) → ⊥)
        (λ v. IsNumeral (shape units.now) × (v ≡ min (numeral_value (shape units.now)) CEILING)) }
{
    let [first, rest @ ..] = units else {
        return None;
    };
    if *first != 0x30 {
        return digits(units, 10);
    }
    let [second, others @ ..] = rest else {
        return Some(0);
    };
    if *second == 0x58 || *second == 0x78 {
        if others.is_empty() {
            return None;
        }
        return digits(others, 16);
    }
    digits(rest, 8)
}

/// A number by its sign and its distance from zero, capped at `CEILING`.
#[derive(Clone, Copy)]
struct Signed {
    negative: bool,
    size: u64,
}

fn number(units: &[u16]) -> Option<Signed>
    ensures { MatchOption result (IsNumeral (shape (unsigned_of units.now)) → ⊥) (λ n.
        IsNumeral (shape (unsigned_of units.now)) × (n.negative ≡ is_minus (sign_of units.now))
        × (n.size ≡ min (numeral_value (shape (unsigned_of units.now))) CEILING)) }
{
    match units {
        [0x2B, rest @ ..] => Some(Signed {
            negative: false,
            size: unsigned(rest)?,
        }),
        [0x2D, rest @ ..] => Some(Signed {
            negative: true,
            size: unsigned(rest)?,
        }),
        _ => Some(Signed {
            negative: false,
            size: unsigned(units)?,
        }),
    }
}

fn number_within(units: &[u16], least: u64, modulus: u64) -> Option<Signed>
    requires least { least < CEILING }
    requires modulus { modulus ≤ CEILING }
    ensures { MatchOption result
        ((negative : Bool) (size : ℕ) → Writes units.now negative size
        → IsWithin least modulus negative size → ⊥)
        (λ n. Writes units.now n.negative n.size × IsWithin least modulus n.negative n.size) }
{
    let found = number(units)?;
    let is_within = if found.negative {
        found.size <= least
    } else {
        found.size < modulus
    };
    is_within.then_some(found)
}

/// Reads an Int, modulo 2^28. Returns `None` if the text is no number, or one below -2^27 or above
/// 2^28 - 1.
pub fn read_int(units: &[u16]) -> Option<u32>
    ensures { MatchOption result ((n : ℕ) → IsIntText units.now n → ⊥)
        (λ n. IsIntText units.now n) }
{
    let Signed { negative, size } = number_within(units, LEAST_INT_MAGNITUDE, INT_MODULUS)?;
    if negative && size > 0 {
        Some((INT_MODULUS - size) as u32)
    } else {
        Some(size as u32)
    }
}

/// Reads an element of a vector, modulo 2^32 as a signed number. Returns `None` if the text is no
/// number, or one below -2^31 or above 2^32 - 1.
pub fn read_element(units: &[u16]) -> Option<i32>
    ensures { MatchOption result ((z : ℤ) → IsElementText units.now z → ⊥)
        (λ z. IsElementText units.now z) }
{
    let found = number_within(units, LEAST_ELEMENT_MAGNITUDE, ELEMENT_MODULUS)?;
    let size = found.size as i64;
    if found.negative {
        Some((-size) as i32)
    } else if found.size < LEAST_ELEMENT_MAGNITUDE {
        Some(size as i32)
    } else {
        Some((size - ELEMENT_MODULUS as i64) as i32)
    }
}
