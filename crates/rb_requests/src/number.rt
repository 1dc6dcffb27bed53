//! Numbers that `serde_json` accepts.
ghost use Rattle.std.specs.Prelude.{◌≡◌, ◌==◌, ◌<◌, ◌≤◌, is_some, IsTrue, length, slice_index};
ghost use Rattle.std.specs.Prelude.{true, false, All};
ghost use Rattle.std.specs.Char.{IsAsciiDigit};
ghost use Rattle.serde_json.specs.Read.{number_of, number_from, float_of};

use fast_float::Numeral;

fn has_minus(bytes: &[u8]) -> bool
    ensures value { result ≡ (slice_index bytes.now 0 == 45) }
    ensures len { IsTrue result → 0 < length bytes.now }
{
    !bytes.is_empty() && bytes[0] == b'-'
}

fn has_float(negative: bool, numeral: &Numeral<'_>) -> bool
    ensures { result ≡ is_some (float_of negative numeral.now) }
{
    numeral.to_float::<f64>(negative).is_finite()
}

fn is_unsigned(numeral: &Numeral<'_>) -> bool
    ensures { result ≡ is_some (number_from false numeral.now) }
{
    numeral.to_u64().is_some() || has_float(false, numeral)
}

fn is_negative(numeral: &Numeral<'_>) -> bool
    ensures { result ≡ is_some (number_from true numeral.now) }
{
    match numeral.to_i64(true) {
        Some(n) if n < 0 => true,
        _ => has_float(true, numeral),
    }
}

/// Returns true for few enough digits to fit in 64 bits. Most numbers need no more parsing.
#[inline(always)]
fn is_short_integer(bytes: &[u8]) -> bool
    ensures digits { IsTrue result → All IsAsciiDigit bytes.now }
    ensures some { IsTrue result → 0 < length bytes.now }
    ensures few { IsTrue result → length bytes.now ≤ 19 }
{
    !bytes.is_empty() && bytes.len() <= 19 && bytes.iter().all(|byte| byte.is_ascii_digit())
}

/// Checks whether a token's number is in range: an integer of 64 bits, or a number whose nearest
/// float is finite.
#[inline(always)]
pub(crate) fn is_in_range(text: &str) -> bool
    ensures { result ≡ is_some (number_of text.now) }
{
    is_short_integer(text.as_bytes()) || is_read_in_range(text)
}

#[inline(never)]
fn is_read_in_range(text: &str) -> bool
    ensures { result ≡ is_some (number_of text.now) }
{
    let bytes = text.as_bytes();
    if has_minus(bytes) {
        is_negative(&Numeral::scan(&bytes[1..]))
    } else {
        is_unsigned(&Numeral::scan(bytes))
    }
}
