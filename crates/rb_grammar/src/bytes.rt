ghost use Rattle.std.specs.Prelude.{◌≡◌, ℕ, List, IfOk, MatchOption};
ghost use Rattle.rb_grammar.specs.Numeral.{is_gap, IsHexText};

use crate::number::digit;
use std::alloc::{AllocError, Global};

fn is_gap(unit: u16) -> bool
    ensures { result ≡ is_gap unit }
{
    unit == 0x09 || unit == 0x0A || unit == 0x0D || unit == 0x20
}

/// Reads the bytes that a text spells by two hexadecimal digits each. Ignores tabs, line feeds,
/// carriage returns and spaces. Returns `None` for any other unit and for an odd number of digits.
/// `Err` means out of memory.
///
/// ```rust
/// read_bytes(alloc, &[48, 48, 102, 102])? // Some, of the bytes 0 and 255
/// ```
pub fn read_bytes(alloc: Global, units: &[u16]) -> Result<Option<Vec<u8>>, AllocError>
    ensures { IfOk result (λ read. MatchOption read ((bytes : List ℕ) → IsHexText units.now bytes
        → ⊥) (λ bytes. IsHexText units.now bytes.items)) }
{
    let mut bytes = Vec::new(alloc);
    let mut first_digit = None;
    for unit in units {
        if is_gap(*unit) {
            continue;
        }
        let low = digit(*unit);
        if low >= 16 {
            return Ok(None);
        }
        match first_digit {
            None => first_digit = Some(*unit),
            Some(high) => {
                bytes.push((16 * digit(high) + low) as u8)?;
                first_digit = None;
            }
        }
    }
    if first_digit.is_some() {
        return Ok(None);
    }
    Ok(Some(bytes))
}
