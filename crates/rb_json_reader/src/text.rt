ghost use Rattle.std.specs.Prelude.{◌≡◌, ◌++◌, false, IfOk, OnOk, encode_utf8_all};
ghost use Rattle.std.specs.Char.{IsScalar};
ghost use Rattle.std.specs.Char.Escape.{encode_utf16};
ghost use Rattle.std.specs.Char.Utf16.{has_unpaired_surrogate, utf16_lossy_chars};

use rb_tree::UnitList;
use std::alloc::{AllocError, Global};

/// Appends the one or two units of a character.
fn push_character(units: &mut Vec<u16>, character: char) -> Result<(), AllocError>
    ensures units { OnOk result
        (units.new.items ≡ units.old.items ++ encode_utf16 character) }
    ensures scalar { IsScalar character }
{
    let mut pair = [0; 2];
    units.extend_from_slice(character.encode_utf16(&mut pair))
}

/// Returns the UTF-16 units of a text.
#[tactic(auto, using(crate::proofs::Units::none_read))]
pub(crate) fn units_of(alloc: Global, text: &str) -> Result<UnitList, AllocError>
    ensures paired { IfOk result (λ us. has_unpaired_surrogate us ≡ false) }
    ensures text { IfOk result (λ us. encode_utf8_all (utf16_lossy_chars us) ≡ text.now) }
{
    let mut units = Vec::with_capacity(alloc, text.len())?;
    for character in text.chars() {
        push_character(&mut units, character)?;
    }
    Ok(UnitList::from_vec(units))
}
