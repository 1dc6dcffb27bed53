ghost use Rattle.std.specs.Prelude.{IfOk, length, ◌≡◌, ◌⊎◌, ◌+◌, ◌*◌, ◌%◌, ◌^◌, ◌≤◌, ◌<◌, ℕ, []};
ghost use Rattle.std.specs.Prelude.{map};
ghost use Rattle.rb_format.specs.inner.FirstFault.{units, bytes};
ghost use Rattle.rb_writer.specs.declared.area.KeyArea.{KeyArea};
ghost use Rattle.rb_writer.specs.Bytes.{place_of};
ghost use Rattle.rb_writer.specs.Values.{text_data, numbers_data, binary_data, skipped};
ghost use Rattle.rb_writer.specs.inner.Growth.{IsDraft, Laid, Put, signed_numbers};

use crate::data::Data;
use crate::put::{PADDING, pad, put_bytes, put_half, put_halves, put_numbers, put_word};
use std::alloc::AllocError;

/// Writes units and a zero unit, and returns the offset.
#[tactic(auto, using(crate::proofs::Values::units_put, crate::proofs::Values::nothing_put))]
pub fn write_units(out: &mut Data, text: &[u16]) -> Result<u32, AllocError>
    requires whole { length out.old % 4 ≡ 0 }
    requires room { length out.old + (8 + 2 * length text.now) ≤ 2 ^ 28 }
    ensures put { IfOk result (λ offset. (area : KeyArea) → IsDraft area out.old
        → Put area out.old out.new (8 + 2 * length text.now) units text.now [] offset) }
    ensures bytes { IfOk result (λ offset. Laid out.old out.new
        (text_data text.now) (place_of (length out.old) text.now) offset) }
    ensures small { IfOk result (λ offset. offset < 2 ^ 28) }
{
    if text.is_empty() {
        return Ok(0);
    }
    let offset = out.len() / 4;
    put_word(out, text.len() as u32)?;
    put_halves(out, text)?;
    put_half(out, 0)?;
    pad(out)?;
    Ok(offset as u32)
}

#[tactic(auto, using(crate::proofs::Values::numbers_put, crate::proofs::Values::nothing_put))]
pub fn write_numbers(out: &mut Data, numbers: &[i32]) -> Result<u32, AllocError>
    requires whole { length out.old % 4 ≡ 0 }
    requires room { length out.old + (4 + 4 * length numbers.now) ≤ 2 ^ 28 }
    ensures put { IfOk result (λ offset. (area : KeyArea) → IsDraft area out.old
        → Put area out.old out.new
        (4 + 4 * length numbers.now) signed_numbers numbers.now [] offset) }
    ensures bytes { IfOk result (λ offset. Laid out.old out.new
        (numbers_data numbers.now) (place_of (length out.old) numbers.now) offset) }
    ensures small { IfOk result (λ offset. offset < 2 ^ 28) }
{
    if numbers.is_empty() {
        return Ok(0);
    }
    let offset = out.len() / 4;
    put_word(out, numbers.len() as u32)?;
    put_numbers(out, numbers)?;
    Ok(offset as u32)
}

/// Writes bytes aligned to a multiple of 16, and returns the offset.
#[tactic(auto, using(crate::proofs::Values::bytes_put, crate::proofs::Values::nothing_put))]
pub fn write_bytes(out: &mut Data, binary: &[u8]) -> Result<u32, AllocError>
    requires whole { length out.old % 4 ≡ 0 }
    requires room { length out.old + (20 + length binary.now) ≤ 2 ^ 28 }
    ensures put { IfOk result (λ offset. (area : KeyArea) → IsDraft area out.old
        → Put area out.old out.new (20 + length binary.now) bytes binary.now [] offset) }
    ensures bytes { IfOk result (λ offset. Laid out.old out.new
        (binary_data (length out.old) binary.now)
        (place_of (length out.old + skipped (length out.old)) binary.now) offset) }
    ensures aligned { IfOk result
        (λ offset. (length binary.now ≡ 0) ⊎ ((4 * offset + 4) % 16 ≡ 0)) }
    ensures small { IfOk result (λ offset. offset < 2 ^ 28) }
{
    if binary.is_empty() {
        return Ok(0);
    }
    let skipped = (28 - out.len() % 16) % 16;
    put_bytes(out, &[PADDING; 12][..skipped])?;
    let offset = out.len() / 4;
    put_word(out, binary.len() as u32)?;
    put_bytes(out, binary)?;
    pad(out)?;
    Ok(offset as u32)
}
