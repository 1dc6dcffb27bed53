ghost use Rattle.std.specs.Prelude.{OnOk, All, drop, length, ◌≡◌, ◌+◌, ◌<◌, ◌%◌, ◌≤◌, map};
ghost use Rattle.rb_writer.specs.inner.Growth.{Adds, PutsWord, PutsHalf, PutsBytes, PutsWords};
ghost use Rattle.rb_writer.specs.inner.Growth.{PutsHalves, PutsNumbers};
ghost use Rattle.rb_writer.specs.Bytes.{padded};

use crate::data::Data;
use std::alloc::AllocError;

/// The byte between values.
pub const PADDING: u8 = 0xAA;

#[tactic(auto, using(crate::proofs::Puts::puts_word))]
pub fn put_word(out: &mut Data, word: u32) -> Result<(), AllocError>
    ensures { OnOk result (PutsWord out.old out.new word) }
{
    out.append(&word.to_le_bytes())
}

#[tactic(auto, using(crate::proofs::Puts::puts_half))]
pub fn put_half(out: &mut Data, half: u16) -> Result<(), AllocError>
    ensures { OnOk result (PutsHalf out.old out.new half) }
{
    out.append(&half.to_le_bytes())
}

#[tactic(auto, using(crate::proofs::Puts::puts_bytes))]
pub fn put_bytes(out: &mut Data, bytes: &[u8]) -> Result<(), AllocError>
    ensures { OnOk result (PutsBytes out.old out.new bytes.now) }
{
    out.append(bytes)
}

pub fn put_words(out: &mut Data, words: &[u32]) -> Result<(), AllocError>
    ensures { OnOk result (PutsWords out.old out.new words.now (length words.now)) }
{
    for word in words {
        put_word(out, *word)?;
    }
    Ok(())
}

pub fn put_halves(out: &mut Data, halves: &[u16]) -> Result<(), AllocError>
    ensures { OnOk result (PutsHalves out.old out.new halves.now (length halves.now)) }
{
    for half in halves {
        put_half(out, *half)?;
    }
    Ok(())
}

pub fn put_numbers(out: &mut Data, numbers: &[i32]) -> Result<(), AllocError>
    ensures { OnOk result (PutsNumbers out.old out.new numbers.now (length numbers.now)) }
{
    for number in numbers {
        put_word(out, number.cast_unsigned())?;
    }
    Ok(())
}

/// Pads the data to a multiple of 4 bytes.
pub fn pad(out: &mut Data) -> Result<(), AllocError>
    ensures adds { OnOk result (Adds out.old out.new) }
    ensures whole { OnOk result (length out.new % 4 ≡ 0) }
    ensures little { OnOk result (length out.new < length out.old + 4) }
    ensures padding { OnOk result (All (λ b. b ≡ 170) (drop (length out.old) out.new)) }
    ensures bytes { OnOk result (out.new ≡ padded out.old) }
{
    let over = out.len() % 4;
    if over > 0 {
        put_bytes(out, &[PADDING; 3][over - 1..])?;
    }
    Ok(())
}
