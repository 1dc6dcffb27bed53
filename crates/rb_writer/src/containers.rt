ghost use Rattle.std.specs.Prelude.{IfOk, OnOk, All, IsTrue, length, ◌≡◌, ◌+◌, ◌*◌, ◌%◌, ◌^◌, ◌≤◌};
ghost use Rattle.std.specs.Prelude.{◌<◌, ◌↔◌};
ghost use Rattle.std.specs.Map.{keys_of};
ghost use Rattle.rb_tree.specs.Keys.{pairs, IsTable};
ghost use Rattle.rb_tree.specs.Resource.{table};
ghost use Rattle.rb_writer.specs.inner.Growth.{PutsHalves};
ghost use Rattle.rb_writer.specs.inner.Standing.{PutsArray, PutsShort, PutsLong, HasPlaces};
ghost use Rattle.rb_writer.specs.inner.Standing.{PlacesAre};

use crate::data::Data;
use crate::keys::KeyOffsets;
use crate::put::{pad, put_half, put_word, put_words};
use crate::spare::Spare;
use rb_tree::Entries;
use std::alloc::AllocError;

/// Writes the count and the items of an array, and returns its offset.
#[inline(always)]
pub fn write_array(out: &mut Data, items: &[u32]) -> Result<u32, AllocError>
    requires whole { length out.old % 4 ≡ 0 }
    requires room { length out.old + (4 + 4 * length items.now) ≤ 2 ^ 28 }
    ensures array { IfOk result (λ offset. PutsArray out.old out.new items.now offset) }
    ensures small { IfOk result (λ offset. offset < 2 ^ 28) }
{
    let offset = out.len() / 4;
    put_word(out, items.len() as u32)?;
    put_words(out, items)?;
    Ok(offset as u32)
}

/// Appends key offsets as half words.
pub fn put_short_offsets(out: &mut Data, offsets: &[u32]) -> Result<(), AllocError>
    requires { All (λ x. x < 2 ^ 16) offsets.now }
    ensures { OnOk result (PutsHalves out.old out.new offsets.now (length offsets.now)) }
{
    for offset in offsets {
        put_half(out, *offset as u16)?;
    }
    Ok(())
}

pub fn write_short_table(out: &mut Data, offsets: &[u32], items: &[u32]) -> Result<u32, AllocError>
    requires whole { length out.old % 4 ≡ 0 }
    requires room { length out.old + (4 + 8 * length items.now) ≤ 2 ^ 28 }
    requires count { length items.now < 2 ^ 16 }
    requires offsets { length offsets.now ≡ length items.now }
    requires short { All (λ x. x < 2 ^ 16) offsets.now }
    ensures table { IfOk result (λ offset. PutsShort out.old out.new offsets.now items.now offset) }
    ensures small { IfOk result (λ offset. offset < 2 ^ 28) }
{
    let offset = out.len() / 4;
    put_half(out, items.len() as u16)?;
    put_short_offsets(out, offsets)?;
    pad(out)?;
    put_words(out, items)?;
    Ok(offset as u32)
}

pub fn write_long_table(out: &mut Data, offsets: &[u32], items: &[u32]) -> Result<u32, AllocError>
    requires whole { length out.old % 4 ≡ 0 }
    requires room { length out.old + (4 + 8 * length items.now) ≤ 2 ^ 28 }
    requires offsets { length offsets.now ≡ length items.now }
    ensures table { IfOk result (λ offset. PutsLong out.old out.new offsets.now items.now offset) }
    ensures small { IfOk result (λ offset. offset < 2 ^ 28) }
{
    let offset = out.len() / 4;
    put_word(out, items.len() as u32)?;
    put_words(out, offsets)?;
    put_words(out, items)?;
    Ok(offset as u32)
}

/// Checks whether a table's count and key offsets fit in half words.
pub fn is_short(offsets: &[u32]) -> bool
    ensures { IsTrue result ↔ ((length offsets.now < 2 ^ 16) × All (λ x. x < 2 ^ 16) offsets.now) }
{
    offsets.len() <= 0xFFFF && offsets.iter().all(|x| *x <= 0xFFFF)
}

/// Looks up the offsets of a table's keys, and advances `entry` past them.
#[tactic(auto, using(crate::proofs::Tabled::places_more, crate::proofs::Tabled::has_place))]
pub fn key_offsets(
    spare: &mut Spare,
    keys: &KeyOffsets<'_>,
    entry: &mut usize,
    entries: &Entries,
) -> Result<Vec<u32>, AllocError>
    requires each { HasPlaces keys.now (table entries.now) }
    ensures places { IfOk result (λ offsets. PlacesAre keys.now
        (keys_of (pairs entries.now)) offsets.items (length (pairs entries.now))) }
    ensures ordered { IsTable entries.now }
{
    let mut offsets = spare.take();
    offsets.reserve(entries.len())?;
    for i in 0..entries.len() {
        offsets.push(keys.offset(*entry, entries.key_at(i)))?;
        *entry = entry.wrapping_add(1);
    }
    Ok(offsets)
}
