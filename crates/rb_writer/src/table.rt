ghost use Rattle.std.specs.Prelude.{MatchResult, IfOk, length, ◌≡◌, ◌⊎◌, ◌+◌, ◌*◌, ◌%◌, ◌<◌, ◌^◌};
ghost use Rattle.std.specs.Prelude.{◌≤◌, ℕ, List, Some};
ghost use Rattle.std.specs.Map.{keys_of};
ghost use Rattle.rb_tree.specs.Keys.{pairs, IsTable};
ghost use Rattle.rb_tree.specs.Resource.{table};
ghost use Rattle.rb_format.specs.Item.{offset_of};
ghost use Rattle.rb_writer.specs.inner.Standing.{HasPlaces, PutsTable, WritesTable};

use crate::containers::{is_short, key_offsets, write_long_table, write_short_table};
use crate::data::Data;
use crate::item::item;
use crate::keys::KeyOffsets;
use crate::spare::Spare;
use rb_format::ItemKind;
use rb_tree::Entries;
use std::alloc::AllocError;

fn put_table(out: &mut Data, offsets: &[u32], items: &[u32]) -> Result<u32, AllocError>
    requires whole { length out.old % 4 ≡ 0 }
    requires room { length out.old + (4 + 8 * length items.now) ≤ 2 ^ 28 }
    requires offsets { length offsets.now ≡ length items.now }
    ensures small { IfOk result (λ item. offset_of item < 2 ^ 28) }
    ensures written { IfOk result (PutsTable out.old out.new offsets.now items.now) }
{
    if is_short(offsets) {
        Ok(item(ItemKind::Table, write_short_table(out, offsets, items)?))
    } else {
        Ok(item(ItemKind::LongTable, write_long_table(out, offsets, items)?))
    }
}

/// Writes a table that isn't empty from the items of its values, and returns its item.
pub fn write_table(
    spare: &mut Spare,
    out: &mut Data,
    keys: &KeyOffsets<'_>,
    entry: &mut usize,
    entries: &Entries,
    items: &[u32],
) -> Result<u32, AllocError>
    requires whole { length out.old % 4 ≡ 0 }
    requires room { length out.old + (4 + 8 * length items.now) ≤ 2 ^ 28 }
    requires items { length items.now ≡ length (pairs entries.now) }
    requires each { HasPlaces keys.now (table entries.now) }
    ensures { IfOk result (WritesTable keys.now entries.now out.old out.new items.now) }
{
    let offsets = key_offsets(spare, keys, entry, entries)?;
    let written = put_table(out, &offsets, items)?;
    spare.give(offsets)?;
    Ok(written)
}
