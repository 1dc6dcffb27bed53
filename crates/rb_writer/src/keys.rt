ghost use Rattle.std.specs.Prelude.{◌≡◌, ◌⊎◌, ◌≤◌, ◌<◌, ◌+◌, ◌*◌, ◌/◌, ◌^◌, ℕ, List, length};
ghost use Rattle.std.specs.Prelude.{OnOk, IfOk, IfSome, IsTrue, All, map};
ghost use Rattle.rb_writer.specs.inner.Keyed.{IsStored, IsStoredAt, IsPlace, HasPlace};
ghost use Rattle.rb_tree.specs.Keys.{IsKey};
ghost use Rattle.rb_writer.specs.inner.Growth.{Adds, IsDraft};
ghost use Rattle.rb_writer.specs.inner.Collected.{size_of, names};
ghost use Rattle.rb_writer.specs.inner.Standing.{KeysStand};
ghost use Rattle.rb_writer.specs.inner.Keying.{KeyAt, KeysWritten, PlacesKey, ends_with};
ghost use Rattle.rb_writer.specs.inner.Keying.{known_keys};
ghost use Rattle.std.specs.List.Sorted.{IsSorted};
ghost use Rattle.std.specs.Ordering.{nat_cmp};
ghost use Rattle.std.specs.Cmp.Lexicographic.{slice_cmp};

use crate::area::KeyArea;
use crate::data::Data;
use crate::put::{pad, put_bytes};
use std::alloc::{AllocError, Global};

/// The offset of each key in bytes, and the span of words that stores the keys.
///
/// Gathering recorded each entry's key, so an offset is found by index and confirmed by one
/// comparison, without a search.
#[derive(Drop)]
pub struct KeyOffsets<'a> {
    pub area: KeyArea,
    /// The keys with their offsets, in ascending order.
    pub known: Vec<(&'a [u8], u32)>,
    ranks: Vec<u32>,
    order: Vec<u32>,
}

/// Searches linearly for the offset of a key.
#[tactic(auto, using(crate::proofs::Placing::not_more, crate::proofs::Placing::not_stored, crate::proofs::Placing::known_at))]
fn search(known: &[(&[u8], u32)], key: &[u8]) -> u32
    requires { IsStored known.now key.now }
    ensures { IsStoredAt known.now key.now result }
{
    for pair in known {
        if pair.0 == key {
            return pair.1;
        }
    }
    unreachable!()
}

impl<'a> KeyOffsets<'a> {
    /// Returns the index in `known` of the key that was recorded for an entry.
    fn rank(&self, entry: usize) -> Option<usize> {
        let id = *self.order.get(entry)? as usize;
        let rank = *self.ranks.get(id)?;
        Some(rank as usize)
    }

    /// Returns the offset of a key if it is the one recorded for an entry.
    #[tactic(auto, using(crate::proofs::Placing::known_at))]
    fn awaited(&self, entry: usize, key: &[u8]) -> Option<u32>
        ensures { IfSome result (λ o. IsPlace self.now key.now o) }
    {
        let rank = self.rank(entry)?;
        if rank >= self.known.len() {
            return None;
        }
        let known = &self.known[rank];
        if known.0 == key { Some(known.1) } else { None }
    }

    /// Returns the offset of an entry's key; entries are numbered in the order of writing. It
    /// searches only if the key isn't the one recorded, which doesn't happen.
    pub fn offset(&self, entry: usize, key: &[u8]) -> u32
        requires { HasPlace self.now key.now }
        ensures { IsPlace self.now key.now result }
    {
        match self.awaited(entry, key) {
            Some(offset) => offset,
            None => search(&self.known, key),
        }
    }
}

#[tactic(auto, using(crate::proofs::Placing::stored_at))]
fn is_last(known: &[(&[u8], u32)], key: &[u8]) -> bool
    ensures stored { IsTrue result → IsStored known.now key.now }
    ensures ends { result ≡ ends_with (known_keys known.now) key.now }
{
    let len = known.len();
    len > 0 && known[len - 1].0 == key
}

/// Appends a key and notes its offset, unless it equals the key that was appended last.
pub fn place_key<'a>(
    out: &mut Data,
    known: &mut Vec<(&'a [u8], u32)>,
    key: &'a [u8],
) -> Result<(), AllocError>
    requires key { IsKey key.now }
    requires room { length out.old + length key.now < 2 ^ 28 }
    ensures adds { OnOk result (Adds out.old out.new) }
    ensures little { OnOk result (length out.new ≤ length out.old + (1 + length key.now)) }
    ensures here { OnOk result (IsStored known.new.items key.now) }
    ensures stay { OnOk result
        ((q : List ℕ) → IsStored known.old.items q → IsStored known.new.items q) }
    ensures stand { OnOk result ((q : List ℕ) (o : ℕ) → IsStoredAt known.new.items q o
        → IsStoredAt known.old.items q o ⊎ KeyAt (length out.old) out.new q o) }
    ensures laid { OnOk result
        (PlacesKey out.old out.new key.now known.old.items known.new.items) }
{
    if is_last(known, key) {
        return Ok(());
    }
    known.push((key, out.len() as u32))?;
    put_bytes(out, key)?;
    out.append(&[0])?;
    Ok(())
}

/// Records, for the key with this index, that it is the last of `count` written keys.
fn rank_last(ranks: &mut [u32], id: u32, count: usize) {
    let i = id as usize;
    if i < ranks.len() {
        ranks[i] = u32::try_from(count.wrapping_sub(1)).unwrap_or(u32::MAX);
    }
}

/// Appends the keys, which are sorted, after the root item and the indexes, each distinct key once.
/// `order` has the index of each entry's key.
pub fn write_keys<'a>(
    alloc: Global,
    out: &mut Data,
    keys: &[(&'a [u8], u32)],
    order: Vec<u32>,
    indexes: u32,
) -> Result<KeyOffsets<'a>, AllocError>
    requires keys { All (λ r. IsKey r.now) (names keys.now) }
    requires indexes { indexes ≤ 6 }
    requires start { length out.old ≡ 4 * (1 + indexes) }
    requires room { size_of (names keys.now) ≤ 2 ^ 26 }
    requires ascending { IsSorted (slice_cmp nat_cmp) (map (λ r. r.now) (names keys.now)) }
    ensures drafted { IfOk result (λ p. IsDraft p.area out.new) }
    ensures little { OnOk result (length out.new < 4 * (2 + indexes) + size_of (names keys.now)) }
    ensures area { IfOk result (λ p. p.area.indexes ≡ indexes) }
    ensures top { IfOk result (λ p. p.area.top ≡ length out.new / 4) }
    ensures stand { IfOk result (λ p. KeysStand p.area out.new p) }
    ensures each { IfOk result (λ p. All (λ r. HasPlace p r.now) (names keys.now)) }
    ensures laid { IfOk result
        (λ p. KeysWritten out.old out.new p (map (λ r. r.now) (names keys.now))) }
{
    let mut known = Vec::with_capacity(alloc, keys.len())?;
    let mut ranks = vec![in alloc; 0_u32; keys.len()]?;
    for key in keys {
        place_key(out, &mut known, key.0)?;
        rank_last(&mut ranks, key.1, known.len());
    }
    pad(out)?;
    Ok(KeyOffsets {
        known,
        ranks,
        order,
        area: KeyArea {
            indexes,
            top: (out.len() / 4) as u32,
        },
    })
}
