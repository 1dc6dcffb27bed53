//! Stores a small number for each offset and each kind with children, in one byte for each offset.
//!
//! Nearly every offset has a number for one kind at most, so its byte encodes both. The numbers of
//! the other two kinds go to a list that only files with overlapping tables and arrays write to;
//! reserved memory that isn't written costs little.
ghost use Rattle.std.specs.Prelude.{◌≡◌, ◌≢◌, ◌⊎◌, true, false, ℕ, ◌*◌, ◌/◌, ◌<◌, ◌≤◌, ◌==◌};
ghost use Rattle.std.specs.Prelude.{if◌then◌else◌};
ghost use Rattle.std.specs.Prelude.{length, replicate, slice_index, slice_set, vec_len};
ghost use Rattle.std.specs.Prelude.{vec_capacity, IfOk};
ghost use Rattle.rb_validator.specs.inner.Marks.{cell, slot};
ghost use Rattle.rb_validator.specs.inner.Packed.{other};

use crate::items::late_bytes::LateBytes;
use crate::lists::byte_at;
use rb_format::ItemKind;
use std::alloc::{AllocError, Global};
use std::marker::Model;

const SPAN: u8 = 66;

/// A number below 66 for each offset and each kind with children, initially 0.
#[derive(Drop)]
pub struct Heights {
    /// For each offset, 66 times the slot of the kind that was set first plus its number, or 0.
    first: LateBytes,
    /// For each offset, the numbers of the other two kinds; empty until one is set.
    rest: Vec<u8>,
}

impl Model for Heights {
    ghost use Rattle.std.specs.Prelude.{List, ℕ, vec_capacity};
    ghost use Rattle.rb_validator.specs.inner.Packed.{cells_of, IsPacked};

    ghost Value = { List ℕ };

    ghost view = { λ h. cells_of h.first h.rest.items };

    ghost invariant = { λ h. IsPacked h.first h.rest.items (vec_capacity h.rest) };
}

fn slot_of(kind: ItemKind) -> u8
    ensures { result ≡ slot kind }
{
    match kind {
        ItemKind::Table => 0,
        ItemKind::LongTable => 1,
        _ => 2,
    }
}

/// Returns the index in `rest` for a slot at an offset where another slot was set first.
fn place_of(offset: u32, slot: u8, set: u8) -> usize
    requires slots { slot < 3 }
    requires set { set < 3 }
    ensures { result ≡ other offset slot set }
{
    2 * offset as usize + (slot as usize + 2 - set as usize) % 3
}

/// Checks whether an offset's byte is unused or encodes this slot.
fn is_for(code: u8, slot: u8) -> bool
    ensures yes { result ≡ true → (code ≡ 0) ⊎ (code / 66 ≡ slot) }
    ensures no { result ≡ false → (code ≢ 0) × (code / 66 ≢ slot) }
{
    code == 0 || code / SPAN == slot
}

fn fill(list: &mut Vec<u8>, count: usize)
    requires { vec_len list.old ≡ 0 → count ≤ vec_capacity list.old }
    ensures { list.new.items
        ≡ (if length list.old.items == 0 then replicate count 0 else list.old.items) }
{
    if list.is_empty() {
        let Ok(()) = list.resize(count, 0) else {
            unreachable!()
        };
    }
}

impl Heights {
    pub fn new(alloc: Global, top: u32) -> Result<Heights, AllocError>
        ensures long { IfOk result (λ h. length h ≡ 3 * top) }
        ensures fresh { IfOk result (λ h. (n : ℕ) → slice_index h n ≡ 0) }
    {
        let first = LateBytes::new(alloc, top as usize)?;
        let rest = Vec::with_capacity(alloc, 2 * top as usize)?;
        Ok(Heights { first, rest })
    }

    pub fn get(&self, kind: ItemKind, offset: u32) -> u8
        requires { cell kind offset < length self.now }
        ensures { result ≡ slice_index self.now (cell kind offset) }
    {
        let slot = slot_of(kind);
        let code = self.first.get(offset as usize);
        if code == 0 {
            0
        } else if code / SPAN == slot {
            code % SPAN
        } else {
            byte_at(&self.rest, place_of(offset, slot, code / SPAN))
        }
    }

    pub fn set(&mut self, kind: ItemKind, offset: u32, number: u8)
        requires inside { cell kind offset < length self.old }
        requires full { 0 < number }
        requires low { number < 66 }
        ensures { self.new ≡ slice_set self.old (cell kind offset) number }
    {
        let slot = slot_of(kind);
        let code = self.first.get(offset as usize);
        if is_for(code, slot) {
            self.first.set(offset as usize, SPAN * slot + number);
        } else {
            fill(&mut self.rest, 2 * self.first.len());
            self.rest[place_of(offset, slot, code / SPAN)] = number;
        }
    }
}
