ghost use Rattle.std.specs.Prelude.{◌≡◌, ◌≢◌, ℕ, ◌*◌, ◌<◌, ◌≤◌, ◌^◌, List, length, slice_index};
ghost use Rattle.std.specs.Prelude.{slice_set, IfOk};
ghost use Rattle.rb_validator.specs.inner.Marks.{cell, mark_of, mark_at, marked};

use crate::items::heights::Heights;
use rb_format::ItemKind;
use std::alloc::{AllocError, Global};
use std::marker::Model;

/// The state of a table or an array, by its offset and kind.
#[derive(Clone, Copy)]
pub enum VisitState {
    New,
    /// It was entered and is being checked.
    Open,
    /// It was checked and has a tree of this height.
    Done(u8),
}

/// The number of an open mark. Heights are less, and 0 means new.
const OPEN: u8 = 65;

#[derive(Drop)]
pub struct Memo {
    heights: Heights,
    visits: u64,
}

impl Model for Memo {
    ghost Value = { List ℕ };

    ghost view = { λ m. m.heights };

    ghost invariant = { λ m. (m.visits ≡ marked m.heights (length m.heights))
        × (length m.heights ≤ 2 ^ 34) };
}

impl Memo {
    pub fn new(alloc: Global, top: u32) -> Result<Memo, AllocError>
        ensures long { IfOk result (λ m. length m ≡ 3 * top) }
        ensures fresh { IfOk result (λ m. (n : ℕ) → slice_index m n ≡ 0) }
    {
        let heights = Heights::new(alloc, top)?;
        Ok(Memo { heights, visits: 0 })
    }

    pub fn visits(&self) -> u64
        ensures { result ≡ marked self.now (length self.now) }
    {
        self.visits
    }

    pub fn mark(&self, kind: ItemKind, offset: u32) -> VisitState
        requires { cell kind offset < length self.now }
        ensures { result ≡ mark_of (mark_at self.now kind offset) }
    {
        match self.heights.get(kind, offset) {
            0 => VisitState::New,
            OPEN => VisitState::Open,
            height => VisitState::Done(height),
        }
    }

    /// Marks an offset and a kind as open, and counts the entry.
    pub fn enter(&mut self, kind: ItemKind, offset: u32)
        requires inside { cell kind offset < length self.old }
        requires fresh { mark_at self.old kind offset ≡ 0 }
        ensures { self.new ≡ slice_set self.old (cell kind offset) 65 }
    {
        self.heights.set(kind, offset, OPEN);
        self.visits += 1;
    }

    /// Stores the height of a table or an array.
    pub fn finish(&mut self, kind: ItemKind, offset: u32, height: u8)
        requires inside { cell kind offset < length self.old }
        requires entered { mark_at self.old kind offset ≢ 0 }
        requires high { 0 < height }
        requires low { height < 66 }
        ensures { self.new ≡ slice_set self.old (cell kind offset) height }
    {
        self.heights.set(kind, offset, height);
    }
}
