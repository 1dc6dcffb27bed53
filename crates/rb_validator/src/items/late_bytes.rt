//! A list of bytes that is stored backwards and grows only as far as a byte was set. The root is at
//! the end of a file, and in a file with few tables these are mostly near the root. Memory that
//! isn't written costs little.
ghost use Rattle.std.specs.Prelude.{◌≡◌, ℕ, ◌<◌, ◌≤◌, length, replicate, slice_index, slice_set};
ghost use Rattle.std.specs.Prelude.{vec_capacity, IfOk};

use crate::lists::byte_at;
use std::alloc::{AllocError, Global};
use std::marker::Model;

/// A list of bytes that are 0 until they are set.
#[derive(Drop)]
pub struct LateBytes {
    len: usize,
    kept: Vec<u8>,
}

impl Model for LateBytes {
    ghost use Rattle.std.specs.Prelude.{List, ℕ, ◌≤◌, vec_capacity};
    ghost use Rattle.rb_validator.specs.inner.Packed.{upwards};

    ghost Value = { List ℕ };

    ghost view = { λ b. upwards b.kept.items b.len };

    ghost invariant = { λ b. b.len ≤ vec_capacity b.kept };
}

fn extend(list: &mut Vec<u8>, count: usize)
    requires { count ≤ vec_capacity list.old }
    ensures same { (n : ℕ) → slice_index list.new.items n ≡ slice_index list.old.items n }
    ensures long { count ≤ length list.new.items }
    ensures room { vec_capacity list.old ≤ vec_capacity list.new }
{
    if list.len() < count {
        let Ok(()) = list.resize(count, 0) else {
            unreachable!()
        };
    }
}

impl LateBytes {
    pub fn new(alloc: Global, len: usize) -> Result<LateBytes, AllocError>
        ensures { IfOk result (λ b. b ≡ replicate len 0) }
    {
        let kept = Vec::with_capacity(alloc, len)?;
        Ok(LateBytes { len, kept })
    }

    pub fn len(&self) -> usize
        ensures { result ≡ length self.now }
    {
        self.len
    }

    pub fn get(&self, i: usize) -> u8
        requires { i < length self.now }
        ensures { result ≡ slice_index self.now i }
    {
        byte_at(&self.kept, self.len - 1 - i)
    }

    pub fn set(&mut self, i: usize, byte: u8)
        requires { i < length self.old }
        ensures { self.new ≡ slice_set self.old i byte }
    {
        let place = self.len - 1 - i;
        extend(&mut self.kept, place + 1);
        self.kept[place] = byte;
    }
}
