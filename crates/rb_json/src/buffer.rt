ghost use Rattle.std.specs.Prelude.{◌≡◌, IfErr, IfOk, None, Some, []};

use crate::outlet::Outlet;
use std::alloc::{AllocError, Global};
use std::marker::Model;

/// Stores the bytes that it takes, until memory runs out.
#[derive(Drop)]
pub struct Buffer {
    bytes: Vec<u8>,
    is_out_of_memory: bool,
}

impl Model for Buffer {
    ghost use Rattle.std.specs.Prelude.{if◌then◌else◌, List, Option, None, Some, ℕ};

    ghost Value = { Option (List ℕ) };

    ghost view = { λ b. if b.is_out_of_memory then None else Some b.bytes.items };
}

impl Buffer {
    /// Returns an empty buffer, which takes no memory.
    pub fn new(alloc: Global) -> Buffer
        ensures { result ≡ Some [] }
    {
        Buffer {
            bytes: Vec::new(alloc),
            is_out_of_memory: false,
        }
    }

    /// Returns a buffer with these bytes, in their memory.
    pub fn from_vec(bytes: Vec<u8>) -> Buffer
        ensures { result ≡ Some bytes.items }
    {
        Buffer {
            bytes,
            is_out_of_memory: false,
        }
    }

    /// Returns all the bytes that the buffer took, or an error if memory ran out.
    pub fn into_bytes(self) -> Result<Vec<u8>, AllocError>
        ensures bytes { IfOk result (λ v. self ≡ Some v.items) }
        ensures none { IfErr result (λ _. self ≡ None) }
    {
        let Buffer {
            bytes,
            is_out_of_memory,
        } = self;
        if is_out_of_memory {
            Err(AllocError)
        } else {
            Ok(bytes)
        }
    }
}

impl Outlet for Buffer {
    ghost use Rattle.rb_json.specs.Stored.{Stores, stores_joined, stores_nothing};

    ghost takes = { λ old new bytes. Stores old new bytes };

    ghost nothing = { λ x. stores_nothing x };

    ghost joined = { λ x y z first second h k. stores_joined x y z first second h k };

    fn put(&mut self, bytes: &[u8]) {
        if !self.is_out_of_memory && self.bytes.extend_from_slice(bytes).is_err() {
            self.is_out_of_memory = true;
        }
    }

    fn skips(&mut self, _least: u64) -> bool {
        self.is_out_of_memory
    }
}
