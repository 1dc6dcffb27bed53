ghost use Rattle.std.specs.Prelude.{◌≡◌, [], IfErr, IfOk, None, Some};

use crate::lines::PIECE;
use rb_json::Outlet;
use std::alloc::{AllocError, Global};
use std::marker::Model;

/// The reason why a buffer lacks bytes that it was to take.
#[derive(Clone, Copy, Debug, PartialEq, Eq)]
pub(crate) enum BufferFault {
    /// The text is longer than the limit.
    TooLong,
    Memory,
}

/// Stores the bytes that it takes, up to a limit or until memory runs out.
#[derive(Drop)]
pub(crate) struct BoundedBuffer {
    bytes: Vec<u8>,
    /// The number of bytes that the text may still have.
    left: u64,
    fault: Option<BufferFault>,
}

impl Model for BoundedBuffer {
    ghost use Rattle.std.specs.Prelude.{is_some, if◌then◌else◌, List, Option, None, Some, ℕ};

    ghost Value = { Option (List ℕ) };

    ghost view = { λ b. if is_some b.fault then None else Some b.bytes.items };
}

impl BoundedBuffer {
    /// Returns an empty buffer, or an error if there is no memory for the first piece of a text.
    pub(crate) fn new(alloc: Global, limit: u64) -> Result<BoundedBuffer, AllocError>
        ensures { IfOk result (λ buffer. buffer ≡ Some []) }
    {
        Ok(BoundedBuffer {
            bytes: Vec::with_capacity(alloc, PIECE)?,
            left: limit,
            fault: None,
        })
    }

    /// Returns all bytes that the buffer took, or the reason why some are lacking.
    pub(crate) fn into_bytes(self) -> Result<Vec<u8>, BufferFault>
        ensures bytes { IfOk result (λ v. self ≡ Some v.items) }
        ensures none { IfErr result (λ _. self ≡ None) }
    {
        let BoundedBuffer { bytes, fault, .. } = self;
        match fault {
            None => Ok(bytes),
            Some(fault) => Err(fault),
        }
    }
}

impl Outlet for BoundedBuffer {
    ghost use Rattle.rb_json.specs.Stored.{Stores, stores_joined, stores_nothing};

    ghost takes = { λ old new bytes. Stores old new bytes };

    ghost nothing = { λ x. stores_nothing x };

    ghost joined = { λ x y z first second h k. stores_joined x y z first second h k };

    fn put(&mut self, bytes: &[u8]) {
        if self.fault.is_some() {
            return;
        }
        match self.left.checked_sub(bytes.len() as u64) {
            Some(left) => self.left = left,
            None => self.fault = Some(BufferFault::TooLong),
        }
        if self.fault.is_none() && self.bytes.extend_from_slice(bytes).is_err() {
            self.fault = Some(BufferFault::Memory);
        }
    }

    fn skips(&mut self, least: u64) -> bool {
        if self.fault.is_none() && least > self.left {
            self.fault = Some(BufferFault::TooLong);
        }
        self.fault.is_some()
    }
}
