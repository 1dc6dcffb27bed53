ghost use Rattle.std.specs.Prelude.{◌≡◌, ◌+◌, ◌*◌, ◌++◌, ◌≤◌, drop, length, OnOk, IfOk};

use rb_format::HEADER_SIZE;
use std::alloc::{AllocError, Global};
use std::marker::Model;

/// The data of a file that is being written, in a buffer with space for the header. Contracts see
/// the data alone.
#[derive(Drop)]
pub struct Data {
    file: Vec<u8>,
}

impl Model for Data {
    ghost use Rattle.std.specs.Prelude.{List, ℕ, ◌≤◌, drop, length};

    ghost Value = { List ℕ };

    ghost view = { λ d. drop 32 d.file.items };

    ghost invariant = { λ d. 32 ≤ length d.file.items };
}

impl Data {
    /// Reserves space for the header, the root item and this many indexes.
    pub fn new(alloc: Global, indexes: u32) -> Result<Data, AllocError>
        requires { indexes ≤ 6 }
        ensures { IfOk result (λ d. length d ≡ 4 * (1 + indexes)) }
    {
        let size = HEADER_SIZE as usize + 4 * (1 + indexes as usize);
        let mut file = Vec::new(alloc);
        file.extend_from_slice(&[0; 60][..size])?;
        Ok(Data { file })
    }

    /// Returns the length of the data in bytes, without the header.
    pub fn len(&self) -> usize
        ensures { result ≡ length self.now }
    {
        self.file.len() - HEADER_SIZE as usize
    }

    pub fn append(&mut self, bytes: &[u8]) -> Result<(), AllocError>
        ensures { OnOk result (self.new ≡ self.old ++ bytes.now) }
    {
        self.file.extend_from_slice(bytes)?;
        Ok(())
    }

    /// Returns the file; its header, root item and indexes are still zero.
    pub fn into_file(self) -> Vec<u8>
        ensures body { drop 32 result.items ≡ self }
        ensures len { length result.items ≡ 32 + length self }
    {
        self.file
    }
}
