ghost use Rattle.std.specs.Prelude.{◌≡◌, []};

use std::alloc::{AllocError, Global};

/// A pool of unused lists, so that a tree with many small tables and arrays allocates lists once
/// for each level, and not for each table.
#[derive(Drop)]
pub struct Spare {
    alloc: Global,
    lists: Vec<Vec<u32>>,
}

impl Spare {
    pub fn new(alloc: Global) -> Spare {
        Spare {
            alloc,
            lists: Vec::new(alloc),
        }
    }

    /// Returns an empty list, reused if possible.
    pub fn take(&mut self) -> Vec<u32>
        ensures { result.items ≡ [] }
    {
        match self.lists.pop() {
            Some(list) => {
                let mut list = list;
                list.clear();
                list
            }
            None => Vec::new(self.alloc),
        }
    }

    pub fn give(&mut self, list: Vec<u32>) -> Result<(), AllocError> {
        self.lists.push(list)?;
        Ok(())
    }
}
