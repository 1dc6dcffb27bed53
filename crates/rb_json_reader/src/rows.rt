ghost use Rattle.std.specs.Prelude.{◌≡◌, ◌∷◌, ◌++◌, [], All, IfOk, OnOk};
ghost use Rattle.rb_tree.specs.Keys.{IsKey};
ghost use Rattle.rb_tree.specs.Table.{IsTableOf, NoRepeat, keys_in, seen_pairs};
ghost use Rattle.rb_tree.specs.View.{view_of};

use crate::fault::{Fault, JsonFaultKind};
use rb_tree::{Key, TableFault, Tree};
use std::alloc::{AllocError, Global};

/// The entries of a table, in the order of the text, and the byte at which each key begins.
#[derive(Drop)]
pub(crate) struct Rows {
    pub pairs: Vec<(Key, Tree)>,
    pub places: Vec<usize>,
}

impl Rows {
    pub fn new(alloc: Global) -> Rows
        ensures { result.pairs.items ≡ [] }
    {
        Rows {
            pairs: Vec::new(alloc),
            places: Vec::new(alloc),
        }
    }

    /// Adds an entry, whose key begins at this byte.
    pub fn add(&mut self, at: usize, key: Key, tree: Tree) -> Result<(), AllocError>
        ensures { OnOk result (self.new.pairs.items ≡ self.old.pairs.items ++ (key, tree) ∷ []) }
    {
        self.places.push(at)?;
        self.pairs.push((key, tree))?;
        Ok(())
    }

    /// Makes the table, or returns the error at the first repeated key.
    pub fn table(self, alloc: Global) -> Result<Tree, Fault>
        requires { All IsKey (keys_in self.pairs.items) }
        ensures table { IfOk result (λ t. IsTableOf (seen_pairs self.pairs.items) (view_of t)) }
        ensures no_repeat { OnOk result (NoRepeat (keys_in self.pairs.items)) }
    {
        let Rows { pairs, places } = self;
        match Tree::keyed_table(alloc, pairs) {
            Ok(tree) => Ok(tree),
            Err(TableFault::Memory) => Err(Fault::new(JsonFaultKind::Memory, 0)),
            Err(TableFault::DuplicateKey(i)) => {
                let at = places.get(i).copied().unwrap_or(0);
                Err(Fault::new(JsonFaultKind::DuplicateKey, at))
            }
        }
    }
}
