//! The tables that are merged.

ghost use Rattle.std.specs.Prelude.{◌≡◌, ◌<◌, IfSome, option_map, slice_get};
ghost use Rattle.std.specs.Option.{option_copied};
ghost use Rattle.std.specs.Map.{keys_of};
ghost use Rattle.rb_tree.specs.Parts.{children_of, kind_of, len_of, pairs_of};
ghost use Rattle.rb_tree.specs.declared.kind.Kind.TheVariants as Kinds;

use crate::place::Level;
use rb_tree::Node;
use std::alloc::AllocError;

/// A table, and the number of its entries.
pub(crate) struct Table<N: Node> {
    pub(crate) node: N,
    pub(crate) len: usize,
    ghost is_table: { kind_of (N.tree node) ≡ Kinds.Table },
    ghost counts: { len ≡ len_of (N.tree node) },
}

impl<N: Node> Clone for Table<N> {
    fn clone(&self) -> Result<Table<N>, AllocError> {
        Ok(*self)
    }
}

impl<N: Node> Copy for Table<N> {}

/// A table that is merged with others, and its first entry that isn't written yet.
pub(crate) struct Layer<N: Node> {
    pub(crate) table: Table<N>,
    pub(crate) at: usize,
    pub(crate) level: Level,
}

impl<N: Node> Clone for Layer<N> {
    fn clone(&self) -> Result<Layer<N>, AllocError> {
        Ok(*self)
    }
}

impl<N: Node> Copy for Layer<N> {}

impl<N: Node> Layer<N> {
    /// Returns a table none of whose entries is written yet.
    pub(crate) fn of(node: N, level: Level) -> Layer<N>
        requires { kind_of (N.tree node) ≡ Kinds.Table }
        ensures node { result.table.node ≡ node }
        ensures at { result.at ≡ 0 }
        ensures level { result.level ≡ level }
    {
        let len = node.len();
        Layer {
            table: Table { node, len },
            at: 0,
            level,
        }
    }

    /// Returns the next key.
    pub(crate) fn key(&self) -> Option<&[u8]>
        ensures { option_copied result
            ≡ slice_get (keys_of (pairs_of (N.tree self.now.table.node))) self.now.at }
    {
        if self.at < self.table.len {
            Some(self.table.node.key_at(self.at))
        } else {
            None
        }
    }

    /// Returns the next child.
    pub(crate) fn child(&self) -> Option<N>
        ensures child { option_map N.tree result
            ≡ slice_get (children_of (N.tree self.now.table.node)) self.now.at }
        ensures within { IfSome result (λ _. self.now.at < 18446744073709551615) }
    {
        if self.at < self.table.len {
            Some(self.table.node.at(self.at))
        } else {
            None
        }
    }
}
