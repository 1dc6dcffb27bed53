//! The keys of tables that are merged, in ascending order.

use crate::layer::Layer;
use crate::place::{Level, Place};
use rb_tree::Node;

impl<N: Node> Place<N> {
    ghost use Rattle.std.specs.Prelude.{◌≡◌, IfNone, IfSome, false, slice_get};
    ghost use Rattle.std.specs.Option.{option_copied};
    ghost use Rattle.rb_inherit.specs.inner.Merging.{HasNoChild, HasNoKey, IsLeast, Takes};
    ghost use Rattle.rb_inherit.specs.inner.Merging.{is_key, key_in, precedes};

    /// Returns the next key of a layer.
    fn next_key(&self, i: usize) -> Option<&[u8]>
        ensures { option_copied result ≡ key_in N.tree self.now.layers.items i }
    {
        match self.layers.get(i) {
            Some(layer) => layer.key(),
            None => None,
        }
    }

    /// Returns a layer.
    pub(crate) fn layer(&self, i: usize) -> Option<Layer<N>>
        ensures { result ≡ slice_get self.now.layers.items i }
    {
        match self.layers.get(i) {
            Some(layer) => Some(*layer),
            None => None,
        }
    }

    /// Checks whether the next key of one layer is less than another's. A layer without one comes
    /// last.
    fn precedes(&self, i: usize, other: usize) -> bool
        ensures { result ≡ precedes (key_in N.tree self.now.layers.items i)
            (key_in N.tree self.now.layers.items other) }
    {
        let Some(key) = self.next_key(i) else {
            return false;
        };
        match self.next_key(other) {
            Some(other) => key.cmp(&other).is_lt(),
            None => true,
        }
    }

    /// Returns the index of the first of some layers whose next key is the least.
    pub(crate) fn least(&self, from: usize, to: usize) -> usize
        ensures { IsLeast (key_in N.tree self.now.layers.items) from to result }
    {
        let mut least = from;
        for i in from.saturating_add(1)..to {
            if self.precedes(i, least) {
                least = i;
            }
        }
        least
    }

    /// Checks whether one of some layers has a next key.
    pub(crate) fn has_key(&self, from: usize, to: usize) -> bool
        ensures { result ≡ false → HasNoKey (key_in N.tree self.now.layers.items) from to }
    {
        match self.next_key(self.least(from, to)) {
            Some(_) => true,
            None => false,
        }
    }

    /// Counts the entries of some layers.
    pub(crate) fn entry_count(&self, from: usize, to: usize) -> usize {
        let mut count = 0usize;
        for layer in self.layers.get(from..to).unwrap_or(&[]) {
            count = count.saturating_add(layer.table.len);
        }
        count
    }

    /// Returns the next child of a layer, and the layer's level. The layer's next entry is then the
    /// one after it.
    pub(crate) fn take_child(&mut self, i: usize) -> Option<(N, Level)>
        ensures some { IfSome result (Takes N.tree self.old.layers.items i self.new.layers.items) }
        ensures none { IfNone result (HasNoChild N.tree (slice_get self.old.layers.items i)) }
        ensures rest { self.new ≡ record self.old { layers = self.new.layers } }
    {
        let Some(layer) = self.layers.get_mut(i) else {
            return None;
        };
        let Some(child) = layer.child() else {
            return None;
        };
        layer.at = layer.at.saturating_add(1);
        Some((child, layer.level))
    }

    /// Checks whether a key is the next one of a layer.
    pub(crate) fn is_next(&self, i: usize, key: &[u8]) -> bool
        ensures { result ≡ is_key key.now (key_in N.tree self.now.layers.items i) }
    {
        match self.next_key(i) {
            Some(next) => key == next,
            None => false,
        }
    }
}
