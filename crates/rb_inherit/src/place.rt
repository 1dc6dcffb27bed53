//! The state of a walk over a tree with inheritance: stacks that grow from each item to its
//! children, and shrink again.

ghost use Rattle.std.specs.Prelude.{◌≡◌, ◌≤◌, ◌+◌};
ghost use Rattle.rb_inherit.specs.Merged.{room_below};

use crate::error::WalkError;
use crate::found::Found;
use crate::layer::Layer;
use crate::path::SEPARATOR;
use crate::stops::LastTrail;
use rb_fallback::PATH_LIMIT;
use rb_locales::Name;
use rb_tree::{Kind, Node};
use std::alloc::Global;

/// A level of the lookups of a place and all below it: the trail of one name, and the path that is
/// walked from its stops. The path is one of `paths`, and the keys below the place where the level
/// begins.
#[derive(Clone, Copy)]
pub(crate) struct Level {
    pub(crate) icudata: bool,
    /// Its number in a lookup, from 1 on.
    pub(crate) number: u16,
    pub(crate) path_at: usize,
    pub(crate) path_len: usize,
    pub(crate) keys_at: usize,
    /// The most bytes of keys with which no path is too long, neither the level's nor those of the
    /// levels before it.
    pub(crate) keys_most: usize,
}

/// The lengths of the stacks at a place.
#[derive(Clone, Copy)]
pub(crate) struct Mark {
    pub(crate) layers: usize,
    pub(crate) paths: usize,
    pub(crate) keys: usize,
}

/// The stacks of a walk, and what its lookups have in common.
#[derive(Drop)]
pub(crate) struct Place<N: Node> {
    pub(crate) alloc: Global,
    pub(crate) valid: Name,
    pub(crate) trail: LastTrail<N>,
    pub(crate) layers: Vec<Layer<N>>,
    /// The paths of levels, each of segments with a zero byte between them.
    pub(crate) paths: Vec<u8>,
    /// The keys from the root to the place, each after a zero byte.
    pub(crate) keys: Vec<u8>,
    /// The steps that may still be taken.
    left: u64,
    /// The error if there are none.
    no_steps: WalkError,
}

/// Returns the most bytes of keys with which the path of a level isn't too long that begins with a
/// path of this length, below keys of this length.
fn most_keys(path_len: usize, keys_len: usize) -> usize
    ensures { keys_len ≤ 9223372036854775807 → result ≡ keys_len + room_below path_len }
{
    let slash = if path_len == 0 { 1 } else { 0 };
    let room = PATH_LIMIT.saturating_sub(path_len);
    keys_len.saturating_add(room).saturating_add(slash)
}

impl<N: Node> Place<N> {
    ghost use Rattle.std.specs.Prelude.{◌++◌, ◌∷◌, ◌-◌, IfOk, length, min, nat_lt, take};
    ghost use Rattle.rb_tree.specs.Parts.{kind_of};
    ghost use Rattle.rb_tree.specs.declared.kind.Kind.TheVariants as Kinds;
    ghost use Rattle.rb_inherit.specs.inner.AtPath.{CanAdd, IsNew, path_in};
    ghost use Rattle.rb_inherit.specs.inner.Earlier.{Adds, AddsLayer, Grows, Stays, and_table};
    ghost use Rattle.rb_inherit.specs.inner.Earlier.{part_of};

    /// Returns the state at the root.
    pub(crate) fn new(alloc: Global, valid: Name, left: u64, no_steps: WalkError) -> Place<N>
        ensures { IsNew result }
    {
        Place {
            alloc,
            valid,
            trail: LastTrail::new(alloc, valid),
            layers: Vec::new(alloc),
            paths: Vec::new(alloc),
            keys: Vec::new(alloc),
            left,
            no_steps,
        }
    }

    /// Takes steps, if as many are left.
    pub(crate) fn spend(&mut self, steps: u64) -> Result<(), WalkError>
        ensures { self.new ≡ record self.old { left = self.new.left } }
    {
        match self.left.checked_sub(steps) {
            Some(left) => {
                self.left = left;
                Ok(())
            }
            None => Err(self.no_steps),
        }
    }

    pub(crate) fn mark(&self) -> Mark
        ensures layers { result.layers ≡ length self.now.layers.items }
        ensures keys { result.keys ≡ length self.now.keys.items }
    {
        Mark {
            layers: self.layers.len(),
            paths: self.paths.len(),
            keys: self.keys.len(),
        }
    }

    /// Returns to a place whose children were written.
    pub(crate) fn reset(&mut self, mark: Mark)
        ensures layers { self.new.layers.items ≡ take mark.layers self.old.layers.items }
        ensures keys { self.new.keys.items ≡ take mark.keys self.old.keys.items }
    {
        self.layers.truncate(mark.layers);
        self.paths.truncate(mark.paths);
        self.keys.truncate(mark.keys);
    }

    /// Enters a child by its key.
    pub(crate) fn push_key(&mut self, key: &[u8]) -> Result<(), WalkError>
        ensures keys { IfOk result (λ _. self.new.keys.items
            ≡ self.old.keys.items ++ 0 ∷ key.now) }
        ensures layers { self.new.layers.items ≡ self.old.layers.items }
    {
        if self.keys.push(SEPARATOR).is_err() || self.keys.extend_from_slice(key).is_err() {
            return Err(WalkError::Memory);
        }
        Ok(())
    }

    /// Returns a level that begins at the place, whose path is that of `paths` from an index on.
    pub(crate) fn level_from(
        &self,
        icudata: bool,
        number: u16,
        path_at: usize,
        before: usize,
    ) -> Level
        ensures icudata { result.icudata ≡ icudata }
        ensures path_at { result.path_at ≡ path_at }
        ensures path_len { result.path_len ≡ length self.now.paths.items - path_at }
        ensures most { result.keys_most
            ≡ min before (length self.now.keys.items + room_below result.path_len) }
    {
        let path_len = self.paths.len().saturating_sub(path_at);
        let keys_at = self.keys.len();
        Level {
            icudata,
            number,
            path_at,
            path_len,
            keys_at,
            keys_most: before.min(most_keys(path_len, keys_at)),
        }
    }

    /// Adds a table to what the place has.
    pub(crate) fn add_table(
        &mut self,
        found: Found<N>,
        node: N,
        level: Level,
    ) -> Result<Found<N>, WalkError>
        requires { kind_of (N.tree node) ≡ Kinds.Table }
        ensures stays { IfOk result (Stays found) }
        ensures is { IfOk result (λ after. after ≡ and_table found) }
        ensures layers { IfOk result (λ _. AddsLayer N.tree node level self.old.layers.items
            self.new.layers.items) }
        ensures keys { self.new.keys.items ≡ self.old.keys.items }
        ensures rest { self.new ≡ record self.old { layers = self.new.layers } }
    {
        match self.layers.push(Layer::of(node, level)) {
            Ok(()) => Ok(found.with_table()),
            Err(_) => Err(WalkError::Memory),
        }
    }

    /// Adds an item that isn't an alias to what the place has.
    pub(crate) fn add(
        &mut self,
        found: Found<N>,
        node: N,
        level: Level,
    ) -> Result<Found<N>, WalkError>
        ensures stays { IfOk result (Stays found) }
        ensures layers { IfOk result (λ _. Grows self.old.layers.items self.new.layers.items) }
        ensures keys { self.new.keys.items ≡ self.old.keys.items }
        ensures rest { self.new ≡ record self.old { layers = self.new.layers } }
        ensures adds { CanAdd (length self.old.keys.items) (kind_of (N.tree node)) level found
            → IfOk result (λ after. Adds N.tree (length self.old.keys.items)
            (part_of N.tree node level) found self.old.layers.items after
            self.new.layers.items) }
    {
        match node.kind() {
            Kind::Table => self.add_table(found, node, level),
            _ => Ok(found.with_item(node, level)),
        }
    }

    /// Returns the path at which a level begins.
    pub(crate) fn path(&self, level: Level) -> &[u8]
        ensures { level.path_at + level.path_len ≤ length self.now.paths.items
            → result.now ≡ path_in self.now.paths.items level }
    {
        let end = level.path_at.saturating_add(level.path_len);
        self.paths.get(level.path_at..end).unwrap_or(b"")
    }

    /// Writes a separator after the path that begins at an index, unless that is empty.
    fn separate(&mut self, begin: usize) -> Result<(), WalkError>
        ensures { self.new ≡ record self.old { paths = self.new.paths } }
    {
        if self.paths.len() > begin && self.paths.push(SEPARATOR).is_err() {
            return Err(WalkError::Memory);
        }
        Ok(())
    }

    /// Adds the last bytes of the path of a level to the path that begins at an index.
    pub(crate) fn push_path_end(
        &mut self,
        begin: usize,
        level: Level,
        len: usize,
    ) -> Result<(), WalkError>
        ensures { self.new ≡ record self.old { paths = self.new.paths } }
    {
        if len == 0 {
            return Ok(());
        }
        self.separate(begin)?;
        let end = level
            .path_at
            .saturating_add(level.path_len)
            .min(self.paths.len());
        let from = end.saturating_sub(len);
        match self.paths.extend_from_within(from..end) {
            Ok(()) => Ok(()),
            Err(_) => Err(WalkError::Memory),
        }
    }

    /// Adds the keys below the place where a level begins to the path that begins at an index.
    pub(crate) fn push_keys_of(&mut self, begin: usize, level: Level) -> Result<(), WalkError>
        ensures { self.new ≡ record self.old { paths = self.new.paths } }
    {
        if self.keys.len() <= level.keys_at {
            return Ok(());
        }
        self.separate(begin)?;
        let keys = self
            .keys
            .get(level.keys_at.saturating_add(1)..)
            .unwrap_or(b"");
        match self.paths.extend_from_slice(keys) {
            Ok(()) => Ok(()),
            Err(_) => Err(WalkError::Memory),
        }
    }

    /// Checks whether a path that leads to the place is too long: that of a level, or of one before
    /// it.
    pub(crate) fn is_long(&self, level: Level) -> bool
        ensures { result ≡ nat_lt level.keys_most (length self.now.keys.items) }
    {
        self.keys.len() > level.keys_most
    }
}
