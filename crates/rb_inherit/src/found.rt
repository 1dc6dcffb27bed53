//! Combines what the stops have at a place of the tree, asking them in order.

use crate::place::Level;
use rb_fallback::LookError;

/// The content of a place in the stops that were asked.
#[derive(Clone, Copy)]
pub(crate) enum Found<N> {
    /// Nothing so far.
    Nothing,
    /// Tables, which are merged; more may follow while it is open.
    Tables { is_open: bool },
    /// An item other than a table, of a level.
    Item { node: N, level: Level },
    /// An alias that can't be followed.
    Failed(LookError),
}

impl<N: Copy> Found<N> {
    ghost use Rattle.std.specs.Prelude.{◌≡◌, false};
    ghost use Rattle.rb_inherit.specs.inner.Earlier.{Stays, and_error, and_item, and_table};
    ghost use Rattle.rb_inherit.specs.inner.Earlier.{is_open_of};

    /// Returns true if a later stop may add to it.
    pub(crate) fn is_open(&self) -> bool
        ensures { result ≡ is_open_of self.now }
    {
        match self {
            Found::Nothing => true,
            Found::Tables { is_open } => *is_open,
            Found::Item { .. } | Found::Failed(_) => false,
        }
    }

    /// Returns what a place has if the next stop has a table.
    pub(crate) fn with_table(self) -> Found<N>
        ensures stays { Stays self result }
        ensures is { result ≡ and_table self }
    {
        match self {
            Found::Nothing => Found::Tables { is_open: true },
            found => found,
        }
    }

    /// Returns what a place has if the next stop has another item, which ends tables.
    pub(crate) fn with_item(self, node: N, level: Level) -> Found<N>
        ensures stays { Stays self result }
        ensures is { result ≡ and_item self node level }
    {
        match self {
            Found::Nothing => Found::Item { node, level },
            Found::Tables { .. } => Found::Tables { is_open: false },
            found => found,
        }
    }

    /// Returns what a place has if a lookup of it fails at the next stop, which ends tables.
    pub(crate) fn with_error(self, error: LookError) -> Found<N>
        ensures stays { Stays self result }
        ensures closed { is_open_of result ≡ false }
        ensures is { result ≡ and_error self error }
    {
        match self {
            Found::Nothing => Found::Failed(error),
            Found::Tables { .. } => Found::Tables { is_open: false },
            found => found,
        }
    }
}
