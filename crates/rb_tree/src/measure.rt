ghost use Rattle.std.specs.Prelude.{◌≡◌, ◌-◌, ◌^◌, ◌↔◌, min, IsTrue, ◌+◌, ◌*◌, length};
ghost use Rattle.rb_tree.specs.Resource.{height, trees_height, entries_height, weight};
ghost use Rattle.rb_tree.specs.Resource.{trees_weight, entries_weight};
ghost use Rattle.rb_tree.specs.Parts.{Fits};
ghost use Rattle.rb_tree.specs.View.{view_of};

use crate::limits::{HEIGHT_LIMIT, WEIGHT_LIMIT};
use crate::tree::{Entries, Tree, TreeList};

/// Height and weight, capped at `u64::MAX`. One walk takes both, since a large tree exceeds the
/// cache.
#[derive(Clone, Copy)]
struct Measures {
    height: u64,
    weight: u64,
}

impl Tree {
    /// Returns the number of levels: 1 for a leaf and for an empty array or table, else one more
    /// than the highest child; at most `u64::MAX`.
    pub fn height(&self) -> u64
        ensures { result ≡ min (height (view_of self.now)) (2 ^ 64 - 1) }
    {
        self.measures().height
    }

    /// Returns the tree's size in bytes, as the limit of a bundle counts it; at most `u64::MAX`. A
    /// String or an Alias of n units counts 8 + 2n, an Int nothing, a vector of n numbers 4 + 4n, a
    /// Binary of n bytes 20 + n, an array of n items 4 + 4n and its items, a table of n entries 8 +
    /// 8n, each key's length and one more, and its items. A file's length differs: it adds a header
    /// and indexes, and may share keys and items.
    pub fn weight(&self) -> u64
        ensures { result ≡ min (weight (view_of self.now)) (2 ^ 64 - 1) }
    {
        self.measures().weight
    }

    /// Checks whether the tree is a table within `HEIGHT_LIMIT` and `WEIGHT_LIMIT`, as a bundle's
    /// is.
    pub fn fits(&self) -> bool
        ensures { IsTrue result ↔ Fits (view_of self.now) }
    {
        let measures = self.measures();
        matches!(self, Tree::Table(_))
            && measures.height <= HEIGHT_LIMIT
            && measures.weight <= WEIGHT_LIMIT
    }

    #[cycle(measures)]
    #[tactic(auto, using(crate::proofs::Measures::measures))]
    fn measures(&self) -> Measures
        ensures height { result.height ≡ min (height (view_of self.now)) (2 ^ 64 - 1) }
        ensures weight { result.weight ≡ min (weight (view_of self.now)) (2 ^ 64 - 1) }
    {
        match self {
            Tree::String(units) => leaf(text_weight(units.as_slice())),
            Tree::Int(_) => leaf(0),
            Tree::Ints(numbers) => leaf(
                (numbers.as_slice().len() as u64)
                    .saturating_mul(4)
                    .saturating_add(4),
            ),
            Tree::Binary(bytes) => leaf((bytes.as_slice().len() as u64).saturating_add(20)),
            Tree::Alias(units) => leaf(text_weight(units.as_slice())),
            Tree::Array(trees) => above(trees.measures(), 4),
            Tree::Table(entries) => above(entries.measures(), 8),
        }
    }
}

fn leaf(weight: u64) -> Measures
    ensures height { result.height ≡ 1 }
    ensures weight { result.weight ≡ weight }
{
    Measures { height: 1, weight }
}

/// Returns the measures of an array or a table from those of its children and its own weight.
fn above(children: Measures, weight: u64) -> Measures
    ensures height { result.height ≡ min (children.height + 1) (2 ^ 64 - 1) }
    ensures weight { result.weight ≡ min (children.weight + weight) (2 ^ 64 - 1) }
{
    Measures {
        height: children.height.saturating_add(1),
        weight: children.weight.saturating_add(weight),
    }
}

fn text_weight(units: &[u16]) -> u64
    ensures { result ≡ min (8 + 2 * length units.now) (2 ^ 64 - 1) }
{
    (units.len() as u64).saturating_mul(2).saturating_add(8)
}

impl TreeList {
    #[cycle(measures)]
    #[tactic(auto, using(crate::proofs::Measures::measures))]
    fn measures(&self) -> Measures
        ensures height { result.height ≡ min (trees_height self.now) (2 ^ 64 - 1) }
        ensures weight { result.weight ≡ min (trees_weight self.now) (2 ^ 64 - 1) }
    {
        let mut highest = 0;
        let mut sum: u64 = 0;
        for tree in &self.trees {
            let measures = tree.measures();
            highest = measures.height.max(highest);
            sum = sum.saturating_add(4).saturating_add(measures.weight);
        }
        Measures {
            height: highest,
            weight: sum,
        }
    }
}

impl Entries {
    #[cycle(measures)]
    #[tactic(auto, using(crate::proofs::Measures::measures))]
    fn measures(&self) -> Measures
        ensures height { result.height ≡ min (entries_height self.now) (2 ^ 64 - 1) }
        ensures weight { result.weight ≡ min (entries_weight self.now) (2 ^ 64 - 1) }
    {
        let mut highest = 0;
        let mut sum: u64 = 0;
        for entry in &self.pairs {
            let measures = entry.tree.measures();
            highest = measures.height.max(highest);
            sum = sum
                .saturating_add(9)
                .saturating_add(entry.key.as_slice().len() as u64);
            sum = sum.saturating_add(measures.weight);
        }
        Measures {
            height: highest,
            weight: sum,
        }
    }
}
