ghost use Rattle.std.specs.Prelude.{◌≡◌, ℕ, List, Option, option_map, nat_eq};
ghost use Rattle.std.specs.Map.{lookup};
ghost use Rattle.std.specs.Cmp.Lexicographic.{pointwise};
ghost use Rattle.rb_tree.specs.SourceTree.{SourceTree};
ghost use Rattle.rb_parents.specs.Shelf.{bundle_of, listed_bundles};

use rb_locales::Name;
use rb_tree::{Node, Tree};

/// A collection of bundles by name.
pub trait Shelf<'a>: Copy {
    type N: Node;

    ghost bundles: { Self → List ℕ → Option SourceTree };

    /// Returns the root of a name's bundle and its no-fallback flag, or `None`.
    fn bundle(self, name: &Name) -> Option<(Self::N, bool)>
        ensures { option_map (bundle_of Self.N.tree) result ≡ bundles self name.now };
}

/// A list of names, trees and no-fallback flags; the first entry with a name counts.
#[derive(Clone, Copy)]
pub struct ListShelf<'a> {
    pub entries: &'a [(Name, Tree, bool)],
}

impl<'a> Shelf<'a> for ListShelf<'a> {
    type N = &'a Tree;

    ghost bundles = { λ s n. lookup (pointwise nat_eq n) (listed_bundles s.entries.now) };

    #[tactic(auto, using(crate::proofs::Shelves::entries_step, crate::proofs::Shelves::entries_end))]
    fn bundle(self, name: &Name) -> Option<(&'a Tree, bool)> {
        for entry in self.entries {
            if name.as_bytes() == entry.0.as_bytes() {
                return Some((&entry.1, entry.2));
            }
        }
        None
    }
}
