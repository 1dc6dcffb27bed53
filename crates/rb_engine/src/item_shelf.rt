//! The bundles of a package by their items, along which a lookup from an open locale walks. The
//! keys that a `LentItem` needs not read are asked only on trails.
ghost use Rattle.rb_packages.specs.Lent.{bundles_lent};
ghost use Rattle.rb_views.specs.Seen.{tree_seen};

use rb_locales::Name;
use rb_packages::AppShelf;
use rb_parents::Shelf;
use rb_views::Item;

#[derive(Clone, Copy)]
pub(crate) struct ItemShelf<'a> {
    pub(crate) shelf: AppShelf<'a>,
}

impl<'a> Shelf<'a> for ItemShelf<'a> {
    type N = Item<'a>;

    ghost bundles = { λ s. bundles_lent s.shelf };

    fn bundle(self, name: &Name) -> Option<(Item<'a>, bool)> {
        match self.shelf.bundle(name) {
            Some((root, no_fallback)) => Some((root.item(), no_fallback)),
            None => None,
        }
    }
}
