ghost use Rattle.std.specs.Prelude.{◌≡◌, None, IfNone, IfSome, option_map};
ghost use Rattle.std.specs.Map.{lookup};
ghost use Rattle.std.specs.Str.{bytes_eq};
ghost use Rattle.rb_parents.specs.Shelf.{bundle_of};
ghost use Rattle.rb_packages.specs.Shelf.{bundle_at};
ghost use Rattle.rb_packages.specs.Packages.{shelf_of};
ghost use Rattle.rb_packages.specs.Lent.{files_in, bundles_lent, LendsRoot};
ghost use Rattle.rb_packages.specs.LentItem.{lent_tree};
ghost use Rattle.rb_packages.specs.Positions.{IsIndexOf, name_at, tree_at};

use crate::bundles::Bundles;
use crate::lent::LentItem;
use rb_locales::Name;
use rb_parents::Shelf;

/// A reference to the bundles of ICUDATA or of one application, which implements `Shelf`.
#[derive(Clone, Copy)]
pub struct AppShelf<'a> {
    pub(crate) bundles: Option<&'a Bundles>,
    /// The index of the bundle that is tried before the search by name. Any number is allowed.
    pub(crate) near: usize,
}

impl<'a> Shelf<'a> for AppShelf<'a> {
    type N = LentItem<'a>;

    ghost bundles = { bundles_lent };

    fn bundle(self, name: &Name) -> Option<(LentItem<'a>, bool)>
        ensures value { option_map (bundle_of lent_tree) result ≡ bundles_lent self.entry name.now }
        ensures place { LendsRoot (files_in self.entry) name.now result }
    {
        match self.bundles {
            Some(bundles) => bundle_near(bundles, name, self.near),
            None => None,
        }
    }
}

impl<'a> AppShelf<'a> {
    /// Returns the index of the bundle with this name.
    pub fn index_of(self, name: &Name) -> Option<usize>
        ensures found { IfSome result (IsIndexOf (files_in self.entry) name.now) }
        ensures none { IfNone result (lookup (bytes_eq name.now) (files_in self.entry) ≡ None) }
    {
        match self.bundles {
            Some(bundles) => index_in(bundles, name),
            None => None,
        }
    }

    /// Returns the name of the bundle at an index.
    pub fn name_at(self, index: usize) -> Option<Name>
        ensures { result ≡ name_at (files_in self.entry) index }
    {
        match self.bundles?.get_index(index) {
            Some((name, _)) => Some(*name),
            None => None,
        }
    }

    /// Reads a byte of a bundle's name and its stored flags, or none if no bundle is there.
    pub(crate) fn read_entry(self, index: usize) -> Option<u8> {
        let (name, stored) = self.bundles?.get_index(index)?;
        let first = name.as_bytes().first().copied().unwrap_or(0);
        Some(first ^ stored.no_fallback() as u8)
    }

    /// Reads a byte of each cache line of a bundle's file if it is small, or returns none if no
    /// bundle is there.
    pub(crate) fn read_file(self, index: usize) -> Option<u8> {
        let (_, stored) = self.bundles?.get_index(index)?;
        Some(stored.read_lines())
    }

    /// Returns the root of the bundle at an index.
    pub fn root_at(self, index: usize) -> Option<LentItem<'a>>
        ensures { option_map lent_tree result ≡ tree_at (files_in self.entry) index }
    {
        match self.bundles?.get_index(index) {
            Some((_, stored)) => Some(stored.root()),
            None => None,
        }
    }
}

/// Returns the bundle at an index if it has this name, or else the one with this name.
fn bundle_near<'a>(bundles: &'a Bundles, name: &Name, near: usize) -> Option<(LentItem<'a>, bool)>
    ensures value { option_map (bundle_of lent_tree) result
        ≡ bundle_at (shelf_of bundles.now.entries) name.now }
    ensures place { LendsRoot bundles.now.entries name.now result }
{
    if let Some((other, stored)) = bundles.get_index(near) {
        if other.as_bytes() == name.as_bytes() {
            return Some((stored.root_ahead(), stored.no_fallback()));
        }
    }
    bundle_in(bundles, name)
}

fn index_in(bundles: &Bundles, name: &Name) -> Option<usize>
    ensures found { IfSome result (IsIndexOf bundles.now.entries name.now) }
    ensures none { IfNone result (lookup (bytes_eq name.now) bundles.now.entries ≡ None) }
{
    match bundles.get_full(name) {
        Some((index, _, _)) => Some(index),
        None => None,
    }
}

fn bundle_in<'a>(bundles: &'a Bundles, name: &Name) -> Option<(LentItem<'a>, bool)>
    ensures value { option_map (bundle_of lent_tree) result
        ≡ bundle_at (shelf_of bundles.now.entries) name.now }
    ensures place { LendsRoot bundles.now.entries name.now result }
{
    match bundles.get(name) {
        Some(stored) => Some((stored.root_ahead(), stored.no_fallback())),
        None => None,
    }
}
