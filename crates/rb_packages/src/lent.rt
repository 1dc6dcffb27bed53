ghost use Rattle.std.specs.Prelude.{◌≡◌, ◌⊎◌, IsTrue};
ghost use Rattle.rb_parents.specs.Trail.{alias_key, parent_key};
ghost use Rattle.rb_views.specs.Seen.{tree_seen};
ghost use Rattle.rb_packages.specs.inner.Names.{names_nothing};

use rb_tree::{Kind, Node};
use rb_views::Item;

/// An item borrowed from a stored bundle. It behaves like its `item`, but the root of a table
/// without `%%ALIAS` and `%%Parent` answers for these keys without reading the file.
#[derive(Clone, Copy)]
pub struct LentItem<'a> {
    pub(crate) item: Item<'a>,
    pub(crate) lacks_names: bool,
    ghost noted: { IsTrue lacks_names → IsTrue (names_nothing (tree_seen item)) },
}

fn names_bundle(key: &[u8]) -> bool
    ensures { IsTrue result → (key.now ≡ alias_key) ⊎ (key.now ≡ parent_key) }
{
    key == b"%%ALIAS".as_slice() || key == b"%%Parent".as_slice()
}

/// Wraps an item that may name another bundle.
pub(crate) fn below<'a>(item: Item<'a>) -> LentItem<'a>
    ensures { result.item ≡ item.entry }
{
    LentItem {
        item,
        lacks_names: false,
    }
}

impl<'a> LentItem<'a> {
    ghost use Rattle.rb_packages.specs.LentItem.{lent_item};

    pub fn item(self) -> Item<'a>
        ensures { result ≡ lent_item self.entry }
    {
        self.item
    }
}

impl<'a> Node for LentItem<'a> {
    ghost use Rattle.rb_packages.specs.LentItem.{lent_tree};

    ghost tree = { lent_tree };

    fn kind(self) -> Kind {
        self.item.kind()
    }

    fn len(self) -> usize {
        self.item.len()
    }

    #[tactic(auto, using(crate::proofs::Names::no_name))]
    fn child(self, key: &[u8]) -> Option<LentItem<'a>> {
        if self.lacks_names && names_bundle(key) {
            return None;
        }
        match self.item.child(key) {
            Some(item) => Some(below(item)),
            None => None,
        }
    }

    fn key_at(&self, i: usize) -> &[u8] {
        self.item.key_at(i)
    }

    fn unit(self, i: usize) -> u16 {
        self.item.unit(i)
    }

    fn segment_run(self, from: usize) -> usize {
        self.item.segment_run(from)
    }

    fn number(self, i: usize) -> i32 {
        self.item.number(i)
    }

    fn byte(self, i: usize) -> u8 {
        self.item.byte(i)
    }

    fn int(self) -> u32 {
        Node::int(self.item)
    }

    fn at(self, i: usize) -> LentItem<'a> {
        below(self.item.at(i))
    }
}
