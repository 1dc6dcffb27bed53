ghost use Rattle.std.specs.Prelude.{◌≡◌, ◌<◌, ◌≤◌, ◌+◌, ◌-◌, ◌/◌, ◌⊎◌, IsTrue, Some, length};
ghost use Rattle.std.specs.Prelude.{slice_get, option_map, nat_eq, IfSome};
ghost use Rattle.std.specs.Map.{lookup, keys_of, values_of};
ghost use Rattle.std.specs.Ordering.{nat_cmp};
ghost use Rattle.std.specs.Cmp.Lexicographic.{pointwise, slice_cmp};
ghost use Rattle.rb_format.specs.File.{has_valid_indexes};
ghost use Rattle.rb_format.specs.Geometry.{keys_end};
ghost use Rattle.rb_validator.specs.TextBlocks.{AreSegmentBlocks};
ghost use Rattle.rb_views.specs.inner.Stands.{TableStands};

use crate::item::Item;
use rb_format::{Layout, TableParts, compare_key, key_within};
use std::cmp::Ordering;

/// The entries of a Table in the order of their keys, borrowed from the file.
#[derive(Clone, Copy)]
pub struct Table<'a> {
    pub(crate) body: &'a [u8],
    pub(crate) blocks: &'a [bool],
    pub(crate) parts: TableParts,
    ghost laid: { IsTrue (has_valid_indexes body.now) },
    ghost marked: { AreSegmentBlocks body.now blocks.now },
    ghost keys: { keys_end parts.keys parts.count ≤ length body.now },
    ghost stands: { TableStands body.now parts },
}

/// Chooses the key to compare first: the middle one. For ICU's own keys, such as `%%ALIAS`, it
/// chooses the table's first key, since they sort before nearly all others.
#[inline(always)]
fn first_probe(key: &[u8], count: usize) -> usize
    ensures within { 0 < count → result < count }
    ensures halves { (result ≡ 0) ⊎ (result ≡ count / 2) }
{
    match key.first() {
        Some(b'%') => 0,
        _ => count / 2,
    }
}

/// Chooses the key to compare next: the middle one.
#[inline(always)]
fn next_probe(low: usize, high: usize) -> usize
    requires { low ≤ high }
    ensures { result ≡ low + (high - low) / 2 }
{
    let half = (high - low) / 2;
    low + half
}

impl<'a> Table<'a> {
    ghost use Rattle.rb_views.specs.Seen.{tree_seen, entries_seen, rest_seen, pairs_table};
    ghost use Rattle.rb_views.specs.Seen.{key_placed, IsItemOf, IsItemWith};

    #[tactic(auto, using(crate::proofs::Values::values_length))]
    pub fn len(self) -> usize
        ensures { result ≡ length (entries_seen self.entry) }
    {
        self.parts.count
    }

    /// Returns the key of entry i without its NUL, where i is less than `len`.
    pub fn key(self, i: usize) -> &'a [u8]
        requires { i < length (entries_seen self) }
        ensures key { Some result.now ≡ slice_get (keys_of (entries_seen self.entry)) i }
        ensures place { Some result.now ≡ key_placed self.entry i }
    {
        let layout = Layout::of(self.body);
        match key_within(&layout, self.body, self.parts.keys.offset(self.body, i)) {
            Some(key) => key,
            None => unreachable!(),
        }
    }

    /// Returns the item of entry i, where i is less than `len`.
    pub fn item(self, i: usize) -> Item<'a>
        requires { i < length (entries_seen self) }
        ensures tree { Some (tree_seen result) ≡ slice_get (values_of (entries_seen self.entry)) i }
        ensures place { IsItemOf self.entry i result }
    {
        Item {
            body: self.body,
            // Copied field by field, which keeps it in registers during a walk.
            blocks: &self.blocks[..],
            word: self.parts.item(self.body, i),
        }
    }

    #[inline(always)]
    fn compare(self, key: &[u8], i: usize) -> Ordering
        requires { i < length (entries_seen self) }
        ensures { IfSome (key_placed self.entry i)
            (λ stored. result ≡ slice_cmp nat_cmp key.now stored) }
    {
        compare_key(key, self.body, self.parts.keys.offset(self.body, i))
    }

    /// Finds the item with a key by binary search, or returns None if the key is missing.
    #[inline(always)]
    pub fn get(self, key: &[u8]) -> Option<Item<'a>>
        ensures tree { option_map tree_seen result
            ≡ lookup (pointwise nat_eq key.now) (entries_seen self.entry) }
        ensures place { IfSome result (λ item. IsItemWith self.entry key.now item) }
    {
        let count = self.len();
        let mut low = 0;
        let mut high = count;
        let mut middle = first_probe(key, count);
        while low < high {
            match self.compare(key, middle) {
                Ordering::Less => {
                    high = middle;
                    middle = next_probe(low, high);
                }
                Ordering::Greater => {
                    low = middle + 1;
                    middle = next_probe(low, high);
                }
                Ordering::Equal => return Some(self.item(middle)),
            }
        }
        None
    }

    /// Returns an iterator over the keys and items in the order of the keys.
    pub fn iter(self) -> Pairs<'a>
        ensures entries { rest_seen result ≡ entries_seen self.entry }
        ensures table { pairs_table result ≡ self.entry }
    {
        Pairs {
            table: self,
            next: 0,
        }
    }
}

/// An iterator over the keys and items of a Table.
#[derive(Clone, Drop)]
pub struct Pairs<'a> {
    pub(crate) table: Table<'a>,
    pub(crate) next: usize,
}

impl<'a> Iterator for Pairs<'a> {
    ghost use Rattle.std.specs.Iterator.{item_count};
    ghost use Rattle.rb_views.specs.Seen.{rest_seen, GivesFirst};

    type Item = (&'a [u8], Item<'a>);

    ghost next_gives = { GivesFirst };

    ghost remaining = { item_count rest_seen };

    fn next(&mut self) -> Option<(&'a [u8], Item<'a>)> {
        let i = self.next;
        let count = self.table.len();
        if i < count {
            self.next += 1;
            Some((self.table.key(i), self.table.item(i)))
        } else {
            None
        }
    }
}
