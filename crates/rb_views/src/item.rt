ghost use Rattle.std.specs.Prelude.{◌≡◌, ◌+◌, ◌*◌, ◌<◌, ◌≤◌, IsTrue, Some, IfSome, option_map};
ghost use Rattle.std.specs.Prelude.{length, take, drop};
ghost use Rattle.std.specs.Option.{option_copied};
ghost use Rattle.rb_tree.specs.Parts.{HasUnits, kind_of, units_of, numbers_of, bytes_of};
ghost use Rattle.rb_tree.specs.Parts.{children_of, pairs_of};
ghost use Rattle.rb_tree.specs.declared.kind.Kind.TheVariants as Kinds;
ghost use Rattle.rb_format.specs.File.{has_valid_indexes};
ghost use Rattle.rb_format.specs.Item as items;
ghost use Rattle.rb_format.specs.Item.{offset_of};
ghost use Rattle.rb_validator.specs.TextBlocks.{AreSegmentBlocks};
ghost use Rattle.rb_views.specs.inner.Stands.{StandsFor, HasEntriesAt, kind_named};
ghost use Rattle.rb_views.specs.Trees.{bytes_at, parts_at};
ghost use Rattle.rb_views.specs.Parts.{text_of, alias_of, ints_of, binary_of, uint_of, signed};
ghost use Rattle.rb_views.specs.Parts.{array_of, table_of};

use crate::array::Array;
use crate::leaves::{Ints, Units};
use crate::table::Table;
use rb_format::{
    ItemKind, KeyPlaces, TableParts, item_kind, item_offset, long_table_parts, table_parts, word_at,
};
use rb_tree::Kind;

/// An item of a bundle (a resource of `uresdata.h`), which contracts see as the tree that it
/// denotes. It is a slice of the file and one word; all values are borrowed from the file.
#[derive(Clone, Copy)]
pub struct Item<'a> {
    pub(crate) body: &'a [u8],
    /// The marks that `Bundle::blocks` returns.
    pub(crate) blocks: &'a [bool],
    pub(crate) word: u32,
    ghost laid: { IsTrue (has_valid_indexes body.now) },
    ghost marked: { AreSegmentBlocks body.now blocks.now },
    ghost stands: { StandsFor body.now word },
}

pub(crate) fn part(body: &[u8], first: usize, count: usize) -> &[u8]
    requires { first + count ≤ length body.now }
    ensures { result.now ≡ take count (drop first body.now) }
{
    &body[first..first + count]
}

fn kind_named(kind: ItemKind) -> Kind
    ensures { result ≡ kind_named kind }
{
    match kind {
        ItemKind::String => Kind::String,
        ItemKind::Binary => Kind::Binary,
        ItemKind::Table | ItemKind::LongTable => Kind::Table,
        ItemKind::Alias => Kind::Alias,
        ItemKind::Int => Kind::Int,
        ItemKind::Array => Kind::Array,
        ItemKind::Ints => Kind::Ints,
    }
}

/// Sign-extends the 28 bits of an Int.
fn signed(number: u32) -> i32
    requires { number < 268435456 }
    ensures { result ≡ signed number }
{
    if number < 0x0800_0000 {
        number as i32
    } else {
        number as i32 - 0x1000_0000
    }
}

// Builds a view of the counted values at an item's offset, or an empty one for offset 0. `$first`
// is the index of the first value, `$more` the remaining fields of the view.
macro_rules! counted {
    ($item:ident, $view:ident, $offset:ident => $first:expr $(, $more:ident)*) => {{
        let $offset = item_offset($item.word);
        if $offset == 0 {
            return $view {
                body: $item.body,
                $($more: $item.$more,)*
                first: 0,
                count: 0,
            };
        }
        $view {
            body: $item.body,
            $($more: $item.$more,)*
            first: $first,
            count: word_at($item.body, $offset as usize),
        }
    }};
}

impl<'a> Item<'a> {
    ghost use Rattle.rb_views.specs.Seen.{tree_seen, units_seen, numbers_seen, trees_seen};
    ghost use Rattle.rb_views.specs.Seen.{entries_seen};
    ghost use Rattle.rb_views.specs.Seen.{item_data, item_word, array_data, first_item, table_data};
    ghost use Rattle.rb_views.specs.Seen.{parts_seen};
    ghost use Rattle.rb_format.specs.Geometry.{array_first};

    pub(crate) fn kind_here(self) -> Kind
        ensures { result ≡ kind_of (tree_seen self.entry) }
    {
        kind_named(self.item_kind())
    }

    fn item_kind(self) -> ItemKind
        ensures { items.kind_of self.entry.word ≡ Some result }
    {
        match item_kind(self.word) {
            Some(kind) => kind,
            None => unreachable!(),
        }
    }

    /// Returns the units of a String, like `ures_getString`, or None for any other kind.
    pub fn text(self) -> Option<Units<'a>>
        ensures { option_map units_seen result ≡ text_of (tree_seen self.entry) }
    {
        match self.kind_here() {
            Kind::String => Some(self.units()),
            _ => None,
        }
    }

    /// Returns the units of an Alias, or None for any other kind.
    pub fn alias(self) -> Option<Units<'a>>
        ensures { option_map units_seen result ≡ alias_of (tree_seen self.entry) }
    {
        match self.kind_here() {
            Kind::Alias => Some(self.units()),
            _ => None,
        }
    }

    /// Returns the numbers of an integer vector, like `ures_getIntVector`, or None for other kinds.
    pub fn ints(self) -> Option<Ints<'a>>
        ensures { option_map numbers_seen result ≡ ints_of (tree_seen self.entry) }
    {
        match self.kind_here() {
            Kind::Ints => Some(self.numbers()),
            _ => None,
        }
    }

    /// Returns the bytes of a Binary, like `ures_getBinary`, or None for any other kind.
    pub fn binary(self) -> Option<&'a [u8]>
        ensures contents { option_copied result ≡ binary_of (tree_seen self.entry) }
        ensures place { IfSome result (λ b. let o = offset_of (item_word self.entry) in 0 < o
            → b.now ≡ bytes_at (item_data self.entry) o) }
    {
        match self.kind_here() {
            Kind::Binary => Some(self.bytes()),
            _ => None,
        }
    }

    /// Returns the 28 bits of an Int with their sign, like `ures_getInt`, or None for other kinds.
    pub fn int(self) -> Option<i32>
        ensures { result ≡ option_map signed (uint_of (tree_seen self.entry)) }
    {
        match self.kind_here() {
            Kind::Int => Some(signed(item_offset(self.word))),
            _ => None,
        }
    }

    /// Returns the 28 bits of an Int without a sign, like `ures_getUInt`, or None for other kinds.
    pub fn uint(self) -> Option<u32>
        ensures { result ≡ uint_of (tree_seen self.entry) }
    {
        match self.kind_here() {
            Kind::Int => Some(item_offset(self.word)),
            _ => None,
        }
    }

    /// Returns the items of an Array, or None for any other kind.
    pub fn array(self) -> Option<Array<'a>>
        ensures items { option_map trees_seen result ≡ array_of (tree_seen self.entry) }
        ensures data { IfSome result (λ a. array_data a ≡ item_data self.entry) }
        ensures place { IfSome result (λ a. let o = offset_of (item_word self.entry) in 0 < o
            → first_item a ≡ array_first o) }
    {
        match self.kind_here() {
            Kind::Array => Some(self.items()),
            _ => None,
        }
    }

    /// Returns the entries of a Table with short or long key offsets, or None for any other kind.
    pub fn table(self) -> Option<Table<'a>>
        ensures entries { option_map entries_seen result ≡ table_of (tree_seen self.entry) }
        ensures data { IfSome result (λ t. table_data t ≡ item_data self.entry) }
        ensures place { IfSome result (λ t. 0 < offset_of (item_word self.entry)
            → parts_seen t ≡ parts_at (item_data self.entry) (item_word self.entry)) }
    {
        match self.kind_here() {
            Kind::Table => Some(self.entries()),
            _ => None,
        }
    }

    #[tactic(auto, using(crate::proofs::Contents::units_there, crate::proofs::Contents::units_none))]
    pub(crate) fn units(self) -> Units<'a>
        requires { HasUnits (kind_of (tree_seen self)) }
        ensures units { units_seen result ≡ units_of (tree_seen self.entry) }
        ensures data { result.body.now ≡ self.entry.body.now }
    {
        counted!(self, Units, offset => 2 * offset + 2)
    }

    #[tactic(auto, using(crate::proofs::Contents::numbers_there, crate::proofs::Contents::numbers_none))]
    pub(crate) fn numbers(self) -> Ints<'a>
        requires { kind_of (tree_seen self) ≡ Kinds.Ints }
        ensures { numbers_seen result ≡ numbers_of (tree_seen self.entry) }
    {
        counted!(self, Ints, offset => offset + 1)
    }

    pub(crate) fn bytes(self) -> &'a [u8]
        requires { kind_of (tree_seen self) ≡ Kinds.Binary }
        ensures contents { result.now ≡ bytes_of (tree_seen self.entry) }
        ensures place { let o = offset_of (item_word self.entry) in 0 < o
            → result.now ≡ bytes_at (item_data self.entry) o }
    {
        let offset = item_offset(self.word);
        if offset == 0 {
            return &[];
        }
        let offset = offset as usize;
        part(
            self.body,
            4 * offset + 4,
            word_at(self.body, offset) as usize,
        )
    }

    pub(crate) fn items(self) -> Array<'a>
        requires { kind_of (tree_seen self) ≡ Kinds.Array }
        ensures items { trees_seen result ≡ children_of (tree_seen self.entry) }
        ensures data { array_data result ≡ item_data self.entry }
        ensures place { let o = offset_of (item_word self.entry) in 0 < o
            → first_item result ≡ array_first o }
    {
        counted!(self, Array, offset => offset + 1, blocks)
    }

    pub(crate) fn entries(self) -> Table<'a>
        requires { kind_of (tree_seen self) ≡ Kinds.Table }
        ensures entries { entries_seen result ≡ pairs_of (tree_seen self.entry) }
        ensures data { table_data result ≡ item_data self.entry }
        ensures place { 0 < offset_of (item_word self.entry)
            → parts_seen result ≡ parts_at (item_data self.entry) (item_word self.entry) }
    {
        Table {
            body: self.body,
            blocks: self.blocks,
            parts: self.parts(),
        }
    }

    fn parts(self) -> TableParts
        requires { kind_of (tree_seen self) ≡ Kinds.Table }
        ensures entries { HasEntriesAt self.entry.body.now result (tree_seen self.entry) }
        ensures place { 0 < offset_of self.entry.word
            → result ≡ parts_at self.entry.body.now self.entry.word }
    {
        let offset = item_offset(self.word);
        if offset == 0 {
            return TableParts {
                keys: KeyPlaces::Halves(0),
                first: 0,
                count: 0,
            };
        }
        match self.item_kind() {
            ItemKind::Table => table_parts(self.body, offset),
            ItemKind::LongTable => long_table_parts(self.body, offset),
            _ => unreachable!(),
        }
    }
}
