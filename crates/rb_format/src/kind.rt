ghost use Rattle.std.specs.Prelude.{◌≡◌};
ghost use Rattle.rb_format.specs.Item as items;
ghost use Rattle.rb_format.specs.Item.{kind_of, type_of, offset_of};

/// The kinds of items and their type numbers.
#[derive(Clone, Copy, PartialEq, Eq)]
pub enum ItemKind {
    String = 0,
    Binary = 1,
    Table = 2,
    Alias = 3,
    LongTable = 4,
    Int = 7,
    Array = 8,
    Ints = 14,
}

pub fn item_type(item: u32) -> u8
    ensures { result ≡ type_of item }
{
    (item >> 28) as u8
}

pub fn item_offset(item: u32) -> u32
    ensures { result ≡ offset_of item }
{
    item & 0x0FFF_FFFF
}

/// Returns the kind of an item word, or None for an unknown type.
pub fn item_kind(item: u32) -> Option<ItemKind>
    ensures { result ≡ kind_of item }
{
    match item_type(item) {
        0 => Some(ItemKind::String),
        1 => Some(ItemKind::Binary),
        2 => Some(ItemKind::Table),
        3 => Some(ItemKind::Alias),
        4 => Some(ItemKind::LongTable),
        7 => Some(ItemKind::Int),
        8 => Some(ItemKind::Array),
        14 => Some(ItemKind::Ints),
        _ => None,
    }
}

pub fn is_table(kind: Option<ItemKind>) -> bool
    ensures { result ≡ items.is_table kind }
{
    matches!(kind, Some(ItemKind::Table | ItemKind::LongTable))
}
