ghost use Rattle.std.specs.Prelude.{◌≡◌, ◌<◌, ◌^◌, Some};
ghost use Rattle.rb_format.specs.Item as items;
ghost use Rattle.rb_writer.specs.Values as values;

use rb_format::ItemKind;

/// Returns the item word of a kind and an offset, or of an Int and its number.
pub fn item(kind: ItemKind, offset: u32) -> u32
    requires { offset < 2 ^ 28 }
    ensures kind { items.kind_of result ≡ Some kind }
    ensures offset { items.offset_of result ≡ offset }
    ensures word { result ≡ values.item_word kind offset }
{
    match kind {
        ItemKind::String => offset,
        ItemKind::Binary => 0x1000_0000 + offset,
        ItemKind::Table => 0x2000_0000 + offset,
        ItemKind::Alias => 0x3000_0000 + offset,
        ItemKind::LongTable => 0x4000_0000 + offset,
        ItemKind::Int => 0x7000_0000 + offset,
        ItemKind::Array => 0x8000_0000 + offset,
        ItemKind::Ints => 0xE000_0000 + offset,
    }
}
