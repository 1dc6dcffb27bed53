ghost use Rattle.std.specs.Prelude.{◌≡◌, ◌≤◌, length, drop};
ghost use Rattle.rb_format.specs.File.{tree_of};
ghost use Rattle.rb_format.specs.Place.{word_at as word_of};
ghost use Rattle.rb_views.specs.Seen.{tree_seen, item_data, item_word};
ghost use Rattle.rb_views.specs.Trees.{data_of};
ghost use Rattle.rb_views.specs.Root.{IsRootPlace};

use crate::item::Item;
use crate::place::RootPlace;
use rb_format::{body, half_at, word_at};
use rb_validator::Bundle;

/// Returns the data after a header of this size.
fn behind(bytes: &[u8], header: u16) -> &[u8]
    requires { header ≤ length bytes.now }
    ensures { result.now ≡ drop header bytes.now }
{
    &bytes[header as usize..]
}

/// Returns the position and the word of a bundle's root item, to be stored for `root_at`.
pub fn root_place(bundle: &Bundle) -> RootPlace
    ensures { IsRootPlace bundle.now result }
{
    let bytes = bundle.bytes();
    RootPlace {
        header: half_at(bytes, 0),
        word: word_at(body(bytes), 0),
    }
}

/// Returns the same item as `root` without reading the file.
pub fn root_at(bundle: &Bundle, place: RootPlace) -> Item<'_>
    requires { IsRootPlace bundle.now place }
    ensures tree { tree_seen result ≡ tree_of bundle.now }
    ensures data { item_data result ≡ data_of bundle.now }
    ensures word { item_word result ≡ word_of (data_of bundle.now) 0 }
{
    Item {
        body: behind(bundle.bytes(), place.header),
        blocks: bundle.blocks(),
        word: place.word,
    }
}

/// Returns the root item of a bundle, a Table: word 0 of the file's data.
///
/// ```rust
/// let text = root(&bundle).table()?.get(b"a")?.text()?; // of `root{a{"b"}}`
/// text.at(0) // 98
/// ```
pub fn root(bundle: &Bundle) -> Item<'_>
    ensures tree { tree_seen result ≡ tree_of bundle.now }
    ensures data { item_data result ≡ data_of bundle.now }
    ensures word { item_word result ≡ word_of (data_of bundle.now) 0 }
{
    root_at(bundle, root_place(bundle))
}
