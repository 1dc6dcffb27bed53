ghost use Rattle.std.specs.Prelude.{◌≡◌, IsTrue, length};
ghost use Rattle.rb_format.specs.File.{source_tree_of, tree_of};
ghost use Rattle.rb_format.specs.Place.{word_at};
ghost use Rattle.rb_views.specs.Seen.{tree_seen, item_data, item_word};
ghost use Rattle.rb_views.specs.Trees.{data_of};
ghost use Rattle.rb_packages.specs.LentItem.{lent_item, lent_tree};
ghost use Rattle.rb_packages.specs.inner.Names.{names_nothing};

use crate::lent::{LentItem, below};
use rb_validator::Bundle;
use rb_views::{Item, RootPlace, root, root_at, root_place};
use std::alloc::AllocError;
use std::marker::Model;

/// A bundle, and what each lookup needs of it: where its root is, whether it has no fallback, and
/// whether its root names another bundle. These are cached when the bundle is stored, since reading
/// them from the file costs each lookup a cache miss.
///
/// The fields of the root's place are separate, so that both flags fit in the same word: a server
/// stores many bundles.
#[derive(Drop)]
pub(crate) struct StoredBundle {
    bundle: Bundle,
    root_word: u32,
    header: u16,
    no_fallback: bool,
    lacks_names: bool,
}

impl Model for StoredBundle {
    ghost use Rattle.std.specs.Prelude.{List, ℕ};
    ghost use Rattle.rb_packages.specs.inner.Names.{IsStoredBundle};

    ghost Value = { List ℕ };

    ghost view = { λ h. h.bundle };

    ghost invariant = { λ h. IsStoredBundle h.bundle h.header h.root_word h.no_fallback h.lacks_names };
}

impl Clone for StoredBundle {
    ghost is_clone = { λ b c. c ≡ b };

    fn clone(&self) -> Result<StoredBundle, AllocError> {
        Ok(StoredBundle {
            bundle: self.bundle.clone()?,
            root_word: self.root_word,
            header: self.header,
            no_fallback: self.no_fallback,
            lacks_names: self.lacks_names,
        })
    }
}

/// Checks that a table has neither `%%ALIAS` nor `%%Parent`.
fn lacks_names(root: Item<'_>) -> bool
    ensures { IsTrue result → IsTrue (names_nothing (tree_seen root.entry)) }
{
    match root.table() {
        Some(table) => table.get(b"%%ALIAS").is_none() && table.get(b"%%Parent").is_none(),
        None => false,
    }
}

/// The most bytes of a file that is read ahead.
const SMALL_FILE: u64 = 1024;

/// The length of a cache line.
const CACHE_LINE: usize = 64;

/// Reads a byte of each cache line of a small file. The reads wait for memory together, where those
/// of a lookup wait one after the other.
fn read_lines(file: &[u8]) -> u8 {
    if file.len() as u64 > SMALL_FILE {
        return 0;
    }
    // The last byte may be in a line after that of the last step.
    let mut all = file.last().copied().unwrap_or(0);
    for byte in file.iter().step_by(CACHE_LINE) {
        all |= *byte;
    }
    all
}

impl StoredBundle {
    /// Wraps a bundle, and reads what lookups need from its file.
    pub(crate) fn of(bundle: Bundle) -> StoredBundle
        ensures { result ≡ bundle }
    {
        let place = root_place(&bundle);
        StoredBundle {
            root_word: place.word,
            header: place.header,
            no_fallback: bundle.no_fallback(),
            lacks_names: lacks_names(root(&bundle)),
            bundle,
        }
    }

    pub(crate) fn into_bundle(self) -> Bundle
        ensures { result ≡ self }
    {
        self.bundle
    }

    pub(crate) fn bundle(&self) -> &Bundle
        ensures { result.now ≡ self.now }
    {
        &self.bundle
    }

    pub(crate) fn len(&self) -> u64
        ensures { result ≡ length self.now }
    {
        self.bundle.bytes().len() as u64
    }

    /// Returns the root of the bundle without reading its file.
    pub(crate) fn root(&self) -> LentItem<'_>
        ensures tree { lent_tree result ≡ tree_of self.now }
        ensures data { item_data (lent_item result) ≡ data_of self.now }
        ensures word { item_word (lent_item result) ≡ word_at (data_of self.now) 0 }
    {
        let place = RootPlace {
            header: self.header,
            word: self.root_word,
        };
        LentItem {
            item: root_at(&self.bundle, place),
            lacks_names: self.lacks_names,
        }
    }

    /// Returns the root like `root`, and reads a small file ahead.
    pub(crate) fn root_ahead(&self) -> LentItem<'_>
        ensures tree { lent_tree result ≡ tree_of self.now }
        ensures data { item_data (lent_item result) ≡ data_of self.now }
        ensures word { item_word (lent_item result) ≡ word_at (data_of self.now) 0 }
    {
        let root = self.root();
        // This is always so. But what is read must be used, or the compiler leaves the reads out.
        if self.len() > SMALL_FILE || self.read_lines() != 0 {
            return root;
        }
        below(root.item())
    }

    /// Reads a byte of each cache line of the file, if that is small.
    pub(crate) fn read_lines(&self) -> u8 {
        read_lines(self.bundle.bytes())
    }

    pub(crate) fn no_fallback(&self) -> bool
        ensures { result ≡ (source_tree_of self.now).no_fallback }
    {
        self.no_fallback
    }
}
