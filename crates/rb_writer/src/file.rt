//! Writes a tree as a file: the header, the root item, the indexes, the keys and the values.
ghost use Rattle.std.specs.Prelude.{IfOk, IfSome, IsSome, length, take, drop, ◌≡◌, ◌↔◌, ◌+◌, ◌*◌};
ghost use Rattle.std.specs.Prelude.{◌≤◌, ◌<◌, ◌^◌};
ghost use Rattle.rb_format.specs.File.{Denotes};
ghost use Rattle.rb_format.specs.Place.{word_at};
ghost use Rattle.rb_tree.specs.Parts.{Fits, kind_of};
ghost use Rattle.rb_tree.specs.Resource.{height};
ghost use Rattle.rb_tree.specs.declared.kind.Kind.TheVariants as Kinds;
ghost use Rattle.rb_tree.specs.View.{view_of};
ghost use Rattle.rb_writer.specs.Header as specified;
ghost use Rattle.rb_writer.specs.Written as written;
ghost use Rattle.rb_writer.specs.inner.Collected.{GathersKeys};
ghost use Rattle.rb_writer.specs.inner.Whole.{IsFile, IsIndexed, SetsWord};
ghost use Rattle.rb_writer.specs.Containers.{containers};
ghost use Rattle.rb_writer.specs.Longest.{longest};
ghost use Rattle.rb_writer.specs.Written.{IsFileOf, IsWriterFile};

use crate::area::KeyArea;
use crate::data::Data;
use crate::gather::{Gathered, gather};
use crate::header::header;
use crate::keys::write_keys;
use crate::sorting::sorted_keys;
use crate::spare::Spare;
use crate::tree::write_value;
use rb_format::{ATTRIBUTES_INDEX_COUNT, HEADER_SIZE, INDEX_COUNT};
use rb_tree::{Tree, WEIGHT_LIMIT};
use std::alloc::{AllocError, Global};

/// Returns the number of indexes to write; the sixth has the attributes.
fn index_count(no_fallback: bool) -> u32
    ensures { result ≡ written.index_count no_fallback }
{
    if no_fallback {
        ATTRIBUTES_INDEX_COUNT
    } else {
        INDEX_COUNT
    }
}

fn set_word(bytes: &mut [u8], i: usize, word: u32)
    requires { 4 * i + 4 ≤ length bytes.old }
    ensures { SetsWord bytes.old bytes.new i word }
{
    bytes[4 * i..4 * i + 4].copy_from_slice(&word.to_le_bytes());
}

fn set_indexes(body: &mut [u8], root: u32, area: KeyArea, longest: u32, no_fallback: bool)
    requires indexes { area.indexes ≡ written.index_count no_fallback }
    requires long { 4 * (1 + area.indexes) ≤ length body.old }
    requires room { length body.old < 2 ^ 31 }
    ensures { IsIndexed no_fallback body.old root area longest body.new }
{
    let top = (body.len() / 4) as u32;
    set_word(body, 0, root);
    set_word(body, 1, area.indexes);
    set_word(body, 2, area.top);
    set_word(body, 3, top);
    set_word(body, 4, top);
    set_word(body, 5, longest);
    if no_fallback {
        set_word(body, 6, 1);
    }
}

fn set_front(file: &mut [u8], root: u32, area: KeyArea, longest: u32, no_fallback: bool)
    requires indexes { area.indexes ≡ written.index_count no_fallback }
    requires long { 32 + 4 * (1 + area.indexes) ≤ length file.old }
    requires room { length file.old < 2 ^ 31 }
    ensures { IsFile no_fallback (drop 32 file.old) root area longest file.new }
{
    let (front, body) = file.split_at_mut(HEADER_SIZE as usize);
    front.copy_from_slice(&header(no_fallback));
    set_indexes(body, root, area, longest, no_fallback);
}

fn finish(out: Data, root: u32, area: KeyArea, longest: u32, no_fallback: bool) -> Vec<u8>
    requires indexes { area.indexes ≡ written.index_count no_fallback }
    requires long { 4 * (1 + area.indexes) ≤ length out }
    requires room { length out + 32 < 2 ^ 31 }
    ensures { IsFile no_fallback out root area longest result.items }
{
    let mut file = out.into_file();
    set_front(&mut file, root, area, longest, no_fallback);
    file
}

/// Writes the file of a tree that fits, given its gathered keys.
fn write_gathered(
    alloc: Global,
    tree: &Tree,
    gathered: Gathered<'_>,
    no_fallback: bool,
) -> Result<Vec<u8>, AllocError>
    requires fits { Fits (view_of tree.now) }
    requires keys { GathersKeys (view_of tree.now) gathered.keys.items }
    requires longest { gathered.longest ≡ longest (view_of tree.now) }
    ensures { IfOk result (λ f. IsFileOf (view_of tree.now) no_fallback f.items) }
{
    let indexes = index_count(no_fallback);
    let keys = sorted_keys(alloc, &gathered)?;
    drop(gathered.keys);
    let mut out = Data::new(alloc, indexes)?;
    let places = write_keys(alloc, &mut out, &keys, gathered.order, indexes)?;
    drop(keys);
    let mut spare = Spare::new(alloc);
    let mut entry = 0;
    let root = write_value(&mut spare, &mut out, &places, &mut entry, tree)?;
    Ok(finish(out, root, places.area, gathered.longest as u32, no_fallback))
}

/// Writes a tree that `fits` as a file, with fallback or without. The only error is out of memory.
///
/// Each distinct key is written once, in ascending order, and the values follow in post-order;
/// nothing else is shared. A table has short key offsets if its count and all its offsets are at
/// most 65,535. All padding is 0xAA.
///
/// ```rust
/// let file = write(alloc, &source.tree, source.no_fallback)?; // 56 bytes for `root{}`
/// ```
pub fn write(alloc: Global, tree: &Tree, no_fallback: bool) -> Result<Vec<u8>, AllocError>
    requires { Fits (view_of tree.now) }
    ensures denotes { IfOk result
        (λ f. Denotes f.items (record { tree = view_of tree.now; no_fallback = no_fallback })) }
    ensures front { IfOk result (λ f. take 32 f.items ≡ specified.header no_fallback) }
    ensures end { IfOk result (λ f. length f.items ≡ 32 + 4 * word_at (drop 32 f.items) 4) }
    ensures longest { IfOk result (λ f. word_at (drop 32 f.items) 5 ≡ longest (view_of tree.now)) }
    ensures bytes { IfOk result (λ f. IsWriterFile (view_of tree.now) no_fallback f.items) }
{
    let gathered = gather(alloc, tree)?;
    let file = write_gathered(alloc, tree, gathered, no_fallback)?;
    Ok(file)
}

/// A file that was written, and what a bundle of it needs to know.
#[derive(Drop)]
pub struct Written {
    pub file: Vec<u8>,
    /// The number of arrays and tables with data. None of them is shared.
    pub containers: u32,
    /// The number of units in the longest alias, or 0.
    pub longest_alias: usize,
}

/// Writes a tree of unknown weight, like `write`, or returns `None` if it weighs more than
/// 33,554,432. The walk that gathers the keys also weighs the tree, which saves the walk of `fits`.
///
/// ```rust
/// let written = write_if_light(alloc, &source.tree, source.no_fallback)?;
/// ```
pub fn write_if_light(
    alloc: Global,
    tree: &Tree,
    no_fallback: bool,
) -> Result<Option<Written>, AllocError>
    requires table { kind_of (view_of tree.now) ≡ Kinds.Table }
    requires low { height (view_of tree.now) ≤ 64 }
    ensures fits { IfOk result (λ found. IsSome found ↔ Fits (view_of tree.now)) }
    ensures file { IfOk result
        (λ found. IfSome found (λ w. IsFileOf (view_of tree.now) no_fallback w.file.items)) }
    ensures containers { IfOk result
        (λ found. IfSome found (λ w. w.containers ≡ containers (view_of tree.now))) }
{
    let gathered = gather(alloc, tree)?;
    if gathered.weight > WEIGHT_LIMIT {
        return Ok(None);
    }
    let containers = gathered.containers as u32;
    let longest_alias = gathered.longest_alias;
    let file = write_gathered(alloc, tree, gathered, no_fallback)?;
    Ok(Some(Written {
        file,
        containers,
        longest_alias,
    }))
}
