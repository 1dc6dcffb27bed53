ghost use Rattle.std.specs.Prelude.{IsTrue, IfOk, IfSome};
ghost use Rattle.rb_tree.specs.Table.{keys_in};
ghost use Rattle.rb_tree.specs.inner.Arranged.{AreNumbered, Rise, IsOrder, AreArranged};

use crate::key::Key;
use crate::lists::UnitList;
use crate::path::key_head;
use crate::tree::{Entry, Tree};
use std::alloc::{AllocError, Global};
use std::cmp::Ordering;
use std::mem;

/// A key and its index among the pairs. `head` comes first so that most comparisons are decided
/// without reading the key's own memory; whole keys decide the rest.
#[derive(Clone, Copy, PartialEq, Eq, PartialOrd, Ord)]
struct Numbered<'a> {
    head: u64,
    key: &'a [u8],
    index: usize,
}

fn with_indices(alloc: Global, pairs: &[(Key, Tree)]) -> Result<Vec<Numbered<'_>>, AllocError>
    ensures { IfOk result (λ v. AreNumbered (keys_in pairs.now) v.items) }
{
    let mut numbered = Vec::with_capacity(alloc, pairs.len())?;
    for index in 0..pairs.len() {
        let key = pairs[index].0.as_slice();
        let head = key_head(key);
        numbered.push(Numbered { head, key, index })?;
    }
    Ok(numbered)
}

fn rise(keys: &[Numbered<'_>]) -> bool
    ensures { IsTrue result → Rise keys.now }
{
    for i in 1..keys.len() {
        match keys[i - 1].key.cmp(keys[i].key) {
            Ordering::Less => {}
            _ => return false,
        }
    }
    true
}

/// Sorts the indices of the pairs by key, or returns None if a key repeats.
pub fn order_of(alloc: Global, pairs: &[(Key, Tree)]) -> Result<Option<Vec<usize>>, AllocError>
    ensures { IfOk result (λ found. IfSome found (λ order. IsOrder (keys_in pairs.now) order.items)) }
{
    let mut keys = with_indices(alloc, pairs)?;
    keys.sort_unstable();
    if !rise(&keys) {
        return Ok(None);
    }
    let order = keys.iter().map(|key| key.index).collect(alloc)?;
    Ok(Some(order))
}

pub fn arranged(
    alloc: Global,
    pairs: Vec<(Key, Tree)>,
    order: &[usize],
) -> Result<Vec<Entry>, AllocError>
    requires { IsOrder (keys_in pairs.items) order.now }
    ensures { IfOk result (λ entries. AreArranged pairs.items order.now entries.items) }
{
    let mut pairs = pairs;
    let mut entries = Vec::with_capacity(alloc, order.len())?;
    for index in order {
        let nothing = (Key::empty(), Tree::String(UnitList::new(alloc)));
        let (key, tree) = mem::replace(&mut pairs[*index], nothing);
        entries.push(Entry { key, tree })?;
    }
    Ok(entries)
}
