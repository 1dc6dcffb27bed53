ghost use Rattle.std.specs.Prelude.{◌≡◌, IfOk, map};
ghost use Rattle.std.specs.List.Sorted.{IsPermutation, IsSorted};
ghost use Rattle.std.specs.Ordering.{nat_cmp, ordering_then};
ghost use Rattle.std.specs.Cmp.Lexicographic.{slice_cmp};
ghost use Rattle.rb_tree.specs.Resource.{Resource};
ghost use Rattle.rb_writer.specs.inner.Collected.{GathersKeys, names};

use crate::gather::Gathered;
use rb_tree::key_head;
use std::alloc::{AllocError, Global};

/// A key with its first bytes, for sorting, and the index at which it was gathered.
#[derive(Clone, Copy, PartialEq, Eq, PartialOrd, Ord)]
struct Headed<'a> {
    head: u64,
    id: u32,
    key: &'a [u8],
}

/// Sorts the keys by their first bytes, which orders most of them completely without a look at the
/// other bytes. The full sort after it then compares each key about once.
fn by_heads<'a>(alloc: Global, keys: &[&'a [u8]]) -> Result<Vec<Headed<'a>>, AllocError>
    ensures { IfOk result (λ v. IsPermutation keys.now (map (λ h. h.key) v.items)) }
{
    let mut found = Vec::with_capacity(alloc, keys.len())?;
    for i in 0..keys.len() {
        let key = keys[i];
        let id = u32::try_from(i).unwrap_or(u32::MAX);
        found.push(Headed {
            head: key_head(key),
            id,
            key,
        })?;
    }
    found.sort_unstable();
    Ok(found)
}

fn numbered<'a>(alloc: Global, found: &[Headed<'a>]) -> Result<Vec<(&'a [u8], u32)>, AllocError>
    ensures { IfOk result (λ v. v.items ≡ map (λ h. (h.key, h.id)) found.now) }
{
    found
        .iter()
        .map(|headed| (headed.key, headed.id))
        .collect(alloc)
}

/// Returns the keys in ascending order, each with the index at which it was gathered.
pub fn sorted_keys<'a>(
    alloc: Global,
    gathered: &Gathered<'a>,
) -> Result<Vec<(&'a [u8], u32)>, AllocError>
    ensures keys { IfOk result (λ v. (t : Resource) → GathersKeys t gathered.now.keys.items
        → GathersKeys t (names v.items)) }
    ensures ascending { IfOk result (λ v. IsSorted
        (λ a b. ordering_then (slice_cmp nat_cmp a.0.now b.0.now) (nat_cmp a.1 b.1)) v.items) }
{
    let found = by_heads(alloc, &gathered.keys)?;
    let mut ascending = numbered(alloc, &found)?;
    drop(found);
    ascending.sort()?;
    Ok(ascending)
}
