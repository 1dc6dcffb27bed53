//! Links over a list of key offsets. The link of index p is an index q such that the offsets p to q
//! are those of ascending keys; 0 says nothing.
ghost use Rattle.std.specs.Prelude.{◌≡◌, ℕ, ◌+◌, ◌-◌, slice_index, IfOk};
ghost use Rattle.rb_validator.specs.inner.KnownKeys.{IsRedirected};

use crate::lists::number_at;
use std::alloc::{AllocError, Global};

pub fn no_links(alloc: Global, count: usize) -> Result<Vec<u32>, AllocError>
    ensures { IfOk result (λ v. (n : ℕ) → slice_index v.items n ≡ 0) }
{
    vec![in alloc; 0u32; count]
}

/// Counts how far the link of index `first + skip` leads.
pub fn count_linked(links: &[u32], first: usize, skip: usize) -> usize
    ensures { result ≡ slice_index links.now (first + skip) - (first + skip) }
{
    match first.checked_add(skip) {
        Some(place) => (number_at(links, place) as usize).saturating_sub(place),
        None => 0,
    }
}

/// Links `count` indexes from `first` on. Redirects all links on the way to the end, so that no way
/// is followed twice.
pub fn link(links: &mut [u32], first: usize, count: usize)
    ensures { (p : ℕ) → IsRedirected links.old links.new first (first + count) p }
{
    let Some(to) = first.checked_add(count) else {
        return;
    };
    let Ok(end) = u32::try_from(to) else {
        return;
    };
    let mut place = first;
    while place < to {
        let known = count_linked(links, place, 0);
        if place < links.len() {
            links[place] = end;
        }
        place = place.saturating_add(known.max(1));
    }
}
