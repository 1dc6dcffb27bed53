ghost use Rattle.std.specs.Prelude.{◌≡◌, ◌≢◌, ◌==◌, ◌<◌, ◌≤◌, ℕ, IsTrue, IfSome, is_some, not};
ghost use Rattle.std.specs.Prelude.{length, position, slice_index};
ghost use Rattle.std.specs.List.{take_while};
ghost use Rattle.std.specs.Ordering.{nat_cmp};
ghost use Rattle.std.specs.Cmp.Lexicographic.{slice_cmp};
ghost use Rattle.rb_format.specs.Place.{key as stored_key, layout_of};

use std::cmp::Ordering;

/// The number of bytes that `skip_same` compares at once.
const BLOCK: usize = 8;

/// Compares a key byte by byte with the key at byte k of the data, up to the first difference.
#[inline(always)]
pub fn compare_key(key: &[u8], body: &[u8], k: u32) -> Ordering
    requires { IsTrue (is_some (stored_key (layout_of body.now) body.now k)) }
    ensures { IfSome (stored_key (layout_of body.now) body.now k)
        (λ stored. result ≡ slice_cmp nat_cmp key.now stored) }
{
    compare_before_nul(key, &body[k as usize..])
}

// Tests all the bytes, also after a difference: without a branch for each byte this becomes vector
// code.
#[inline(always)]
fn is_same(key: &[u8], run: &[u8]) -> bool
    requires { length key.now ≤ length run.now }
    ensures { IsTrue result → (k : ℕ) → k < length key.now
        → (slice_index key.now k ≡ slice_index run.now k) × (slice_index run.now k ≢ 0) }
{
    let mut differs = false;
    for i in 0..key.len() {
        let shared = if key[i] == run[i] { run[i] } else { 0 };
        differs = differs | (shared == 0);
    }
    !differs
}

/// Counts the bytes of the blocks before the first one that differs or has a NUL.
#[inline(always)]
fn skip_same(key: &[u8], run: &[u8]) -> usize
    ensures within { result ≤ length key.now }
    ensures same { (k : ℕ) → k < result
        → (slice_index key.now k ≡ slice_index run.now k) × (slice_index run.now k ≢ 0) }
{
    let shorter = key.len().min(run.len());
    let mut at = 0;
    while BLOCK <= shorter - at && is_same(&key[at..at + BLOCK], &run[at..at + BLOCK]) {
        at += BLOCK;
    }
    at
}

#[inline(always)]
fn compare_before_nul(key: &[u8], run: &[u8]) -> Ordering
    requires { IsTrue (is_some (position (λ b. b == 0) run.now)) }
    ensures { result ≡ slice_cmp nat_cmp key.now (take_while (λ b. not (b == 0)) run.now) }
{
    // Most keys that a search meets differ in their first byte.
    if !key.is_empty() && key[0] != run[0] {
        return key[0].cmp(&run[0]);
    }
    for i in skip_same(key, run)..key.len() {
        let stored = run[i];
        if key[i] != stored {
            return key[i].cmp(&stored);
        }
        if stored == 0 {
            return Ordering::Greater;
        }
    }
    if run[key.len()] == 0 {
        Ordering::Equal
    } else {
        Ordering::Less
    }
}
