//! Compares a key with the previous one byte by byte. All compared bytes are counted here.
ghost use Rattle.std.specs.Prelude.{◌≡◌, ℕ, ◌+◌, ◌*◌, ◌≤◌, ◌<◌, ◌==◌, ◌^◌, length, take, IfSome};
ghost use Rattle.std.specs.List.{common_prefix_len};
ghost use Rattle.rb_format.specs.inner.FirstFault.{result_map, next_key};
ghost use Rattle.rb_format.specs.Place.{key as key_at};
ghost use Rattle.std.specs.Ordering.{is_lt, nat_cmp};
ghost use Rattle.std.specs.Cmp.Lexicographic.{slice_cmp};
ghost use Rattle.rb_validator.specs.inner.Compared.{examined};

use crate::body::{Body, Checked};
use rb_format::{FileFault, key_within};

/// Checks whether a is below b. Counts all of b, since it was read to find its end.
#[inline(always)]
fn is_below(a: &[u8], b: &[u8], compared: &mut u64) -> bool
    requires room { compared.old + length b.now < 2 ^ 64 }
    ensures below { result ≡ is_lt (slice_cmp nat_cmp a.now b.now) }
    ensures counted { compared.old + examined a.now b.now ≤ compared.new }
    ensures most { compared.new ≤ compared.old + length b.now }
{
    *compared += b.len() as u64;
    a.cmp(b).is_lt()
}

/// Counts the bytes in common before the first 32 that differ.
pub fn count_same(a: &[u8], b: &[u8]) -> usize
    ensures first { result ≤ length a.now }
    ensures second { result ≤ length b.now }
    ensures same { take result a.now ≡ take result b.now }
{
    let pieces = a.len().min(b.len()) / 32;
    for piece in 0..pieces {
        let from = 32 * piece;
        if a[from..from + 32] != b[from..from + 32] {
            return from;
        }
    }
    32 * pieces
}

fn count_common(a: &[u8], b: &[u8]) -> usize
    ensures common { result ≡ common_prefix_len (λ x y. x == y) a.now b.now }
    ensures first { result ≤ length a.now }
    ensures second { result ≤ length b.now }
{
    let shorter = a.len().min(b.len());
    for i in count_same(a, b)..shorter {
        if a[i] != b[i] {
            return i;
        }
    }
    shorter
}

/// Checks whether a is below b. Counts only the bytes that are read.
pub fn is_closely_below(a: &[u8], b: &[u8], compared: &mut u64) -> bool
    requires room { compared.old + length b.now < 2 ^ 64 }
    ensures below { result ≡ is_lt (slice_cmp nat_cmp a.now b.now) }
    ensures counted { compared.new ≡ compared.old + examined a.now b.now }
{
    let common = count_common(a, b);
    let looked = (common + 1).min(a.len()).min(b.len());
    *compared += looked as u64;
    a[common..].cmp(&b[common..]).is_lt()
}

/// Returns the key at an offset, or a fault if it isn't above the last key.
#[tactic(auto, unfolding(rb_format::specs::inner::FirstFault::next_key))]
#[inline(always)]
pub fn next_key<'a>(
    body: Body<'a>,
    last: &[u8],
    offset: u32,
    compared: &mut u64,
) -> Checked<&'a [u8]>
    requires keys { 4 * body.layout.now.keys_top ≤ length body.bytes.now }
    requires room { compared.old + length body.bytes.now < 2 ^ 64 }
    ensures value { result_map (λ k. k.now) result
        ≡ next_key body.entry.layout.now body.entry.bytes.now last.now offset }
    ensures counted { IfSome (key_at body.entry.layout.now body.entry.bytes.now offset)
        (λ k. compared.old + examined last.now k ≤ compared.new) }
    ensures most { compared.new ≤ compared.old + length body.entry.bytes.now }
{
    match key_within(body.layout, body.bytes, offset) {
        Some(key) if is_below(last, key, compared) => Ok(key),
        Some(_) => Err(FileFault::KeyOrder),
        None => Err(FileFault::Key),
    }
}
