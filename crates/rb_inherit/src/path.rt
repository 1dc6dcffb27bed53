//! Paths of segments with a zero byte between them, since a key of a table may have slashes.
ghost use Rattle.std.specs.Prelude.{◌≡◌, ◌++◌, IfOk, map, option_map};
ghost use Rattle.std.specs.List.{position_or_len};
ghost use Rattle.rb_tree.specs.Parts.{HasUnits, kind_of};
ghost use Rattle.rb_tree.specs.Path.{index_within};
ghost use Rattle.rb_tree.specs.Walk.{enter, walk};
ghost use Rattle.rb_inherit.specs.inner.Paths.{AreFilled, EndsAt, IsEnd, is_separator};
ghost use Rattle.rb_inherit.specs.inner.Paths.{separated, steps_of};

use rb_tree::{Kind, Node};
use std::alloc::AllocError;

/// The byte between two segments.
pub(crate) const SEPARATOR: u8 = 0;

/// The end of a walk.
#[derive(Clone, Copy)]
pub(crate) enum Walked<N> {
    /// At a tree.
    End(N),
    /// At an alias, with the number of the path's bytes that lead beyond it.
    Link(N, usize),
    /// Nowhere.
    Gone,
}

/// Returns the byte of a path that stands for one of a text with slashes.
fn separated(byte: u8) -> u8
    ensures { result ≡ separated byte }
{
    if byte == b'/' { SEPARATOR } else { byte }
}

/// Appends a path with slashes. Returns an error if memory runs out.
pub(crate) fn push_text(path: &mut Vec<u8>, text: &[u8]) -> Result<(), AllocError>
    ensures { IfOk result (λ _. path.new.items ≡ path.old.items ++ map separated text.now) }
{
    for byte in text {
        path.push(separated(*byte))?;
    }
    Ok(())
}

/// Appends the units of an alias from `at` on, which are plain ASCII. Returns an error if memory
/// runs out.
pub(crate) fn push_units<N: Node>(path: &mut Vec<u8>, node: N, at: usize) -> Result<(), AllocError>
    requires { HasUnits (kind_of (N.tree node)) }
{
    for i in at..node.len() {
        let byte = u8::try_from(node.unit(i)).unwrap_or(b'?');
        path.push(separated(byte))?;
    }
    Ok(())
}

/// Counts the segments of a path.
pub(crate) fn segment_count(path: &[u8]) -> u64 {
    if path.is_empty() {
        return 0;
    }
    1 + path.iter().filter(|byte| **byte == SEPARATOR).count() as u64
}

/// Returns the length of the first segment.
#[tactic(auto, using(std::proofs::lemmas::List::Sums::position_or_len_is))]
fn segment_len(path: &[u8]) -> usize
    ensures { result ≡ position_or_len is_separator path.now }
{
    for (i, byte) in path.iter().enumerate() {
        if *byte == SEPARATOR {
            return i;
        }
    }
    path.len()
}

/// Parses a segment as an index below `len`, in decimal without leading zeros.
#[tactic(auto, using(rb_tree::proofs::Decimals::index_rules))]
fn index_of(segment: &[u8], len: usize) -> Option<usize>
    ensures { result ≡ index_within len segment.now }
{
    if segment.is_empty() || (segment[0] == b'0' && segment.len() > 1) {
        return None;
    }
    let mut value: u128 = 0;
    for &byte in segment {
        if byte < b'0' || byte > b'9' || value >= len as u128 {
            return None;
        }
        value = 10 * value + (byte - b'0') as u128;
    }
    if value < len as u128 {
        Some(value as usize)
    } else {
        None
    }
}

/// Returns the child to which a segment leads.
#[tactic(auto, using(rb_tree::proofs::Walks::entering))]
fn enter<N: Node>(node: N, segment: &[u8]) -> Option<N>
    ensures { option_map N.tree result ≡ enter segment.now (N.tree node) }
{
    match node.kind() {
        Kind::Table => node.child(segment),
        Kind::Array => match index_of(segment, node.len()) {
            Some(i) => Some(node.at(i)),
            None => None,
        },
        _ => None,
    }
}

/// Walks from a node along a path. The walk ends at the first alias, even if segments remain.
pub(crate) fn walk_on<N: Node>(node: N, path: &[u8]) -> Walked<N>
    ensures is { IsEnd N.tree result }
    ensures ends { AreFilled (steps_of path.now)
        → EndsAt N.tree path.now result (walk (N.tree node) (steps_of path.now)) }
{
    let mut here = node;
    let mut at = 0;
    'segments: loop {
        if let Kind::Alias = here.kind() {
            return Walked::Link(here, path.len().saturating_sub(at));
        }
        if at >= path.len() {
            return Walked::End(here);
        }
        let rest = &path[at..];
        let len = segment_len(rest);
        match enter(here, &rest[..len]) {
            Some(child) => here = child,
            None => return Walked::Gone,
        }
        at += len + 1;
    }
}
