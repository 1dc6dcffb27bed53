//! A path that aliases replace from its front.
ghost use Rattle.std.specs.Prelude.{◌≡◌, ◌≤◌, ◌<◌, ◌+◌, length, drop, true, false, IfNone, IfSome};
ghost use Rattle.std.specs.Bool.{OnTrue};
ghost use Rattle.std.specs.List.{list_all};
ghost use Rattle.rb_tree.specs.Parts.{HasUnits, kind_of, len_of, units_of};
ghost use Rattle.rb_tree.specs.Walk.{behind};
ghost use Rattle.rb_fallback.specs.Alias.{is_plain};
ghost use Rattle.rb_fallback.specs.AliasPaths.{joined_path};
ghost use Rattle.rb_fallback.specs.Limits.{path_limit};

use crate::limits::PATH_LIMIT;
use crate::path::rest_behind;
use rb_tree::Node;
use std::marker::Model;

/// Stores a path at the end of its bytes: what remains of it after an alias stays in place, and the
/// path of the alias is written before it.
#[derive(Drop)]
pub(crate) struct PathBuffer {
    bytes: [u8; PATH_LIMIT],
    from: usize,
}

impl Model for PathBuffer {
    ghost use Rattle.std.specs.Prelude.{◌≤◌, drop, List, ℕ};

    ghost Value = { List ℕ };

    ghost view = { λ p. drop p.from p.bytes };

    ghost invariant = { λ p. p.from ≤ 1024 };
}

/// Fills a field with a node's units from `at` on.
#[tactic(auto, using(crate::proofs::PathBuffers::filled, crate::proofs::AppendedUnits::plain_low))]
fn fill_units<N: Node>(field: &mut [u8], node: N, at: usize, len: usize)
    requires units { HasUnits (kind_of (N.tree node)) }
    requires plain { list_all is_plain (units_of (N.tree node)) ≡ true }
    requires len { len ≡ len_of (N.tree node) }
    requires all { at + length field.old ≡ len }
    ensures { field.new ≡ drop at (units_of (N.tree node)) }
{
    for i in 0..field.len() {
        field[i] = node.unit(at + i) as u8;
    }
}

/// Writes a node's units from `at` on to the end of a field, and returns where they begin, if they
/// fit.
fn put_units<N: Node>(field: &mut [u8], node: N, at: usize) -> Option<usize>
    requires units { HasUnits (kind_of (N.tree node)) }
    requires plain { list_all is_plain (units_of (N.tree node)) ≡ true }
    requires within { at ≤ len_of (N.tree node) }
    ensures some { IfSome result (λ from. (from ≤ length field.old)
        × (drop from field.new ≡ drop at (units_of (N.tree node)))) }
    ensures none { IfNone result (length field.old < length (drop at (units_of (N.tree node)))) }
    ensures room { length field.new ≡ length field.old }
{
    let len = node.len();
    let count = len - at;
    if field.len() < count {
        return None;
    }
    let from = field.len() - count;
    fill_units(&mut field[from..], node, at, len);
    Some(from)
}

impl PathBuffer {
    pub(crate) fn of(path: &[u8]) -> PathBuffer
        requires { length path.now ≤ path_limit }
        ensures { result ≡ path.now }
    {
        let from = PATH_LIMIT - path.len();
        let mut buffer = PathBuffer {
            bytes: [0; PATH_LIMIT],
            from,
        };
        buffer.bytes[from..].copy_from_slice(path);
        buffer
    }

    pub(crate) fn as_slice(&self) -> &[u8]
        ensures path { result.now ≡ self.now }
        ensures short { length self.now ≤ path_limit }
    {
        &self.bytes[self.from..]
    }

    /// Removes the first `cut` bytes and the slash that follows them.
    pub(crate) fn cut_front(&mut self, cut: usize)
        ensures { self.new ≡ drop (behind cut) self.old }
    {
        let left = rest_behind(self.as_slice(), cut).len();
        self.from = PATH_LIMIT - left;
    }

    /// Stores the path in an alias's text in place of an empty one, and returns true, if it is
    /// short enough.
    fn put_alone<N: Node>(&mut self, node: N, at: usize) -> bool
        requires units { HasUnits (kind_of (N.tree node)) }
        requires plain { list_all is_plain (units_of (N.tree node)) ≡ true }
        requires within { at ≤ len_of (N.tree node) }
        ensures fits { OnTrue result (self.new ≡ drop at (units_of (N.tree node))) }
        ensures long { result ≡ false → path_limit < length (drop at (units_of (N.tree node))) }
    {
        match put_units(&mut self.bytes, node, at) {
            Some(from) => {
                self.from = from;
                true
            }
            None => false,
        }
    }

    /// Puts the path in an alias's text before this one, and returns true, if the result is short
    /// enough. Otherwise this one stays.
    #[tactic(auto, using(crate::proofs::PathBuffers::before_rest, crate::proofs::PathBuffers::joined_none))]
    pub(crate) fn put_before<N: Node>(&mut self, node: N, at: usize) -> bool
        requires units { HasUnits (kind_of (N.tree node)) }
        requires plain { list_all is_plain (units_of (N.tree node)) ≡ true }
        requires within { at ≤ len_of (N.tree node) }
        ensures fits { OnTrue result
            (self.new ≡ joined_path (drop at (units_of (N.tree node))) self.old) }
        ensures long { result ≡ false
            → path_limit < length (joined_path (drop at (units_of (N.tree node))) self.old) }
    {
        if self.from >= PATH_LIMIT {
            return self.put_alone(node, at);
        }
        if self.from == 0 {
            return false;
        }
        let past = self.from - 1;
        self.bytes[past] = b'/';
        match put_units(&mut self.bytes[..past], node, at) {
            Some(from) => {
                self.from = from;
                true
            }
            None => false,
        }
    }
}
