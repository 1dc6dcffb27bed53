//! A short path that is stored.
ghost use Rattle.std.specs.Prelude.{◌≡◌, ◌≤◌, ◌++◌, IfSome, drop, length};
ghost use Rattle.rb_tree.specs.Path.{IsPath};

use rb_tree::path_ok;
use std::marker::Model;

/// The most bytes of a path that is stored.
pub(crate) const PATH_ROOM: usize = 96;

/// A path of at most 96 bytes.
#[derive(Clone, Copy)]
pub(crate) struct KeptPath {
    bytes: [u8; PATH_ROOM],
    len: u8,
}

impl Model for KeptPath {
    ghost use Rattle.std.specs.Prelude.{List, ℕ, take};
    ghost use Rattle.rb_engine.specs.inner.PathFields.{ArePathFields, path_fields, path_fields-view};

    ghost Value = { List ℕ };

    ghost view = { λ p. take p.len p.bytes };

    ghost invariant = { ArePathFields };

    ghost inverse = { path_fields };

    ghost inverse_ok = { path_fields-view };
}

fn put_front(field: &mut [u8], bytes: &[u8])
    requires { length bytes.now ≤ length field.old }
    ensures { field.new ≡ bytes.now ++ drop (length bytes.now) field.old }
{
    field[..bytes.len()].copy_from_slice(bytes);
}

impl KeptPath {
    /// Stores a path, or returns `None` if the bytes are no path, or too many.
    pub(crate) fn of(path: &[u8]) -> Option<KeptPath>
        ensures { IfSome result (λ kept. kept ≡ path.now) }
    {
        if path.len() > PATH_ROOM || !path_ok(path) {
            return None;
        }
        let mut bytes = [0u8; PATH_ROOM];
        put_front(&mut bytes, path);
        Some(KeptPath {
            bytes,
            len: path.len() as u8,
        })
    }

    pub(crate) fn as_slice(&self) -> &[u8]
        ensures bytes { result.now ≡ self.now }
        ensures path { IsPath self.now }
    {
        &self.bytes[..self.len as usize]
    }
}
