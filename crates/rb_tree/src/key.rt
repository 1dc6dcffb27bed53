ghost use Rattle.std.specs.Prelude.{◌≡◌, ◌≤◌, [], nat_eq, length, IfOk};
ghost use Rattle.std.proofs.Common.{rules};
ghost use Rattle.std.specs.Cmp.{partial_order_from_own_ties};
ghost use Rattle.std.specs.Cmp.Lexicographic.{slice_cmp, pointwise};
ghost use Rattle.std.specs.Cmp.Rules.{comparing};
ghost use Rattle.std.specs.Ordering.{nat_cmp, as_partial_cmp};

use crate::lists::ByteList;
use std::alloc::{AllocError, Global};
use std::cmp::Ordering;
use std::marker::Model;

const IN_PLACE: usize = 30;

/// The bytes of a table's key. Short keys are stored inline: most keys are short, and a heap block
/// for each would cost more than all other work on them.
#[derive(Drop)]
pub struct Key {
    bytes: KeyBytes,
}

#[derive(Drop)]
enum KeyBytes {
    Short(ShortBytes),
    Long(ByteList),
}

#[derive(Clone, Copy)]
struct ShortBytes {
    len: u8,
    bytes: [u8; IN_PLACE],
}

impl Model for Key {
    ghost use Rattle.std.specs.Prelude.{List, ℕ};

    ghost Value = { List ℕ };

    ghost use Rattle.rb_tree.specs.KeyBytes.{bytes_of, IsWithin};

    ghost view = { λ k. bytes_of k.bytes };

    ghost invariant = { λ k. IsWithin k.bytes };
}

impl Key {
    pub(crate) fn empty() -> Key
        ensures { result ≡ [] }
    {
        Key {
            bytes: KeyBytes::Short(ShortBytes {
                len: 0,
                bytes: [0; IN_PLACE],
            }),
        }
    }

    pub fn of(list: ByteList) -> Key
        ensures { result ≡ list }
    {
        if list.as_slice().len() > IN_PLACE {
            return Key {
                bytes: KeyBytes::Long(list),
            };
        }
        Key::short(list.as_slice())
    }

    /// Copies the bytes; allocates only for more than 30. `Err` means out of memory.
    pub fn copied(alloc: Global, bytes: &[u8]) -> Result<Key, AllocError>
        ensures { IfOk result (λ key. key ≡ bytes.now) }
    {
        if bytes.len() > IN_PLACE {
            let bytes = bytes.to_vec(alloc)?;
            return Ok(Key::of(ByteList::from_vec(bytes)));
        }
        Ok(Key::short(bytes))
    }

    fn short(list: &[u8]) -> Key
        requires { length list.now ≤ 30 }
        ensures { result ≡ list.now }
    {
        let mut bytes = [0; IN_PLACE];
        bytes[..list.len()].copy_from_slice(list);
        let len = list.len() as u8;
        Key {
            bytes: KeyBytes::Short(ShortBytes { len, bytes }),
        }
    }

    pub fn as_slice(&self) -> &[u8]
        ensures { result.now ≡ self.now }
    {
        match &self.bytes {
            KeyBytes::Short(short) => &short.bytes[..short.len as usize],
            KeyBytes::Long(list) => list.as_slice(),
        }
    }
}

impl PartialEq for Key {
    ghost eq = { pointwise nat_eq };

    ghost laws = { Prim.search (comparing, rules) };

    fn eq(&self, other: &Key) -> bool {
        self.as_slice() == other.as_slice()
    }
}

impl Eq for Key {
    ghost laws = { Prim.search (comparing, rules) };
}

impl Ord for Key {
    ghost cmp = { slice_cmp nat_cmp };

    ghost total = { Prim.search (comparing, rules) };

    ghost matches_partial_cmp = { Prim.search (comparing, rules) };

    ghost matches_eq = { Prim.search (comparing, rules) };

    fn cmp(&self, other: &Key) -> Ordering {
        self.as_slice().cmp(other.as_slice())
    }
}

impl PartialOrd for Key {
    ghost partial_cmp = { as_partial_cmp (slice_cmp nat_cmp) };

    ghost laws = { partial_order_from_own_ties (Prim.search (comparing, rules)) (Prim.search (comparing, rules)) };

    fn partial_cmp(&self, other: &Key) -> Option<Ordering> {
        Some(self.cmp(other))
    }
}
