ghost use Rattle.std.specs.Prelude.{◌≡◌, ◌≤◌, true, false, take, length, IfOk, MatchOption};
ghost use Rattle.rb_tree.specs.Keys.{IsKey};

use rb_tree::{Key, key_ok};
use std::alloc::{AllocError, Global};

fn ascii_bytes(alloc: Global, units: &[u16]) -> Result<Option<Vec<u8>>, AllocError>
    ensures { IfOk result
        (λ found. MatchOption found (IsKey units.now → ⊥) (λ bytes. bytes.items ≡ units.now)) }
{
    let mut bytes = Vec::with_capacity(alloc, units.len())?;
    for unit in units {
        if *unit >= 0x80 {
            return Ok(None);
        }
        bytes.push(*unit as u8)?;
    }
    Ok(Some(bytes))
}

/// Keys of up to this many units are copied without allocating; most are shorter.
const SHORT: usize = 64;

/// Copies the units if all are below 128. Returns whether they are.
fn copy_ascii(units: &[u16], bytes: &mut [u8]) -> bool
    requires { length units.now ≤ length bytes.old }
    ensures bytes { result ≡ true → take (length units.now) bytes.new ≡ units.now }
    ensures other { result ≡ false → IsKey units.now → ⊥ }
{
    for i in 0..units.len() {
        let unit = units[i];
        if unit >= 0x80 {
            return false;
        }
        bytes[i] = unit as u8;
    }
    true
}

fn key_of(alloc: Global, bytes: &[u8]) -> Result<Option<Key>, AllocError>
    ensures { IfOk result (λ found. MatchOption found (IsKey bytes.now → ⊥)
        (λ key. IsKey bytes.now × (key ≡ bytes.now))) }
{
    if !key_ok(bytes) {
        return Ok(None);
    }
    Ok(Some(Key::copied(alloc, bytes)?))
}

/// Reads a key, or returns None if the units are no key.
pub fn read_key(alloc: Global, units: &[u16]) -> Result<Option<Key>, AllocError>
    ensures { IfOk result (λ found. MatchOption found (IsKey units.now → ⊥)
        (λ key. IsKey units.now × (key ≡ units.now))) }
{
    if units.len() <= SHORT {
        let mut bytes = [0; SHORT];
        if !copy_ascii(units, &mut bytes) {
            return Ok(None);
        }
        return key_of(alloc, &bytes[..units.len()]);
    }
    match ascii_bytes(alloc, units)? {
        Some(bytes) => key_of(alloc, &bytes),
        None => Ok(None),
    }
}
