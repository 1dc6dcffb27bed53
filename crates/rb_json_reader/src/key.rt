ghost use Rattle.std.specs.Prelude.{◌≡◌, false, IfOk, IfSome};
ghost use Rattle.rb_tree.specs.Keys.{IsKey};
ghost use Rattle.rb_json.specs.Value.{key_text, with_colon};
ghost use Rattle.rb_json_reader.specs.inner.Name.{is_tag};

use rb_tree::{Key, key_ok};
use std::alloc::{AllocError, Global};

/// Checks whether a member's name begins with exactly one colon, so that it is a tag.
pub(crate) fn is_tag(name: &[u8]) -> bool
    ensures { result ≡ is_tag name.now }
{
    match name {
        [b':', b':', ..] => false,
        [b':', ..] => true,
        _ => false,
    }
}

/// Drops the colon that a key has more if it begins with one.
pub(crate) fn without_colon(name: &[u8]) -> &[u8]
    requires { is_tag name.now ≡ false }
    ensures { with_colon result.now ≡ name.now }
{
    match name {
        [b':', rest @ ..] => rest,
        _ => name,
    }
}

/// Reads the key of a member that is no tag, or returns None if it is no key of a table.
#[tactic(auto, using(crate::proofs::Names::key_text_is))]
pub(crate) fn read_key(alloc: Global, name: &[u8]) -> Result<Option<Key>, AllocError>
    requires { is_tag name.now ≡ false }
    ensures { IfOk result (λ found. IfSome found
        (λ key. IsKey key × (key_text key ≡ name.now))) }
{
    let key = without_colon(name);
    if !key_ok(key) {
        return Ok(None);
    }
    Ok(Some(Key::copied(alloc, key)?))
}
