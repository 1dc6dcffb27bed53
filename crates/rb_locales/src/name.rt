ghost use Rattle.std.specs.Prelude.{◌≡◌, ◌≤◌, ◌++◌, ◌↔◌, ◌-◌, Some, length, drop, take, codes};
ghost use Rattle.std.specs.Prelude.{IfOk};
ghost use Rattle.std.specs.Result.{result_ok};
ghost use Rattle.std.specs.List.{position_or_len};
ghost use Rattle.rb_locales.specs.Locale.{name, shorter, is_at};
ghost use Rattle.rb_locales.specs.inner.LastUnderscore.{IsLastIndex};

use crate::casing::{Position, write_parts};
use crate::fault::BadLocale;
use crate::limits::NAME_LIMIT;
use std::marker::Model;

/// The canonical name of a locale, at most 64 bytes, stored inline.
#[derive(Clone, Copy, Debug)]
pub struct Name {
    bytes: [u8; NAME_LIMIT],
    len: u8,
}

impl Model for Name {
    ghost use Rattle.std.specs.Prelude.{List, ℕ, take};

    ghost Value = { List ℕ };

    ghost use Rattle.rb_locales.specs.inner.NameFields.{IsNameFields, name_fields};
    ghost use Rattle.rb_locales.specs.inner.NameFields.{name_fields-view};

    ghost view = { λ n. take n.len n.bytes };

    ghost invariant = { IsNameFields };

    ghost inverse = { name_fields };

    ghost inverse_ok = { name_fields-view };
}

fn put_front(field: &mut [u8], bytes: &[u8])
    requires { length bytes.now ≤ length field.old }
    ensures { field.new ≡ bytes.now ++ drop (length bytes.now) field.old }
{
    field[..bytes.len()].copy_from_slice(bytes);
}

#[tactic(auto, using(std::proofs::lemmas::List::Sums::position_or_len_is))]
fn name_end(bytes: &[u8]) -> usize
    ensures first { result ≡ position_or_len is_at bytes.now }
    ensures within { result ≤ length bytes.now }
{
    for (i, b) in bytes.iter().enumerate() {
        if *b == b'@' {
            return i;
        }
    }
    bytes.len()
}

impl Name {
    pub fn root() -> Name
        ensures { result ≡ codes "root" }
    {
        let mut field = [0u8; NAME_LIMIT];
        put_front(&mut field, b"root");
        Name {
            bytes: field,
            len: 4,
        }
    }

    /// Converts a locale identifier to its canonical name (a profile of UTS #35): `de-at@x=y` is
    /// `de_AT`.
    ///
    /// The first `@` and all bytes after it are ignored, and the empty name is `root`. Returns
    /// `BadLocale` if the text isn't a name or has more than 64 bytes before the `@`.
    ///
    /// ```rust
    /// let name = Name::read(b"ZH-hant-tw@x=y")?; // zh_Hant_TW
    /// name.shorter() // zh_Hant
    /// ```
    #[tactic(auto, using(crate::proofs::Canonical::own_name))]
    pub fn read(bytes: &[u8]) -> Result<Name, BadLocale>
        ensures name { result_ok result ≡ name bytes.now }
        // Reading a canonical name returns it unchanged.
        ensures canonical { IfOk result (λ n. name n ≡ Some n) }
    {
        let end = name_end(bytes);
        if end == 0 {
            return Ok(Name::root());
        }
        if end > NAME_LIMIT {
            return Err(BadLocale);
        }
        let mut field = [0u8; NAME_LIMIT];
        put_front(&mut field, &bytes[..end]);
        if !write_parts(Position::First, &mut field[..end]) {
            return Err(BadLocale);
        }
        Ok(Name {
            bytes: field,
            len: end as u8,
        })
    }

    #[tactic(auto, using(crate::proofs::Canonical::own_name))]
    pub fn as_bytes(&self) -> &[u8]
        ensures bytes { result.now ≡ self.now }
        ensures canonical { name self.now ≡ Some self.now }
        ensures short { length self.now ≤ 64 }
    {
        &self.bytes[..self.len as usize]
    }

    /// Returns the name without its last part, or `None` if it has only one part.
    pub fn shorter(&self) -> Option<Name>
        ensures { result ≡ shorter self.now }
    {
        let len = self.len as usize;
        let bytes = &self.bytes[..len];
        let end = match last_underscore(bytes) {
            Some(end) => end,
            None => return None,
        };
        let mut field = [0u8; NAME_LIMIT];
        put_front(&mut field, &bytes[..end]);
        Some(Name {
            bytes: field,
            len: end as u8,
        })
    }
}

fn last_underscore(bytes: &[u8]) -> Option<usize>
    ensures { IsLastIndex bytes.now result }
{
    let mut end = bytes.len();
    while end > 0 {
        end -= 1;
        if bytes[end] == b'_' {
            return Some(end);
        }
    }
    None
}
