ghost use Rattle.std.specs.Prelude.{◌≡◌, ◌≤◌, ◌++◌, drop, length};
ghost use Rattle.std.specs.List.{list_all};
ghost use Rattle.rb_packages.specs.App.{app_of, is_app_byte as passes};

use std::hash::{Hash, Hasher};
use std::marker::Model;

/// The maximum length of an application's name, in bytes.
pub const APP_LIMIT: usize = 64;

/// The name of an application: 1 to 64 letters, digits, `_`, `-` and `.`, except `ICUDATA`.
#[derive(Clone, Copy)]
pub struct App {
    bytes: [u8; APP_LIMIT],
    len: u8,
}

impl Model for App {
    ghost use Rattle.std.specs.Prelude.{List, ℕ, take};

    ghost Value = { List ℕ };

    ghost use Rattle.rb_packages.specs.inner.AppFields.{IsAppFields, app_fields, app_fields-view};

    ghost view = { λ n. take n.len n.bytes };

    ghost invariant = { IsAppFields };

    ghost inverse = { app_fields };

    ghost inverse_ok = { app_fields-view };
}

impl PartialEq for App {
    ghost use Rattle.std.specs.Prelude.{nat_eq};
    ghost use Rattle.std.proofs.Common.{rules};
    ghost use Rattle.std.specs.Cmp.Lexicographic.{pointwise};
    ghost use Rattle.std.specs.Cmp.Rules.{comparing};

    ghost eq = { pointwise nat_eq };

    ghost laws = { Prim.search (comparing, rules) };

    fn eq(&self, other: &App) -> bool {
        self.as_bytes() == other.as_bytes()
    }
}

impl Eq for App {
    ghost use Rattle.std.proofs.Common.{rules};
    ghost use Rattle.std.specs.Cmp.Rules.{comparing};

    ghost laws = { Prim.search (comparing, rules) };
}

// Hash the bytes in one call: hashing them one by one takes many times as long.
impl Hash for App {
    ghost use Rattle.std.specs.Prelude.{◌∷◌, []};
    ghost use Rattle.std.proofs.Common.{rules};
    ghost use Rattle.std.specs.Cmp.Rules.{hashing};

    ghost hash_input = { λ n. n ∷ [] };

    ghost respects_eq = { Prim.search (hashing, rules) };

    fn hash<H: Hasher>(&self, state: &mut H) {
        state.write(self.as_bytes());
    }
}

/// The reason why bytes aren't an application's name.
#[derive(Clone, Copy, Debug, PartialEq, Eq)]
pub enum AppFault {
    /// The length isn't 1 to 64, or a byte isn't allowed.
    BadApp,
    /// The name is `ICUDATA`, which names the common bundles.
    Reserved,
}

impl App {
    /// Reads an application's name. Allocates nothing.
    pub fn read(bytes: &[u8]) -> Result<App, AppFault>
        ensures { result ≡ app_of bytes.now }
    {
        if bytes.is_empty() || bytes.len() > APP_LIMIT || !are_app_bytes(bytes) {
            return Err(AppFault::BadApp);
        }
        if bytes == b"ICUDATA".as_slice() {
            return Err(AppFault::Reserved);
        }
        let mut field = [0u8; APP_LIMIT];
        put_front(&mut field, bytes);
        Ok(App {
            bytes: field,
            len: bytes.len() as u8,
        })
    }

    pub fn as_bytes(&self) -> &[u8]
        ensures { result.now ≡ self.now }
    {
        &self.bytes[..self.len as usize]
    }
}

fn is_app_byte(b: u8) -> bool
    ensures { result ≡ passes b }
{
    b.is_ascii_alphanumeric() || b == b'_' || b == b'-' || b == b'.'
}

fn are_app_bytes(bytes: &[u8]) -> bool
    ensures { result ≡ list_all passes bytes.now }
{
    bytes.iter().all(|&b| is_app_byte(b))
}

fn put_front(field: &mut [u8], bytes: &[u8])
    requires { length bytes.now ≤ length field.old }
    ensures { field.new ≡ bytes.now ++ drop (length bytes.now) field.old }
{
    field[..bytes.len()].copy_from_slice(bytes);
}
