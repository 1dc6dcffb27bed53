ghost use Rattle.std.specs.Prelude.{◌≡◌, ◌<◌, IsTrue};
ghost use Rattle.rb_format.specs.Attributes as specified;
ghost use Rattle.rb_format.specs.Attributes.{attributes_of, bit};
ghost use Rattle.rb_format.specs.File as files;

use crate::constants::{ATTRIBUTES_INDEX_COUNT, ATTRIBUTES_VERSION};
use crate::place::word_at;

/// The attribute bits of a bundle (`URES_INDEX_ATTRIBUTES` of `uresdata.h`).
#[derive(Clone, Copy, Debug, PartialEq, Eq)]
pub struct Attributes {
    pub bits: u32,
}

impl Attributes {
    /// Reads the attributes; they are 0 before version 1.2 and with fewer than six indexes.
    pub fn of(minor: u8, body: &[u8]) -> Attributes
        requires { IsTrue (files.has_valid_indexes body.now) }
        ensures { result.bits ≡ attributes_of minor body.now }
    {
        let there = ATTRIBUTES_VERSION <= minor && ATTRIBUTES_INDEX_COUNT <= word_at(body, 1);
        Attributes {
            bits: if there { word_at(body, 6) } else { 0 },
        }
    }

    /// Returns true if a lookup stops at the bundle (`URES_ATT_NO_FALLBACK`).
    pub fn no_fallback(self) -> bool
        ensures { result ≡ specified.no_fallback self.bits }
    {
        self.has(0)
    }

    /// Returns true for a pool bundle and for one whose keys are in one (`URES_ATT_IS_POOL_BUNDLE`,
    /// `URES_ATT_USES_POOL_BUNDLE`).
    pub fn has_pool(self) -> bool
        ensures { result ≡ specified.has_pool self.bits }
    {
        self.has(1) || self.has(2)
    }

    fn has(self, i: u32) -> bool
        requires { i < 32 }
        ensures { result ≡ bit i self.bits }
    {
        (self.bits >> i) & 1 == 1
    }
}
