//! Texts of the library that C programs read.
ghost use Rattle.resb.specs.Names.{IsAtText, IsZeroEnded};

use std::ptr::NonNull;

/// Writes to `start` where a text begins.
pub(crate) fn write_start<const N: usize>(text: &'static [u8; N], start: &mut *mut u8)
    requires { IsZeroEnded text.now }
    ensures { IsAtText start.new }
{
    *start = NonNull::from_ref(text).cast::<u8>().as_ptr();
}
