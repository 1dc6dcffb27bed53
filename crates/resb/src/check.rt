ghost use Rattle.std.specs.Prelude.{◌≡◌, ◌≢◌};
ghost use Rattle.rb_format.specs.File.{Denotes, source_tree_of};
ghost use Rattle.resb.specs.Numbers.{IsFileError};

use crate::numbers::{file_number, or_number};
use rb_validator::check;
use std::alloc::Global;

/// Checks whether bytes are a bundle's file, and returns 0 or the number of the first fault.
#[unsafe(no_mangle)]
pub extern "C" fn resb_check(alloc: Global, bytes: &[u8]) -> u32
    ensures bundle { result ≡ 0 → Denotes bytes.now (source_tree_of bytes.now) }
    ensures fault { result ≢ 0 → IsFileError bytes.now result }
{
    or_number!(check(alloc, bytes) => file_number);
    0
}
