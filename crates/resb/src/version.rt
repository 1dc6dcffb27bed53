ghost use Rattle.resb.specs.Names.{IsAtText};

use crate::text::write_start;

/// Writes to `start` where the library's version begins: bytes of the library with a zero byte at
/// the end, which never change.
#[unsafe(no_mangle)]
pub extern "C" fn resb_get_version(start: &mut *mut u8)
    ensures { IsAtText start.new }
{
    // tools/release writes the version here.
    write_start(b"1.1.0\0", start)
}
