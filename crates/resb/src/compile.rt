ghost use Rattle.std.specs.Prelude.{◌≡◌, ◌≢◌, take, drop};
ghost use Rattle.rb_compiler.specs.Compiled.{IsCompiled};
ghost use Rattle.resb.specs.Texts.{IsTextError, IsTooLong};

use crate::numbers::{NO_ROOM, text_number};
use rb_engine::compile;
use std::alloc::Global;

/// Writes the file of a text to the front of `out`, and its length to `written`. For a text with an
/// error it writes the line to `line`; for a short `out` only the length that the file has.
#[unsafe(no_mangle)]
pub extern "C" fn resb_compile(
    alloc: Global,
    text: &[u8],
    out: &mut [u8],
    written: &mut usize,
    line: &mut u64,
) -> u32
    ensures compiled { result ≡ 0 → IsCompiled text.now (take written.new out.new) }
    ensures beyond { result ≡ 0 → drop written.new out.new ≡ drop written.new out.old }
    ensures line { result ≡ 0 → line.new ≡ 0 }
    ensures unchanged { result ≢ 0 → out.new ≡ out.old }
    ensures room { result ≡ 5 → IsTooLong text.now written.new out.old }
    ensures refused { result ≢ 0 → result ≢ 5 → IsTextError text.now result line.new }
{
    match compile(alloc, text) {
        Ok(file) => {
            *written = file.len();
            *line = 0;
            if file.len() > out.len() {
                return NO_ROOM;
            }
            out[..file.len()].copy_from_slice(&file);
            0
        }
        Err(fault) => {
            *written = 0;
            *line = fault.line;
            text_number(fault.kind)
        }
    }
}
