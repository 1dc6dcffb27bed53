//! Strings as UTF-8.
ghost use Rattle.std.specs.Prelude.{◌≡◌, ◌≢◌, IfNone, IfOk, IfSome, encode_utf8_all, length, take};
ghost use Rattle.std.specs.Prelude.{string_bytes};
ghost use Rattle.std.specs.Char.Utf16.{utf16_lossy_chars};
ghost use Rattle.rb_views.specs.Seen.{units_seen};
ghost use Rattle.rb_handle.specs.Stored.{engine_of};
ghost use Rattle.resb.specs.Looks.{CopiesUtf8, answer_in};
ghost use Rattle.resb.specs.inner.Query.{answer_to};

use crate::lists::copy_bytes;
use crate::looks::{Query, copy_units, with_open};
use crate::numbers::{MEMORY, OTHER_KIND, look_number, or_number};
use rb_engine::Engine;
use rb_handle::Handle;
use rb_views::Units;
use std::alloc::{AllocError, Global};

/// Makes UTF-8 of units, with U+FFFD for a surrogate without its other half.
pub(crate) fn utf8_of(alloc: Global, units: Units<'_>) -> Result<String, AllocError>
    ensures { IfOk result (λ text. string_bytes text
        ≡ encode_utf8_all (utf16_lossy_chars (units_seen units.entry))) }
{
    let mut copy = vec![in alloc; 0; units.len()]?;
    copy_units(units, &mut copy);
    String::from_utf16_lossy(alloc, &copy)
}

fn copy_utf8(
    engine: &Engine,
    alloc: Global,
    query: Query<'_>,
    out: &mut [u8],
    len: &mut usize,
) -> u32
    ensures answer { result ≢ 1 → CopiesUtf8 (answer_to engine.now query.entry) result len.new
        (length out.old) (take len.new out.new) }
    ensures unchanged { result ≢ 0 → out.new ≡ out.old }
{
    let item = or_number!(engine.look(query.app, query.locale, query.path) => look_number).node;
    let Some(units) = item.text() else {
        return OTHER_KIND;
    };
    match utf8_of(alloc, units) {
        Ok(text) => copy_bytes(text.as_bytes(), out, len),
        Err(_) => MEMORY,
    }
}

/// Looks up the string at a path from a locale, and copies it as UTF-8. For a short `out` it writes
/// only the number of bytes.
#[unsafe(no_mangle)]
pub extern "C" fn resb_text_utf8(
    alloc: Global,
    handle: &mut Handle,
    app: &[u8],
    locale: &[u8],
    path: &[u8],
    out: &mut [u8],
    len: &mut usize,
) -> u32
    ensures answer { result ≢ 1 → IfSome (engine_of handle.old) (λ e. CopiesUtf8
        (answer_in e app.now locale.now path.now) result len.new
        (length out.old) (take len.new out.new)) }
    ensures stays { engine_of handle.new ≡ engine_of handle.old }
    ensures unchanged { result ≢ 0 → out.new ≡ out.old }
    ensures closed { IfNone (engine_of handle.old) (result ≡ 2) }
{
    let query = Query { app, locale, path };
    with_open!(alloc, handle, query, engine => copy_utf8(&engine, alloc, query, out, len))
}
