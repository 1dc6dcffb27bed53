//! Exports that return the files of bundles.
ghost use Rattle.std.specs.Prelude.{◌≡◌, ◌≢◌, IfNone, IfSome, length, take};
ghost use Rattle.rb_handle.specs.Stored.{engine_of};
ghost use Rattle.resb.specs.Exports.{Exports};

use crate::held::with_engine;
use crate::lists::copy_bytes;
use crate::numbers::{BAD_LOCALE, app_number, or_number};
use rb_engine::{App, Engine};
use rb_handle::Handle;
use rb_locales::Name;
use std::alloc::Global;

/// The application has no bundle with the name.
const ABSENT: u32 = 17;

fn export_in(engine: &Engine, app: &[u8], locale: &[u8], out: &mut [u8], len: &mut usize) -> u32
    ensures file { Exports engine.now app.now locale.now result len.new
        (length out.old) (take len.new out.new) }
    ensures unchanged { result ≢ 0 → out.new ≡ out.old }
{
    let app = or_number!(App::read(app) => app_number);
    let Ok(name) = Name::read(locale) else {
        return BAD_LOCALE;
    };
    match engine.bundle(&app, &name) {
        Some(bundle) => copy_bytes(bundle.bytes(), out, len),
        None => ABSENT,
    }
}

/// Copies the file of an application's bundle, and writes its length. For a short `out` it writes
/// only the length.
#[unsafe(no_mangle)]
pub extern "C" fn resb_export(
    alloc: Global,
    handle: &mut Handle,
    app: &[u8],
    locale: &[u8],
    out: &mut [u8],
    len: &mut usize,
) -> u32
    ensures stays { engine_of handle.new ≡ engine_of handle.old }
    ensures file { IfSome (engine_of handle.old) (λ e. Exports e app.now locale.now result len.new
        (length out.old) (take len.new out.new)) }
    ensures unchanged { result ≢ 0 → out.new ≡ out.old }
    ensures closed { IfNone (engine_of handle.old) (result ≡ 2) }
{
    with_engine!(alloc, handle, engine => export_in(&engine, app, locale, out, len))
}
