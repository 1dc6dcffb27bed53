//! Exports that count what applications store.
ghost use Rattle.std.specs.Prelude.{◌≡◌, ◌≢◌, IfNone, IfSome};
ghost use Rattle.rb_handle.specs.Stored.{engine_of};
ghost use Rattle.rb_packages.specs.Usage.{apps_of};
ghost use Rattle.resb.specs.Usage.{Uses};

use crate::held::with_engine;
use crate::numbers::{app_number, or_number};
use rb_engine::{App, Engine};
use rb_handle::Handle;
use std::alloc::Global;

fn usage_in(engine: &Engine, app: &[u8], bytes: &mut u64, bundles: &mut u64) -> u32
    ensures usage { Uses engine.now app.now result bytes.new bundles.new }
    ensures same_bytes { result ≢ 0 → bytes.new ≡ bytes.old }
    ensures same_bundles { result ≢ 0 → bundles.new ≡ bundles.old }
{
    let app = or_number!(App::read(app) => app_number);
    let usage = engine.usage(&app);
    *bytes = usage.bytes;
    *bundles = usage.bundles;
    0
}

/// Writes the total length of the files that an application stores, and the number of its bundles.
#[unsafe(no_mangle)]
pub extern "C" fn resb_usage(
    alloc: Global,
    handle: &mut Handle,
    app: &[u8],
    bytes: &mut u64,
    bundles: &mut u64,
) -> u32
    ensures stays { engine_of handle.new ≡ engine_of handle.old }
    ensures usage { IfSome (engine_of handle.old) (λ e. Uses e app.now result
        bytes.new bundles.new) }
    ensures same_bytes { result ≢ 0 → bytes.new ≡ bytes.old }
    ensures same_bundles { result ≢ 0 → bundles.new ≡ bundles.old }
    ensures closed { IfNone (engine_of handle.old) (result ≡ 2) }
{
    with_engine!(alloc, handle, engine => usage_in(&engine, app, bytes, bundles))
}

/// Writes the number of applications that have bundles.
#[unsafe(no_mangle)]
pub extern "C" fn resb_apps(alloc: Global, handle: &mut Handle, apps: &mut u64) -> u32
    ensures stays { engine_of handle.new ≡ engine_of handle.old }
    ensures apps { IfSome (engine_of handle.old) (λ e. (result ≡ 0)
        × (apps.new ≡ apps_of e.packages)) }
    ensures closed { IfNone (engine_of handle.old) ((result ≡ 2) × (apps.new ≡ apps.old)) }
{
    with_engine!(alloc, handle, engine => {
        *apps = engine.apps();
        0
    })
}
