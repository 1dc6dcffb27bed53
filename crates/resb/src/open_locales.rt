//! Locales that are opened once and looked up from often.
ghost use Rattle.std.specs.Prelude.{◌≡◌, ◌≢◌, ℕ, List, IfNone, IfSome, true, false};
ghost use Rattle.rb_engine.specs.OpenLocale.{CountsNames, IsOpenLocale};
ghost use Rattle.rb_engine.specs.Version.{is_current};
ghost use Rattle.rb_handle.specs.Stored.{engine_of};
ghost use Rattle.resb.specs.Looks.{answer_in, exceeds_in, takes_more_in, Describes};
ghost use Rattle.resb.specs.OpenLocales.{RefusesWith};

use crate::found::Found;
use crate::held::with_engine;
use crate::numbers::{STALE, TOO_MANY_STEPS, look_number, or_number};
use rb_engine::{Engine, OpenLocale, Stale, TooManySteps};
use rb_handle::Handle;
use std::alloc::Global;

fn open_in(engine: &Engine, app: &[u8], locale: &[u8], opened: &mut OpenLocale) -> u32
    ensures opened { result ≡ 0 → IsOpenLocale opened.new engine.now app.now locale.now }
    ensures names { result ≡ 0 → CountsNames opened.new engine.now app.now locale.now }
    ensures version { result ≡ 0 → opened.new.version ≡ engine.now.version }
    ensures refused { result ≢ 0 → RefusesWith engine.now app.now locale.now result }
    ensures unchanged { result ≢ 0 → opened.new ≡ opened.old }
{
    *opened = or_number!(engine.open_locale(app, locale) => look_number);
    0
}

/// Opens a locale of an application for lookups by `resb_look_at`, which read neither the names nor
/// the trail again.
#[unsafe(no_mangle)]
pub extern "C" fn resb_open_locale(
    alloc: Global,
    handle: &mut Handle,
    app: &[u8],
    locale: &[u8],
    opened: &mut OpenLocale,
) -> u32
    ensures stays { engine_of handle.new ≡ engine_of handle.old }
    ensures opened { result ≡ 0 → IfSome (engine_of handle.old)
        (λ e. IsOpenLocale opened.new e app.now locale.now) }
    ensures names { result ≡ 0 → IfSome (engine_of handle.old)
        (λ e. CountsNames opened.new e app.now locale.now) }
    ensures version { result ≡ 0 → IfSome (engine_of handle.old)
        (λ e. opened.new.version ≡ e.version) }
    ensures refused { result ≢ 0 → IfSome (engine_of handle.old)
        (λ e. RefusesWith e app.now locale.now result) }
    ensures unchanged { result ≢ 0 → opened.new ≡ opened.old }
    ensures closed { IfNone (engine_of handle.old) (result ≡ 2) }
{
    with_engine!(alloc, handle, engine => open_in(&engine, app, locale, opened))
}

/// Looks up from an open locale, in at most `left` steps; `None` is no limit.
fn look_at(
    engine: &Engine,
    opened: &OpenLocale,
    path: &[u8],
    left: Option<u64>,
    found: &mut Found,
) -> u32
    ensures stale { result ≡ 8 → is_current opened.now.version engine.now.version ≡ false }
    ensures current { result ≢ 8 → is_current opened.now.version engine.now.version ≡ true }
    ensures within { result ≢ 8 → result ≢ 30 → (app locale : List ℕ)
        → IsOpenLocale opened.now engine.now app locale
        → IfSome left (λ _. CountsNames opened.now engine.now app locale)
        → exceeds_in engine.now left app locale path.now ≡ false }
    ensures more { result ≡ 30 → (app locale : List ℕ)
        → IsOpenLocale opened.now engine.now app locale
        → IfSome left (λ _. CountsNames opened.now engine.now app locale)
        → exceeds_in engine.now left app locale path.now ≡ true }
    ensures answer { result ≢ 8 → result ≢ 30 → (app locale : List ℕ)
        → IsOpenLocale opened.now engine.now app locale
        → IfSome left (λ _. CountsNames opened.now engine.now app locale)
        → Describes (answer_in engine.now app locale path.now) result
        found.new.kind found.new.count found.new.number }
    ensures unchanged { result ≢ 0 → found.new ≡ found.old }
{
    match engine.find_at(opened, path, left) {
        Ok(Ok(Ok(item))) => {
            *found = Found::of(item);
            0
        }
        Ok(Ok(Err(fault))) => look_number(fault),
        Ok(Err(TooManySteps)) => TOO_MANY_STEPS,
        Err(Stale) => STALE,
    }
}

/// Looks up like `resb_look` from a locale that was opened before, or returns the number of `Stale`
/// if the engine has changed since.
#[unsafe(no_mangle)]
pub extern "C" fn resb_look_at(
    alloc: Global,
    handle: &mut Handle,
    opened: &OpenLocale,
    path: &[u8],
    found: &mut Found,
) -> u32
    ensures stays { engine_of handle.new ≡ engine_of handle.old }
    ensures stale { result ≡ 8 → IfSome (engine_of handle.old)
        (λ e. is_current opened.now.version e.version ≡ false) }
    ensures current { result ≢ 8 → IfSome (engine_of handle.old)
        (λ e. is_current opened.now.version e.version ≡ true) }
    ensures answer { result ≢ 8 → IfSome (engine_of handle.old) (λ e. (app locale : List ℕ)
        → IsOpenLocale opened.now e app locale
        → Describes (answer_in e app locale path.now) result
        found.new.kind found.new.count found.new.number) }
    ensures unchanged { result ≢ 0 → found.new ≡ found.old }
    ensures closed { IfNone (engine_of handle.old) (result ≡ 2) }
{
    with_engine!(alloc, handle, engine => look_at(&engine, opened, path, None, found))
}

/// Looks up like `resb_look_within` from a locale that was opened before, or returns the number of
/// `Stale` if the engine has changed since.
#[unsafe(no_mangle)]
pub extern "C" fn resb_look_at_within(
    alloc: Global,
    handle: &mut Handle,
    opened: &OpenLocale,
    path: &[u8],
    steps: u64,
    found: &mut Found,
) -> u32
    ensures stays { engine_of handle.new ≡ engine_of handle.old }
    ensures stale { result ≡ 8 → IfSome (engine_of handle.old)
        (λ e. is_current opened.now.version e.version ≡ false) }
    ensures current { result ≢ 8 → IfSome (engine_of handle.old)
        (λ e. is_current opened.now.version e.version ≡ true) }
    ensures within { result ≢ 8 → result ≢ 30 → IfSome (engine_of handle.old)
        (λ e. (app locale : List ℕ) → IsOpenLocale opened.now e app locale
        → CountsNames opened.now e app locale
        → takes_more_in e steps app locale path.now ≡ false) }
    ensures more { result ≡ 30 → IfSome (engine_of handle.old) (λ e. (app locale : List ℕ)
        → IsOpenLocale opened.now e app locale → CountsNames opened.now e app locale
        → takes_more_in e steps app locale path.now ≡ true) }
    ensures answer { result ≢ 8 → result ≢ 30 → IfSome (engine_of handle.old)
        (λ e. (app locale : List ℕ) → IsOpenLocale opened.now e app locale
        → CountsNames opened.now e app locale
        → Describes (answer_in e app locale path.now) result
        found.new.kind found.new.count found.new.number) }
    ensures unchanged { result ≢ 0 → found.new ≡ found.old }
    ensures closed { IfNone (engine_of handle.old) (result ≡ 2) }
{
    with_engine!(alloc, handle, engine => look_at(&engine, opened, path, Some(steps), found))
}
