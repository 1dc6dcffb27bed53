//! Changes of one application's bundles, all of which are made or none.
ghost use Rattle.std.specs.Prelude.{◌≡◌, ◌≢◌, None, Some, IfNone, IfSome, map};
ghost use Rattle.rb_packages.specs.App.{app_of};
ghost use Rattle.rb_handle.specs.Stored.{engine_of};
ghost use Rattle.resb.specs.Releases.{HaveNoBundles, IsFirstRefused, IsReleased, IsUnreleased};
ghost use Rattle.resb.specs.Releases.{Takes, change_number, change_of, draft_number, locales_of};
ghost use Rattle.resb.specs.Releases.{with_change};

use crate::edit::Edit;
use crate::held::{take_bundle, with_engine};
use crate::numbers::{BAD_LOCALE, MEMORY, SHARED, app_number, draft_number, or_number};
use rb_engine::{App, Draft, Engine};
use rb_handle::Handle;
use rb_locales::Name;
use std::alloc::Global;
use std::sync::Arc;

/// Takes the bundle out of an edit, and adds the change to a draft.
fn draft_edit(alloc: Global, draft: &mut Draft, edit: &mut Edit<'_>) -> u32
    ensures taken { result ≡ 0
        → change_number draft.old (change_of edit.old).0 (change_of edit.old).1 ≡ 0 }
    ensures draft { result ≡ 0
        → draft.new ≡ with_change (change_of edit.old).0 (change_of edit.old).1 draft.old }
    ensures refused { result ≢ 0 → result ≢ 1
        → result ≡ change_number draft.old (change_of edit.old).0 (change_of edit.old).1 }
    ensures app { draft.new.app ≡ draft.old.app }
    ensures unshared { result ≢ 4 }
    ensures bundle { edit.new.bundle.file ≡ None }
    ensures locale { edit.new.locale.now ≡ edit.old.locale.now }
{
    let bundle = take_bundle(alloc, &mut edit.bundle);
    let Ok(name) = Name::read(edit.locale) else {
        return BAD_LOCALE;
    };
    match bundle {
        Some(bundle) => or_number!(draft.put(name, Box::into_inner(bundle)) => draft_number),
        None => or_number!(draft.remove(name) => draft_number),
    }
    0
}

/// Adds changes to a draft, up to the first that is refused, whose index it writes.
fn draft_all(alloc: Global, draft: &mut Draft, edits: &mut [Edit<'_>], place: &mut usize) -> u32
    ensures taken { result ≡ 0 → Takes draft.old (map change_of edits.old) draft.new }
    ensures refused { result ≢ 0 → result ≢ 1
        → IsFirstRefused draft.old (map change_of edits.old) result place.new }
    ensures app { draft.new.app ≡ draft.old.app }
    ensures unshared { result ≢ 4 }
    ensures bundles { result ≡ 0 → HaveNoBundles edits.new }
    ensures locales { locales_of edits.new ≡ locales_of edits.old }
{
    for i in 0..edits.len() {
        let number = draft_edit(alloc, draft, &mut edits[i]);
        if number != 0 {
            *place = i;
            return number;
        }
    }
    0
}

/// Makes changes if no other handle has the engine.
fn release_in(
    engine: &mut Arc<Engine>,
    alloc: Global,
    app: &[u8],
    edits: &mut [Edit<'_>],
    place: &mut usize,
) -> u32
    ensures released { result ≡ 0
        → IsReleased engine.old.value app.now (map change_of edits.old) engine.new.value }
    ensures refused { result ≢ 0 → result ≢ 1 → result ≢ 4 → IsUnreleased engine.old.value
        (app_of app.now) (map change_of edits.old) result place.new }
    ensures unchanged { result ≢ 0 → engine.new.value ≡ engine.old.value }
    ensures kept { result ≡ 4 → edits.new ≡ edits.old }
    ensures bundles { result ≡ 0 → HaveNoBundles edits.new }
    ensures locales { locales_of edits.new ≡ locales_of edits.old }
{
    let Some(engine) = Arc::get_mut(engine) else {
        return SHARED;
    };
    let app = or_number!(App::read(app) => app_number);
    let Ok(mut draft) = engine.draft(alloc, &app) else {
        return MEMORY;
    };
    let number = draft_all(alloc, &mut draft, edits, place);
    if number != 0 {
        return number;
    }
    match engine.release(draft) {
        Ok(()) => 0,
        Err(_) => MEMORY,
    }
}

/// Makes changes of an application's bundles in their order, or none of them. Writes the index of
/// the first edit that is refused to `place`, else 0.
#[unsafe(no_mangle)]
pub extern "C" fn resb_release(
    alloc: Global,
    handle: &mut Handle,
    app: &[u8],
    edits: &mut [Edit<'_>],
    place: &mut usize,
) -> u32
    ensures there { IfSome (engine_of handle.old) (λ _. engine_of handle.new ≢ None) }
    ensures released { result ≡ 0 → IfSome (engine_of handle.old) (λ old. IfSome
        (engine_of handle.new) (IsReleased old app.now (map change_of edits.old))) }
    ensures refused { result ≢ 0 → result ≢ 1 → result ≢ 4 → IfSome (engine_of handle.old)
        (λ e. IsUnreleased e (app_of app.now) (map change_of edits.old) result place.new) }
    ensures unchanged { result ≢ 0 → engine_of handle.new ≡ engine_of handle.old }
    ensures kept { result ≡ 4 → edits.new ≡ edits.old }
    ensures untouched { IfNone (engine_of handle.old) (edits.new ≡ edits.old) }
    ensures bundles { result ≡ 0 → HaveNoBundles edits.new }
    ensures locales { locales_of edits.new ≡ locales_of edits.old }
    ensures closed { IfNone (engine_of handle.old) (result ≡ 2) }
{
    *place = 0;
    with_engine!(alloc, handle, engine => release_in(&mut engine, alloc, app, edits, place))
}
