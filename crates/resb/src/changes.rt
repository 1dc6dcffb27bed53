ghost use Rattle.std.specs.Prelude.{◌≡◌, ◌≢◌, ℕ, List, Ok, None, IfOk, IfErr, IfNone, IfSome};
ghost use Rattle.rb_engine.specs.Source.{Reads, change_request};
ghost use Rattle.rb_engine.specs.declared.request.Payload.{Payload};
ghost use Rattle.rb_engine.specs.declared.request.Payload.TheVariants.{File};
ghost use Rattle.rb_engine.specs.declared.request.Request.TheVariants as requests;
ghost use Rattle.rb_handle.specs.Stored.{engine_of};
ghost use Rattle.resb.specs.Changes.{payload_of, LeadsTo, RaisesVersion};
ghost use Rattle.resb.specs.inner.Changes.{Changes};

use crate::held::{take_bundle, with_engine};
use crate::numbers::{CLOSED, MEMORY, SHARED, reply_number};
use rb_engine::{App, Change, Engine, IncomingBundle, Payload, Request};
use rb_handle::{BundleHandle, Handle};
use rb_locales::Name;
use rb_tree::ByteList;
use rb_validator::Bundle;
use std::alloc::{AllocError, Global};
use std::sync::Arc;

fn list_of(alloc: Global, bytes: &[u8]) -> Result<ByteList, AllocError>
    ensures { IfOk result (λ l. l ≡ bytes.now) }
{
    Ok(ByteList::from_vec(bytes.to_vec(alloc)?))
}

pub(crate) fn payload_of(alloc: Global, bytes: &[u8], is_text: bool) -> Result<Payload, AllocError>
    ensures { IfOk result (λ p. p ≡ payload_of is_text bytes.now) }
{
    let list = list_of(alloc, bytes)?;
    if is_text {
        Ok(Payload::Text(list))
    } else {
        Ok(Payload::File(list))
    }
}

fn request_of(
    alloc: Global,
    change: Change,
    app: &[u8],
    locale: &[u8],
    bytes: &[u8],
    is_text: bool,
) -> Result<Request, AllocError>
    ensures { IfOk result (λ r. r
        ≡ change_request change app.now locale.now (payload_of is_text bytes.now)) }
{
    let payload = payload_of(alloc, bytes, is_text)?;
    let app = list_of(alloc, app)?;
    let locale = list_of(alloc, locale)?;
    Ok(match change {
        Change::Install => Request::Install {
            app,
            locale,
            payload,
        },
        Change::Replace => Request::Replace {
            app,
            locale,
            payload,
        },
    })
}

fn change_in(
    engine: &mut Arc<Engine>,
    alloc: Global,
    change: Change,
    app: &[u8],
    locale: &[u8],
    bytes: &[u8],
    is_text: bool,
) -> u32
    ensures { Changes engine.old.value
        (change_request change app.now locale.now (payload_of is_text bytes.now)) result
        engine.new.value }
{
    let Ok(request) = request_of(alloc, change, app, locale, bytes, is_text) else {
        return MEMORY;
    };
    match Arc::get_mut(engine) {
        Some(engine) => reply_number(&engine.handle(alloc, request)),
        None => SHARED,
    }
}

/// Installs a bundle of an application, from a text or from a file.
#[unsafe(no_mangle)]
pub extern "C" fn resb_install(
    alloc: Global,
    handle: &mut Handle,
    app: &[u8],
    locale: &[u8],
    bytes: &[u8],
    is_text: bool,
) -> u32
    ensures there { IfSome (engine_of handle.old) (λ _. engine_of handle.new ≢ None) }
    ensures unchanged { result ≢ 0 → engine_of handle.new ≡ engine_of handle.old }
    ensures version { result ≡ 0 → RaisesVersion (engine_of handle.old) (engine_of handle.new) }
    ensures handled { LeadsTo
        (requests.Install app.now locale.now (payload_of is_text bytes.now)) result
        (engine_of handle.old) (engine_of handle.new) }
    ensures closed { IfNone (engine_of handle.old) (result ≡ 2) }
{
    with_engine!(alloc, handle, engine => {
        change_in(&mut engine, alloc, Change::Install, app, locale, bytes, is_text)
    })
}

/// Replaces a bundle of an application, from a text or from a file.
#[unsafe(no_mangle)]
pub extern "C" fn resb_replace(
    alloc: Global,
    handle: &mut Handle,
    app: &[u8],
    locale: &[u8],
    bytes: &[u8],
    is_text: bool,
) -> u32
    ensures there { IfSome (engine_of handle.old) (λ _. engine_of handle.new ≢ None) }
    ensures unchanged { result ≢ 0 → engine_of handle.new ≡ engine_of handle.old }
    ensures version { result ≡ 0 → RaisesVersion (engine_of handle.old) (engine_of handle.new) }
    ensures handled { LeadsTo
        (requests.Replace app.now locale.now (payload_of is_text bytes.now)) result
        (engine_of handle.old) (engine_of handle.new) }
    ensures closed { IfNone (engine_of handle.old) (result ≡ 2) }
{
    with_engine!(alloc, handle, engine => {
        change_in(&mut engine, alloc, Change::Replace, app, locale, bytes, is_text)
    })
}

/// Names a bundle that was checked before, or returns it if a name is invalid.
#[tactic(auto, using(crate::proofs::Named::reads))]
fn named(app: &[u8], locale: &[u8], bundle: Bundle) -> Result<IncomingBundle, Bundle>
    ensures read { IfOk result
        (λ incoming. Reads app.now locale.now (File bundle) (Ok incoming)) }
    ensures back { IfErr result (λ b. b ≡ bundle) }
{
    let Ok(app) = App::read(app) else {
        return Err(bundle);
    };
    let Ok(name) = Name::read(locale) else {
        return Err(bundle);
    };
    // The bytes of a bundle denote a tree.
    let _ = bundle.bytes();
    Ok(IncomingBundle::of(&app, &name, bundle))
}

fn put_in(
    engine: &mut Arc<Engine>,
    alloc: Global,
    change: Change,
    app: &[u8],
    locale: &[u8],
    bundle: Bundle,
) -> u32
    ensures { Changes engine.old.value (change_request change app.now locale.now (File bundle))
        result engine.new.value }
{
    match named(app, locale, bundle) {
        Ok(incoming) => match Arc::get_mut(engine) {
            Some(engine) => reply_number(&engine.put(change, incoming)),
            None => SHARED,
        },
        // The engine refuses an invalid name before it reads the file.
        Err(bundle) => change_in(engine, alloc, change, app, locale, bundle.bytes(), false),
    }
}

/// Takes a prepared bundle out of its handle, and installs it. Its file isn't checked again.
#[unsafe(no_mangle)]
pub extern "C" fn resb_install_bundle(
    alloc: Global,
    handle: &mut Handle,
    app: &[u8],
    locale: &[u8],
    bundle: &mut BundleHandle,
) -> u32
    ensures there { IfSome (engine_of handle.old) (λ _. engine_of handle.new ≢ None) }
    ensures unchanged { result ≢ 0 → engine_of handle.new ≡ engine_of handle.old }
    ensures version { result ≡ 0 → RaisesVersion (engine_of handle.old) (engine_of handle.new) }
    ensures handled { IfSome bundle.old.file (λ file. LeadsTo
        (requests.Install app.now locale.now (File file)) result
        (engine_of handle.old) (engine_of handle.new)) }
    ensures taken { bundle.new.file ≡ None }
    ensures discarded { IfNone bundle.old.file (result ≡ 2) }
    ensures closed { IfNone (engine_of handle.old) (result ≡ 2) }
{
    let Some(bundle) = take_bundle(alloc, bundle) else {
        return CLOSED;
    };
    let bundle = Box::into_inner(bundle);
    with_engine!(alloc, handle, engine => {
        put_in(&mut engine, alloc, Change::Install, app, locale, bundle)
    })
}

/// Takes a prepared bundle out of its handle, and replaces an installed bundle by it.
#[unsafe(no_mangle)]
pub extern "C" fn resb_replace_bundle(
    alloc: Global,
    handle: &mut Handle,
    app: &[u8],
    locale: &[u8],
    bundle: &mut BundleHandle,
) -> u32
    ensures there { IfSome (engine_of handle.old) (λ _. engine_of handle.new ≢ None) }
    ensures unchanged { result ≢ 0 → engine_of handle.new ≡ engine_of handle.old }
    ensures version { result ≡ 0 → RaisesVersion (engine_of handle.old) (engine_of handle.new) }
    ensures handled { IfSome bundle.old.file (λ file. LeadsTo
        (requests.Replace app.now locale.now (File file)) result
        (engine_of handle.old) (engine_of handle.new)) }
    ensures taken { bundle.new.file ≡ None }
    ensures discarded { IfNone bundle.old.file (result ≡ 2) }
    ensures closed { IfNone (engine_of handle.old) (result ≡ 2) }
{
    let Some(bundle) = take_bundle(alloc, bundle) else {
        return CLOSED;
    };
    let bundle = Box::into_inner(bundle);
    with_engine!(alloc, handle, engine => {
        put_in(&mut engine, alloc, Change::Replace, app, locale, bundle)
    })
}

fn remove_in(engine: &mut Arc<Engine>, app: &[u8], locale: &[u8]) -> u32
    ensures { Changes engine.old.value (requests.Remove app.now locale.now) result
        engine.new.value }
{
    match Arc::get_mut(engine) {
        Some(engine) => reply_number(&engine.remove(app, locale)),
        None => SHARED,
    }
}

/// Removes a bundle of an application.
#[unsafe(no_mangle)]
pub extern "C" fn resb_remove(alloc: Global, handle: &mut Handle, app: &[u8], locale: &[u8]) -> u32
    ensures there { IfSome (engine_of handle.old) (λ _. engine_of handle.new ≢ None) }
    ensures unchanged { result ≢ 0 → engine_of handle.new ≡ engine_of handle.old }
    ensures version { result ≡ 0 → RaisesVersion (engine_of handle.old) (engine_of handle.new) }
    ensures handled { LeadsTo (requests.Remove app.now locale.now) result
        (engine_of handle.old) (engine_of handle.new) }
    ensures closed { IfNone (engine_of handle.old) (result ≡ 2) }
{
    with_engine!(alloc, handle, engine => remove_in(&mut engine, app, locale))
}
