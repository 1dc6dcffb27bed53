//! Lookups that also write where the item was found.
ghost use Rattle.std.specs.Prelude.{◌≡◌, ◌≢◌, ◌≤◌, ◌<◌, ℕ, List, IfNone, IfSome, Some, length};
ghost use Rattle.std.specs.Prelude.{slice_get, take, true, false};
ghost use Rattle.rb_engine.specs.OpenLocale.{IsOpenLocale};
ghost use Rattle.rb_engine.specs.Version.{is_current};
ghost use Rattle.rb_handle.specs.Stored.{engine_of};
ghost use Rattle.resb.specs.Looks.{answer_in, Describes};
ghost use Rattle.resb.specs.inner.Query.{answer_to};
ghost use Rattle.resb.specs.Origins.{ComesFrom, IsNameIn};

use crate::found::Found;
use crate::held::with_engine;
use crate::looks::{Query, with_open};
use crate::numbers::{STALE, look_number, or_number};
use rb_engine::{Engine, OpenLocale};
use rb_handle::Handle;
use rb_locales::Name;
use std::alloc::Global;

/// The size of a name of at most 64 bytes with a zero byte after it.
const NAME_SIZE: usize = 65;

/// The names of two bundles, each with a zero byte after it: the one that has the item, and the
/// first one on the locale's trail.
#[repr(C)]
#[derive(Drop)]
pub struct Origin {
    pub actual: [u8; NAME_SIZE],
    pub valid: [u8; NAME_SIZE],
}

fn put_front(field: &mut [u8], bytes: &[u8])
    requires { length bytes.now ≤ length field.old }
    ensures { take (length bytes.now) field.new ≡ bytes.now }
{
    field[..bytes.len()].copy_from_slice(bytes);
}

fn put_zero(field: &mut [u8], at: usize)
    requires { at < length field.old }
    ensures front { take at field.new ≡ take at field.old }
    ensures zero { slice_get field.new at ≡ Some 0 }
{
    field[at] = 0;
}

/// Returns a field with bytes and a zero byte after them.
pub(crate) fn zero_ended<const N: usize>(bytes: &[u8]) -> [u8; N]
    requires { length bytes.now < N }
    ensures { IsNameIn result bytes.now }
{
    let mut field = [0; N];
    put_front(&mut field, bytes);
    put_zero(&mut field, bytes.len());
    field
}

impl Origin {
    fn of(actual: &Name, valid: &Name) -> Origin
        ensures actual { IsNameIn result.actual actual.now }
        ensures valid { IsNameIn result.valid valid.now }
    {
        Origin {
            actual: zero_ended(actual.as_bytes()),
            valid: zero_ended(valid.as_bytes()),
        }
    }
}

fn look_in(engine: &Engine, query: Query<'_>, found: &mut Found, origin: &mut Origin) -> u32
    ensures answer { Describes (answer_to engine.now query.entry) result
        found.new.kind found.new.count found.new.number }
    ensures origin { ComesFrom (answer_to engine.now query.entry)
        origin.new.actual origin.new.valid }
    ensures unchanged { result ≢ 0 → found.new ≡ found.old }
    ensures same_origin { result ≢ 0 → origin.new ≡ origin.old }
{
    let it = or_number!(engine.look(query.app, query.locale, query.path) => look_number);
    *found = Found::of(it.node);
    *origin = Origin::of(&it.actual, &it.valid);
    0
}

/// Looks up like `resb_look`, and writes the names of the bundle that has the item and of the first
/// bundle on the locale's trail.
#[unsafe(no_mangle)]
pub extern "C" fn resb_look_origin(
    alloc: Global,
    handle: &mut Handle,
    app: &[u8],
    locale: &[u8],
    path: &[u8],
    found: &mut Found,
    origin: &mut Origin,
) -> u32
    ensures stays { engine_of handle.new ≡ engine_of handle.old }
    ensures answer { IfSome (engine_of handle.old) (λ e. Describes
        (answer_in e app.now locale.now path.now) result
        found.new.kind found.new.count found.new.number) }
    ensures origin { IfSome (engine_of handle.old) (λ e. ComesFrom
        (answer_in e app.now locale.now path.now) origin.new.actual origin.new.valid) }
    ensures unchanged { result ≢ 0 → found.new ≡ found.old }
    ensures same_origin { result ≢ 0 → origin.new ≡ origin.old }
    ensures closed { IfNone (engine_of handle.old) (result ≡ 2) }
{
    let query = Query { app, locale, path };
    with_open!(alloc, handle, query, engine => look_in(&engine, query, found, origin))
}

fn look_at(
    engine: &Engine,
    opened: &OpenLocale,
    path: &[u8],
    found: &mut Found,
    origin: &mut Origin,
) -> u32
    ensures stale { result ≡ 8 → is_current opened.now.version engine.now.version ≡ false }
    ensures current { result ≢ 8 → is_current opened.now.version engine.now.version ≡ true }
    ensures answer { result ≢ 8 → (app locale : List ℕ)
        → IsOpenLocale opened.now engine.now app locale
        → Describes (answer_in engine.now app locale path.now) result
        found.new.kind found.new.count found.new.number }
    ensures origin { result ≢ 8 → (app locale : List ℕ)
        → IsOpenLocale opened.now engine.now app locale
        → ComesFrom (answer_in engine.now app locale path.now)
        origin.new.actual origin.new.valid }
    ensures unchanged { result ≢ 0 → found.new ≡ found.old }
    ensures same_origin { result ≢ 0 → origin.new ≡ origin.old }
{
    match engine.look_at(opened, path) {
        Ok(Ok(it)) => {
            *found = Found::of(it.node);
            *origin = Origin::of(&it.actual, &it.valid);
            0
        }
        Ok(Err(fault)) => look_number(fault),
        Err(_) => STALE,
    }
}

/// Looks up like `resb_look_at`, and writes the names that `resb_look_origin` writes.
#[unsafe(no_mangle)]
pub extern "C" fn resb_look_origin_at(
    alloc: Global,
    handle: &mut Handle,
    opened: &OpenLocale,
    path: &[u8],
    found: &mut Found,
    origin: &mut Origin,
) -> u32
    ensures stays { engine_of handle.new ≡ engine_of handle.old }
    ensures stale { result ≡ 8 → IfSome (engine_of handle.old)
        (λ e. is_current opened.now.version e.version ≡ false) }
    ensures current { result ≢ 8 → IfSome (engine_of handle.old)
        (λ e. is_current opened.now.version e.version ≡ true) }
    ensures answer { result ≢ 8 → IfSome (engine_of handle.old) (λ e. (app locale : List ℕ)
        → IsOpenLocale opened.now e app locale
        → Describes (answer_in e app locale path.now) result
        found.new.kind found.new.count found.new.number) }
    ensures origin { result ≢ 8 → IfSome (engine_of handle.old) (λ e. (app locale : List ℕ)
        → IsOpenLocale opened.now e app locale
        → ComesFrom (answer_in e app locale path.now) origin.new.actual origin.new.valid) }
    ensures unchanged { result ≢ 0 → found.new ≡ found.old }
    ensures same_origin { result ≢ 0 → origin.new ≡ origin.old }
    ensures closed { IfNone (engine_of handle.old) (result ≡ 2) }
{
    with_engine!(alloc, handle, engine => look_at(&engine, opened, path, found, origin))
}
