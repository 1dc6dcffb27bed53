ghost use Rattle.std.specs.Prelude.{◌≡◌, ◌≢◌, ◌≤◌, IfNone, IfSome, length};
ghost use Rattle.std.specs.Prelude.{take, true, false};
ghost use Rattle.rb_views.specs.Seen.{units_seen};
ghost use Rattle.rb_handle.specs.Stored.{engine_of};
ghost use Rattle.resb.specs.Looks.{answer_in, takes_more_in, Describes, Copies};
ghost use Rattle.resb.specs.inner.Query.{answer_to, exceeds};

use crate::found::Found;
use crate::held::with_engine;
use crate::numbers::{NO_ROOM, OTHER_KIND, TOO_MANY_STEPS, look_number, or_number};
use rb_engine::{Engine, TooManySteps};
use rb_handle::Handle;
use rb_views::Units;
use std::alloc::Global;
use std::sync::Arc;

/// The names that a lookup begins with.
#[derive(Clone, Copy)]
pub(crate) struct Query<'a> {
    pub(crate) app: &'a [u8],
    pub(crate) locale: &'a [u8],
    pub(crate) path: &'a [u8],
}

/// Keeps a locale open for the next lookups, if no other handle has the engine.
pub(crate) fn keep_open(engine: &mut Arc<Engine>, query: Query<'_>)
    ensures { engine.new.value ≡ engine.old.value }
{
    if let Some(engine) = Arc::get_mut(engine) {
        engine.keep_open(query.app, query.locale);
    }
}

/// Evaluates a result with the engine of a handle, which keeps the locale of a query open.
macro_rules! with_open {
    ($alloc:ident, $handle:ident, $query:ident, $engine:ident => $result:expr) => {
        $crate::held::with_engine!($alloc, $handle, $engine => {
            $crate::looks::keep_open(&mut $engine, $query);
            $result
        })
    };
}

pub(crate) use with_open;

fn look_unlimited(engine: &Engine, query: Query<'_>, found: &mut Found) -> u32
    ensures few { result ≢ 30 }
    ensures answer { Describes (answer_to engine.now query.entry) result
        found.new.kind found.new.count found.new.number }
    ensures unchanged { result ≢ 0 → found.new ≡ found.old }
{
    let it = or_number!(engine.look(query.app, query.locale, query.path) => look_number);
    *found = Found::of(it.node);
    0
}

/// Looks up by names, in at most `left` steps; `None` is no limit.
fn look_in(engine: &Engine, query: Query<'_>, left: Option<u64>, found: &mut Found) -> u32
    ensures more { result ≡ 30 → exceeds engine.now left query.entry ≡ true }
    ensures within { result ≢ 30 → exceeds engine.now left query.entry ≡ false }
    ensures answer { result ≢ 30 → Describes (answer_to engine.now query.entry) result
        found.new.kind found.new.count found.new.number }
    ensures unchanged { result ≢ 0 → found.new ≡ found.old }
{
    match left {
        Some(steps) => match engine.look_within(query.app, query.locale, query.path, steps) {
            Ok(Ok(it)) => {
                *found = Found::of(it.node);
                0
            }
            Ok(Err(fault)) => look_number(fault),
            Err(TooManySteps) => TOO_MANY_STEPS,
        },
        None => look_unlimited(engine, query, found),
    }
}

/// Looks up like `look_in` if the engine keeps the locale open under just these names.
fn look_kept_in(
    engine: &Engine,
    query: Query<'_>,
    left: Option<u64>,
    found: &mut Found,
) -> Option<u32>
    ensures within { IfSome result
        (λ number. number ≢ 30 → exceeds engine.now left query.entry ≡ false) }
    ensures more { IfSome result
        (λ number. number ≡ 30 → exceeds engine.now left query.entry ≡ true) }
    ensures answer { IfSome result (λ number. number ≢ 30 → Describes
        (answer_to engine.now query.entry) number found.new.kind found.new.count found.new.number) }
    ensures unchanged { IfSome result (λ number. number ≢ 0 → found.new ≡ found.old) }
    ensures none { IfNone result (found.new ≡ found.old) }
{
    match engine.find_kept(query.app, query.locale, query.path, left)? {
        Ok(Ok(item)) => {
            *found = Found::of(item);
            Some(0)
        }
        Ok(Err(fault)) => Some(look_number(fault)),
        Err(TooManySteps) => Some(TOO_MANY_STEPS),
    }
}

/// Looks up from the locale that the engine keeps open, or keeps it open first.
fn look_keeping(
    engine: &mut Arc<Engine>,
    query: Query<'_>,
    left: Option<u64>,
    found: &mut Found,
) -> u32
    ensures stays { engine.new.value ≡ engine.old.value }
    ensures within { result ≢ 30 → exceeds engine.old.value left query.entry ≡ false }
    ensures more { result ≡ 30 → exceeds engine.old.value left query.entry ≡ true }
    ensures answer { result ≢ 30 → Describes (answer_to engine.old.value query.entry) result
        found.new.kind found.new.count found.new.number }
    ensures unchanged { result ≢ 0 → found.new ≡ found.old }
{
    if let Some(number) = look_kept_in(engine, query, left, found) {
        return number;
    }
    keep_open(engine, query);
    look_in(engine, query, left, found)
}

/// Looks up the item at a path from a locale, and describes it.
#[unsafe(no_mangle)]
pub extern "C" fn resb_look(
    alloc: Global,
    handle: &mut Handle,
    app: &[u8],
    locale: &[u8],
    path: &[u8],
    found: &mut Found,
) -> u32
    ensures stays { engine_of handle.new ≡ engine_of handle.old }
    ensures answer { IfSome (engine_of handle.old) (λ e. Describes
        (answer_in e app.now locale.now path.now) result
        found.new.kind found.new.count found.new.number) }
    ensures unchanged { result ≢ 0 → found.new ≡ found.old }
    ensures closed { IfNone (engine_of handle.old) (result ≡ 2) }
{
    let query = Query { app, locale, path };
    with_engine!(alloc, handle, engine => look_keeping(&mut engine, query, None, found))
}

/// Looks up like `resb_look`, or returns the number of `TooManySteps` if the lookup takes more than
/// this many steps.
#[unsafe(no_mangle)]
pub extern "C" fn resb_look_within(
    alloc: Global,
    handle: &mut Handle,
    app: &[u8],
    locale: &[u8],
    path: &[u8],
    steps: u64,
    found: &mut Found,
) -> u32
    ensures stays { engine_of handle.new ≡ engine_of handle.old }
    ensures within { result ≢ 30 → IfSome (engine_of handle.old)
        (λ e. takes_more_in e steps app.now locale.now path.now ≡ false) }
    ensures more { result ≡ 30 → IfSome (engine_of handle.old)
        (λ e. takes_more_in e steps app.now locale.now path.now ≡ true) }
    ensures answer { result ≢ 30 → IfSome (engine_of handle.old) (λ e. Describes
        (answer_in e app.now locale.now path.now) result
        found.new.kind found.new.count found.new.number) }
    ensures unchanged { result ≢ 0 → found.new ≡ found.old }
    ensures closed { IfNone (engine_of handle.old) (result ≡ 2) }
{
    let query = Query { app, locale, path };
    with_engine!(alloc, handle, engine => look_keeping(&mut engine, query, Some(steps), found))
}

pub(crate) fn copy_units(units: Units<'_>, out: &mut [u16])
    requires { length (units_seen units) ≤ length out.old }
    ensures { take (length (units_seen units.entry)) out.new ≡ units_seen units.entry }
{
    for i in 0..units.len() {
        out[i] = units.at(i);
    }
}

fn copy_in(engine: &Engine, query: Query<'_>, out: &mut [u16], len: &mut usize) -> u32
    ensures answer { Copies (answer_to engine.now query.entry) result len.new
        (length out.old) (take len.new out.new) }
    ensures unchanged { result ≢ 0 → out.new ≡ out.old }
{
    let item = or_number!(engine.look(query.app, query.locale, query.path) => look_number).node;
    let Some(units) = item.text() else {
        return OTHER_KIND;
    };
    *len = units.len();
    if units.len() > out.len() {
        return NO_ROOM;
    }
    copy_units(units, out);
    0
}

/// Looks up the string at a path from a locale, and copies its units. For a short `out` it writes
/// only the number of units.
#[unsafe(no_mangle)]
pub extern "C" fn resb_text(
    alloc: Global,
    handle: &mut Handle,
    app: &[u8],
    locale: &[u8],
    path: &[u8],
    out: &mut [u16],
    len: &mut usize,
) -> u32
    ensures stays { engine_of handle.new ≡ engine_of handle.old }
    ensures answer { IfSome (engine_of handle.old) (λ e. Copies
        (answer_in e app.now locale.now path.now) result len.new
        (length out.old) (take len.new out.new)) }
    ensures unchanged { result ≢ 0 → out.new ≡ out.old }
    ensures closed { IfNone (engine_of handle.old) (result ≡ 2) }
{
    let query = Query { app, locale, path };
    with_open!(alloc, handle, query, engine => copy_in(&engine, query, out, len))
}
