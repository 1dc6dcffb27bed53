ghost use Rattle.std.specs.Prelude.{◌≡◌, ◌≢◌, ◌⊎◌, ◌<◌, IfOk, IfNone, IfSome, length, take};
ghost use Rattle.rb_handle.specs.Stored.{engine_of};
ghost use Rattle.resb.specs.Copied.{CopiesBytes};
ghost use Rattle.resb.specs.Lists.{zero_ended, Lists, CopiesKey};
ghost use Rattle.resb.specs.Looks.{answer_in};
ghost use Rattle.resb.specs.inner.Query.{answer_to};

use crate::held::with_engine;
use crate::looks::{Query, with_open};
use crate::numbers::{MEMORY, NO_ENTRY, NO_ROOM, OTHER_KIND, look_number, or_number, reply_number};
use rb_engine::{Engine, Reply};
use rb_handle::Handle;
use rb_locales::Name;
use std::alloc::{AllocError, Global};

/// Joins names, each with a zero byte after it.
fn joined(alloc: Global, names: &[Name]) -> Result<Vec<u8>, AllocError>
    ensures { IfOk result (λ v. v.items ≡ zero_ended names.now) }
{
    let mut out = Vec::new(alloc);
    for i in 0..names.len() {
        out.extend_from_slice(names[i].as_bytes())?;
        out.push(0)?;
    }
    Ok(out)
}

/// Copies bytes to the front of a buffer, or writes only their number if it is short.
pub(crate) fn copy_bytes(bytes: &[u8], out: &mut [u8], len: &mut usize) -> u32
    ensures copied { CopiesBytes bytes.now result len.new (length out.old) (take len.new out.new) }
    ensures count { len.new ≡ length bytes.now }
    ensures unchanged { result ≢ 0 → out.new ≡ out.old }
{
    *len = bytes.len();
    if bytes.len() > out.len() {
        return NO_ROOM;
    }
    out[..bytes.len()].copy_from_slice(bytes);
    0
}

fn list_in(engine: &Engine, alloc: Global, app: &[u8], out: &mut [u8], len: &mut usize) -> u32
    ensures list { result ≢ 1 → Lists engine.now app.now result len.new
        (length out.old) (take len.new out.new) }
    ensures unchanged { result ≢ 0 → out.new ≡ out.old }
{
    match engine.list(alloc, app) {
        Reply::Names(names) => match joined(alloc, names.as_slice()) {
            Ok(names) => copy_bytes(&names, out, len),
            Err(_) => MEMORY,
        },
        refusal => reply_number(&refusal),
    }
}

/// Lists the locales of an application's bundles in the order of installation. Each has a zero byte
/// after it. For a short `out` it writes only the number of bytes.
#[unsafe(no_mangle)]
pub extern "C" fn resb_list(
    alloc: Global,
    handle: &mut Handle,
    app: &[u8],
    out: &mut [u8],
    len: &mut usize,
) -> u32
    ensures stays { engine_of handle.new ≡ engine_of handle.old }
    ensures list { result ≢ 1 → IfSome (engine_of handle.old) (λ e. Lists e app.now result len.new
        (length out.old) (take len.new out.new)) }
    ensures unchanged { result ≢ 0 → out.new ≡ out.old }
    ensures closed { IfNone (engine_of handle.old) (result ≡ 2) }
{
    with_engine!(alloc, handle, engine => list_in(&engine, alloc, app, out, len))
}

fn key_in(engine: &Engine, query: Query<'_>, index: usize, out: &mut [u8], len: &mut usize) -> u32
    ensures key { CopiesKey (answer_to engine.now query.entry) index result len.new
        (length out.old) (take len.new out.new) }
    ensures unchanged { result ≢ 0 → out.new ≡ out.old }
{
    let item = or_number!(engine.look(query.app, query.locale, query.path) => look_number).node;
    let Some(table) = item.table() else {
        return OTHER_KIND;
    };
    if index >= table.len() {
        return NO_ENTRY;
    }
    copy_bytes(table.key(index), out, len)
}

/// Copies the key of an entry of the table at a path, looked up from a locale. Entries are in the
/// order of their keys. For a short `out` it writes only the number of bytes.
#[unsafe(no_mangle)]
pub extern "C" fn resb_key(
    alloc: Global,
    handle: &mut Handle,
    app: &[u8],
    locale: &[u8],
    path: &[u8],
    index: usize,
    out: &mut [u8],
    len: &mut usize,
) -> u32
    ensures stays { engine_of handle.new ≡ engine_of handle.old }
    ensures key { IfSome (engine_of handle.old) (λ e. CopiesKey
        (answer_in e app.now locale.now path.now) index result len.new
        (length out.old) (take len.new out.new)) }
    ensures unchanged { result ≢ 0 → out.new ≡ out.old }
    ensures closed { IfNone (engine_of handle.old) (result ≡ 2) }
{
    let query = Query { app, locale, path };
    with_open!(alloc, handle, query, engine => key_in(&engine, query, index, out, len))
}
