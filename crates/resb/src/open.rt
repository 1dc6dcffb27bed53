ghost use Rattle.std.specs.Prelude.{◌≡◌, ◌≢◌, None, Some, IfNone, IfSome};
ghost use Rattle.rb_handle.specs.Stored.{engine_of};
ghost use Rattle.resb.specs.Open.{IsEmpty};
ghost use Rattle.resb.specs.Start.{IsStarted, IsRefused};

use crate::entry::Entry;
use crate::held::{fill, take, with_engine};
use crate::numbers::{MEMORY, OPEN};
use crate::start::start;
use rb_engine::Engine;
use rb_handle::Handle;
use rb_parents::Parents;
use std::alloc::Global;
use std::hash::RandomState;
use std::io;
use std::random::RandomSource;
use std::sync::Arc;

/// The caller's random bytes.
#[derive(Drop)]
struct Seed<'a> {
    bytes: &'a [u8],
}

impl RandomSource for Seed<'_> {
    fn fill_bytes(&self, buf: &mut [u8]) -> io::Result<()> {
        for (to, from) in buf.iter_mut().zip(self.bytes.iter()) {
            *to = *from;
        }
        Ok(())
    }
}

/// Returns a random state made of the caller's bytes.
pub(crate) fn seeded(seed: &[u8]) -> Option<RandomState> {
    RandomState::new(&Seed { bytes: seed }).ok()
}

/// The number of locales that an engine keeps open for lookups by name.
const KEPT_LOCALES: usize = 1024;

/// Moves an engine to where handles can share it, with room to keep locales open.
pub(crate) fn shareable(alloc: Global, engine: Engine) -> Option<Box<Arc<Engine>>>
    ensures { IfSome result (λ b. b.value.value ≡ engine) }
{
    let mut engine = engine;
    engine.keep_locales(alloc, KEPT_LOCALES).ok()?;
    let counted = Arc::new(alloc, engine).ok()?;
    Box::new(alloc, counted).ok()
}

fn new_engine(alloc: Global, seed: &[u8]) -> Option<Box<Arc<Engine>>>
    ensures { IfSome result (λ b. IsEmpty b.value.value) }
{
    let state = seeded(seed)?;
    let engine = Engine::start(alloc, state, Vec::new(alloc), Parents::none(alloc)).ok()?;
    shareable(alloc, engine)
}

/// Opens an engine without bundles. Its hashes are seeded by 16 random bytes.
#[unsafe(no_mangle)]
pub extern "C" fn resb_open(alloc: Global, handle: &mut Handle, seed: &[u8]) -> u32
    ensures opened { result ≡ 0 → IfSome (engine_of handle.new) IsEmpty }
    ensures there { result ≡ 0 → engine_of handle.new ≢ None }
    ensures was_closed { result ≡ 0 → engine_of handle.old ≡ None }
    ensures unchanged { result ≢ 0 → engine_of handle.new ≡ engine_of handle.old }
    ensures busy { IfSome (engine_of handle.old) (λ _. result ≡ 3) }
    ensures memory { IfNone (engine_of handle.old) (result ≢ 0 → result ≡ 1) }
{
    fill!(take, Handle, alloc, handle => new_engine(alloc, seed).ok_or(MEMORY))
}

/// Opens an engine with the bundles of ICUDATA, and with the explicit parents of a bundle text. An
/// empty text gives none. Writes to `place` the index of the first invalid bundle, or the line of
/// the first error in the text, else 0.
#[unsafe(no_mangle)]
pub extern "C" fn resb_open_with(
    alloc: Global,
    handle: &mut Handle,
    seed: &[u8],
    icudata: &[Entry<'_>],
    parents: &[u8],
    place: &mut u64,
) -> u32
    ensures opened { result ≡ 0 → IfSome (engine_of handle.new)
        (IsStarted icudata.now parents.now) }
    ensures there { result ≡ 0 → engine_of handle.new ≢ None }
    ensures was_closed { result ≡ 0 → engine_of handle.old ≡ None }
    ensures unchanged { result ≢ 0 → engine_of handle.new ≡ engine_of handle.old }
    ensures busy { IfSome (engine_of handle.old) (λ _. result ≡ 3) }
    ensures refused { IfNone (engine_of handle.old)
        (result ≢ 0 → IsRefused icudata.now parents.now result place.new) }
{
    *place = 0;
    if let Some(engine) = take(alloc, handle) {
        *handle = Handle::of(engine);
        return OPEN;
    }
    match start(alloc, seed, icudata, parents) {
        Ok(engine) => {
            *handle = Handle::of(engine);
            0
        }
        Err(error) => {
            *place = error.place();
            error.number()
        }
    }
}

/// Puts a new engine into a handle. What the handle had is closed.
pub(crate) fn put(alloc: Global, other: &mut Handle, engine: Option<Box<Arc<Engine>>>) -> u32
    ensures put { IfSome engine
        (λ b. (result ≡ 0) × (engine_of other.new ≡ Some b.value.value)) }
    ensures none { IfNone engine
        ((result ≡ 1) × (engine_of other.new ≡ engine_of other.old)) }
{
    match engine {
        Some(engine) => {
            drop(take(alloc, other));
            *other = Handle::of(engine);
            0
        }
        None => MEMORY,
    }
}

/// Makes `other` one more handle of the same engine. What `other` had is closed.
#[unsafe(no_mangle)]
pub extern "C" fn resb_share(alloc: Global, handle: &mut Handle, other: &mut Handle) -> u32
    ensures stays { engine_of handle.new ≡ engine_of handle.old }
    ensures shared { result ≡ 0 → engine_of other.new ≡ engine_of handle.old }
    ensures there { result ≡ 0 → engine_of handle.old ≢ None }
    ensures unchanged { result ≢ 0 → engine_of other.new ≡ engine_of other.old }
    ensures memory { result ≢ 0 → IfSome (engine_of handle.old) (λ _. result ≡ 1) }
    ensures closed { IfNone (engine_of handle.old) (result ≡ 2) }
{
    with_engine!(alloc, handle, engine => put(alloc, other, another(alloc, &engine)))
}

fn another(alloc: Global, engine: &Arc<Engine>) -> Option<Box<Arc<Engine>>>
    ensures { IfSome result (λ b. b.value.value ≡ engine.now.value) }
{
    let again = Arc::try_clone(engine).ok()?;
    Box::new(alloc, again).ok()
}

/// Closes a handle. The last handle of an engine frees it.
#[unsafe(no_mangle)]
pub extern "C" fn resb_close(alloc: Global, handle: &mut Handle)
    ensures { engine_of handle.new ≡ None }
{
    drop(take(alloc, handle));
}
