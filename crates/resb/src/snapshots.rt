//! Another engine with the same bundles, for a writer whose readers continue.
ghost use Rattle.std.specs.Prelude.{◌≡◌, ◌≢◌, None, IfNone, IfSome};
ghost use Rattle.rb_handle.specs.Stored.{engine_of};
ghost use Rattle.resb.specs.Snapshots.{IsSnapshot};

use crate::held::with_engine;
use crate::open::{put, seeded, shareable};
use rb_engine::Engine;
use rb_handle::Handle;
use std::alloc::Global;
use std::sync::Arc;

fn snapshot_of(alloc: Global, engine: &Engine, seed: &[u8]) -> Option<Box<Arc<Engine>>>
    ensures { IfSome result (λ b. IsSnapshot engine.now b.value.value) }
{
    let state = seeded(seed)?;
    shareable(alloc, engine.snapshot(alloc, &state).ok()?)
}

/// Makes `other` a handle of a new engine with the same bundles and explicit parents, which shares
/// their files: each of both engines can change, and the other one stays. What `other` had is
/// closed. The seed is 16 random bytes.
#[unsafe(no_mangle)]
pub extern "C" fn resb_snapshot(
    alloc: Global,
    handle: &mut Handle,
    seed: &[u8],
    other: &mut Handle,
) -> u32
    ensures stays { engine_of handle.new ≡ engine_of handle.old }
    ensures same { result ≡ 0 → IfSome (engine_of handle.old)
        (λ old. IfSome (engine_of other.new) (IsSnapshot old)) }
    ensures there { result ≡ 0 → engine_of other.new ≢ None }
    ensures was_open { result ≡ 0 → engine_of handle.old ≢ None }
    ensures unchanged { result ≢ 0 → engine_of other.new ≡ engine_of other.old }
    ensures memory { result ≢ 0 → IfSome (engine_of handle.old) (λ _. result ≡ 1) }
    ensures closed { IfNone (engine_of handle.old) (result ≡ 2) }
{
    with_engine!(alloc, handle, engine => {
        put(alloc, other, snapshot_of(alloc, &engine, seed))
    })
}
