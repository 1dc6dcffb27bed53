ghost use Rattle.std.specs.Prelude.{◌≡◌, None, option_map};
ghost use Rattle.rb_handle.specs.Handle.{boxed};

use rb_engine::Engine;
use rb_handle::{BundleHandle, Handle};
use rb_validator::Bundle;
use std::alloc::Global;
use std::mem;
use std::sync::Arc;

/// Takes the engine out of a handle, which is closed until it is put back.
pub(crate) fn take(alloc: Global, handle: &mut Handle) -> Option<Box<Arc<Engine>>>
    ensures engine { option_map boxed result ≡ handle.old.engine }
    ensures closed { handle.new.engine ≡ None }
{
    mem::replace(handle, Handle::closed(alloc)).into_engine()
}

/// Takes the bundle out of a handle, which is discarded until it is put back.
pub(crate) fn take_bundle(alloc: Global, handle: &mut BundleHandle) -> Option<Box<Bundle>>
    ensures bundle { option_map boxed result ≡ handle.old.file }
    ensures discarded { handle.new.file ≡ None }
{
    mem::replace(handle, BundleHandle::discarded(alloc)).into_bundle()
}

/// Evaluates a result with the contents of a handle, which it puts back. A handle without contents
/// gives `CLOSED`.
macro_rules! with_contents {
    ($take:ident, $kind:ident, $alloc:ident, $handle:ident, $contents:ident => $result:expr) => {
        match $crate::held::$take($alloc, $handle) {
            Some(mut $contents) => {
                let result = $result;
                *$handle = rb_handle::$kind::of($contents);
                result
            }
            None => $crate::numbers::CLOSED,
        }
    };
}

macro_rules! with_engine {
    ($($given:tt)*) => {
        $crate::held::with_contents!(take, Handle, $($given)*)
    };
}

macro_rules! with_bundle {
    ($($given:tt)*) => {
        $crate::held::with_contents!(take_bundle, BundleHandle, $($given)*)
    };
}

/// Evaluates what a handle without contents gets, and returns 0 or the number of the error. A
/// handle with contents keeps them, which gives `OPEN`.
macro_rules! fill {
    ($take:ident, $kind:ident, $alloc:ident, $handle:ident => $made:expr) => {
        match $crate::held::$take($alloc, $handle) {
            Some(contents) => {
                *$handle = rb_handle::$kind::of(contents);
                $crate::numbers::OPEN
            }
            None => match $made {
                Ok(made) => {
                    *$handle = rb_handle::$kind::of(made);
                    0
                }
                Err(number) => number,
            },
        }
    };
}

pub(crate) use fill;
pub(crate) use with_bundle;
pub(crate) use with_contents;
pub(crate) use with_engine;
