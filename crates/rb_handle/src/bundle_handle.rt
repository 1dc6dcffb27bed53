ghost use Rattle.std.specs.Prelude.{◌≡◌, List, ℕ, Option, Some, None, option_map};
ghost use Rattle.rb_handle.specs.Handle.{parts_value, boxed};

use crate::parts::Parts;
use rb_validator::Bundle;
use std::alloc::Global;
use std::marker::{Model, Send};
use std::ptr::null_mut;

/// A bundle that was checked outside any engine, or none.
#[repr(C)]
#[derive(Drop)]
pub struct BundleHandle {
    at: *mut u8,
    alloc: Global,
    is_prepared: bool,
    pub ghost file: { Option (List ℕ) },
}

impl Model for BundleHandle {
    ghost use Rattle.rb_handle.specs.BundleHandle.{bundle_owns};

    ghost also_owns = { λ h. bundle_owns h.is_prepared h.at h.alloc h.file };
}

// A C program may pass a handle to another thread.
unsafe impl Send for BundleHandle {}

impl BundleHandle {
    /// Returns a handle without a bundle.
    pub fn discarded(alloc: Global) -> BundleHandle
        ensures { result.file ≡ None }
    {
        let at = null_mut();
        BundleHandle::empty(at, alloc)
    }

    /// Returns a handle of a bundle.
    pub fn of(bundle: Box<Bundle>) -> BundleHandle
        ensures { result.file ≡ Some bundle.value }
    {
        BundleHandle::from_parts(Parts::of(bundle))
    }

    /// Returns the handle's bundle, if there is one.
    pub fn into_bundle(self) -> Option<Box<Bundle>>
        ensures { option_map boxed result ≡ self.file }
    {
        match self.into_parts() {
            Some(parts) => Some(parts.into_box()),
            None => None,
        }
    }

    fn empty(at: *mut u8, alloc: Global) -> BundleHandle
        ensures { result.file ≡ None }
    {
        BundleHandle {
            at,
            alloc,
            is_prepared: false,
        }
    }

    fn from_parts(parts: Parts<Bundle, Global>) -> BundleHandle
        ensures { result.file ≡ Some parts.value }
    {
        let Parts { pointer, alloc } = parts;
        BundleHandle {
            at: pointer as *mut u8,
            alloc,
            is_prepared: true,
        }
    }

    fn into_parts(self) -> Option<Parts<Bundle, Global>>
        ensures { option_map parts_value result ≡ self.file }
    {
        let BundleHandle {
            at,
            alloc,
            is_prepared,
        } = self;
        if is_prepared {
            return Some(Parts {
                pointer: at as *mut Bundle,
                alloc,
            });
        }
        None
    }
}
