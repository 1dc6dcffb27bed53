ghost use Rattle.std.specs.Prelude.{◌≡◌, Option, Some, None, option_map};
ghost use Rattle.rb_engine.specs.Kept.{Kept};
ghost use Rattle.std_alloc.specs.declared.arc.Arc.{Arc as Counted};
ghost use Rattle.std.specs.declared.alloc.Global.{Global as Heap};
ghost use Rattle.rb_handle.specs.Handle.{parts_value, boxed};

use crate::parts::Parts;
use rb_engine::Engine;
use std::alloc::Global;
use std::marker::{Model, Send};
use std::ptr::null_mut;
use std::sync::Arc;

/// An engine that handles share, or none.
#[repr(C)]
#[derive(Drop)]
pub struct Handle {
    at: *mut u8,
    alloc: Global,
    is_open: bool,
    pub ghost engine: { Option (Counted Kept Heap) },
}

impl Model for Handle {
    ghost use Rattle.rb_handle.specs.Handle.{handle_owns};

    ghost also_owns = { λ h. handle_owns h.is_open h.at h.alloc h.engine };
}

// A C program may pass a handle to another thread.
unsafe impl Send for Handle {}

impl Handle {
    /// Returns a handle without an engine.
    pub fn closed(alloc: Global) -> Handle
        ensures { result.engine ≡ None }
    {
        let at = null_mut();
        Handle::empty(at, alloc)
    }

    /// Returns a handle of an engine.
    pub fn of(engine: Box<Arc<Engine>>) -> Handle
        ensures { result.engine ≡ Some engine.value }
    {
        Handle::from_parts(Parts::of(engine))
    }

    /// Returns the handle's engine, if it is open.
    pub fn into_engine(self) -> Option<Box<Arc<Engine>>>
        ensures { option_map boxed result ≡ self.engine }
    {
        match self.into_parts() {
            Some(parts) => Some(parts.into_box()),
            None => None,
        }
    }

    fn empty(at: *mut u8, alloc: Global) -> Handle
        ensures { result.engine ≡ None }
    {
        Handle {
            at,
            alloc,
            is_open: false,
        }
    }

    fn from_parts(parts: Parts<Arc<Engine, Global>, Global>) -> Handle
        ensures { result.engine ≡ Some parts.value }
    {
        let Parts { pointer, alloc } = parts;
        Handle {
            at: pointer as *mut u8,
            alloc,
            is_open: true,
        }
    }

    fn into_parts(self) -> Option<Parts<Arc<Engine, Global>, Global>>
        ensures { option_map parts_value result ≡ self.engine }
    {
        let Handle { at, alloc, is_open } = self;
        if is_open {
            return Some(Parts {
                pointer: at as *mut Arc<Engine, Global>,
                alloc,
            });
        }
        None
    }
}
