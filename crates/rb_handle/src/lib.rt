//! An engine, or a bundle that was checked outside any engine, behind a handle in a C program's
//! memory.
#![tactic(auto)]

mod bundle_handle;
mod handle;
mod parts;

pub use bundle_handle::BundleHandle;
pub use handle::Handle;
