//! Stores the bundles of all applications and of ICUDATA: one index by application, and in it one
//! list of bundles for each application.
#![tactic(auto)]

mod app;
mod bundles;
mod draft;
mod fault;
mod hint;
mod lent;
mod limits;
mod owned;
mod package;
mod packages;
mod shelf;
mod stored_bundle;
mod usage;
mod words;

pub use app::{App, AppFault};
pub use draft::Draft;
pub use fault::{Absent, DraftFault, PackFault};
pub use hint::BundleHint;
pub use lent::LentItem;
pub use limits::BUNDLE_LIMIT;
pub use packages::Packages;
pub use shelf::AppShelf;
pub use usage::Usage;
