//! Compiles a bundle text to a file, and handles requests and lookups of many applications over
//! their bundles.
#![tactic(auto)]

mod app_shelves;
mod asked;
mod engine;
mod handle;
mod hints;
mod incoming;
mod item_shelf;
mod kept_items;
mod kept_path;
pub mod laws;
mod open_locale;
mod open_locales;
mod payload;
mod place;
mod request;
mod same_name;
mod spot;
mod start;
mod versions;
mod words;

pub use app_shelves::AppShelves;
pub use engine::Engine;
pub use handle::Change;
pub use hints::Upcoming;
pub use incoming::IncomingBundle;
pub use open_locale::{OpenLocale, Stale};
pub use payload::ReadFault;
pub use rb_compiler::compile;
pub use rb_packages::{App, AppFault, BUNDLE_LIMIT, Draft, DraftFault, Usage};
pub use request::{BundleSource, LookFault, NameList, Payload, Reply, Request, TooManySteps};
pub use start::StartFault;
