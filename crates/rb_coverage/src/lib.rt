//! Compares the bundles of a module: what each locale lacks, and how it differs from what it
//! inherits.
#![tactic(auto)]

mod arguments;
mod chain;
mod compare;
mod counts;
mod coverage;
mod data;
mod fault;
mod finding;
mod translations;
mod walk;

pub use counts::Counts;
pub use coverage::Coverage;
pub use data::ProjectData;
pub use fault::CoverageFault;
pub use finding::{Finding, Found};
pub use translations::{Translations, translated_paths};
