//! Printer of bundle texts.
#![tactic(auto)]

mod budget;
mod bundle;
mod error;
pub mod laws;
mod leaf;
mod limit;
mod line;
mod text;
mod tree;

pub use bundle::print_bundle;
pub use error::PrintError;
