//! The commands that make one form of bundles from another, and that say what is in them.
#![tactic(auto)]

mod running;

pub use running::Bundles;
