//! The engine for C programs. `tools/library` exports the functions that are marked for C, in a
//! static library over this one.
#![tactic(auto)]

pub mod alias_targets;
pub mod bundle_forms;
pub mod changes;
pub mod check;
pub mod children;
pub mod compile;
pub mod edit;
pub mod entry;
pub mod exports;
pub mod found;
mod held;
pub mod icu;
pub mod item_texts;
pub mod json_source;
pub mod lint;
pub mod lists;
pub mod looks;
pub mod names;
mod numbers;
pub mod open;
pub mod open_locales;
pub mod origins;
pub mod prepared;
pub mod releases;
pub mod snapshots;
mod start;
mod text;
pub mod usage;
pub mod utf8;
pub mod version;
