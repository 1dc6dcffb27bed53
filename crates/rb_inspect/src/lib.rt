//! The commands of `resb` that say what is in bundles, over any runtime: checking, items, lookups,
//! and the explanations of errors.
#![tactic(auto)]

mod checking;
mod explain_words;
mod getting;
mod inherited;
mod item;
mod lookup;
mod trace;
mod trace_steps;
mod words;

pub use checking::check;
pub use explain_words::explain;
pub use getting::get;
pub use inherited::print_tree;
pub use item::{ItemError, put_at};
pub use lookup::look_up;
