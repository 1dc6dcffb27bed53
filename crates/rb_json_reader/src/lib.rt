//! Reads the JSON form of a tree back (docs/JSON.md), from a reader of tokens: only the tree is in
//! memory, no value of the text.
#![tactic(auto)]

mod fault;
mod input;
mod key;
pub mod laws;
mod leaf;
mod limits;
mod number;
mod path;
mod place;
mod rows;
mod source;
mod text;
mod value;

pub use fault::{JsonFault, JsonFaultKind};
pub use limits::JSON_LIMIT;
pub use source::read_tree;
