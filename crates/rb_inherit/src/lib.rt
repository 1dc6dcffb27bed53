//! Trees with inheritance: an item with everything that its locale inherits, as one JSON value.
#![tactic(auto)]

mod error;
mod follow;
mod found;
pub mod laws;
mod layer;
mod leaf;
mod limits;
mod merge;
mod path;
mod place;
mod shelves;
mod stops;
mod tree;
mod whole;
mod words;

pub use error::TreeError;
pub use limits::{STEP_LIMIT, TREE_LIMIT, TreeLimits};
pub use whole::{TreeSize, put_tree, tree_size, tree_text};
