//! Borrowed views of a bundle's items, which implement `Node`. No call allocates.
#![tactic(auto)]

mod array;
mod bundle;
mod item;
mod leaves;
mod node;
mod place;
mod table;

pub use array::Array;
pub use bundle::{root, root_at, root_place};
pub use item::Item;
pub use leaves::{Ints, Units};
pub use place::RootPlace;
pub use table::{Pairs, Table};
