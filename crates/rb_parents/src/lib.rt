//! Explicit parents, shelves of bundles, and the trail of a name.
#![tactic(auto)]

mod child;
mod fault;
pub mod laws;
mod limits;
mod parents;
mod route;
mod shelf;
mod words;

pub use fault::{ParentsFault, TrailFault};
pub use limits::TRAIL_LIMIT;
pub use parents::Parents;
pub use route::{Next, Route, trail, visit};
pub use shelf::{ListShelf, Shelf};
