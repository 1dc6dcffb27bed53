//! Stores the heights of spans of items (`cache`, `nests`), and finds spans of leaves (`leaves`).
pub mod cache;
mod leaves;
mod nests;
