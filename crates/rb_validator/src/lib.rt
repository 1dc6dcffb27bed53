//! Checks whether a file denotes a bundle: `accept` returns a `Bundle` or the first fault. The work
//! stays nearly linear in the file's length, even if tables and arrays overlap.
//!
//!     bundle ---> file ---> items ---> keys      valid, ascending keys of tables
//!                   |         '------> spans     heights of spans of items, if tables overlap
//!                   '-----> text_blocks          marks for lookups, stored in notes
#![tactic(auto)]

mod body;
mod bundle;
mod file;
mod items;
mod keys;
mod lists;
mod notes;
mod spans;
mod text_blocks;

pub use bundle::{Bundle, accept, check};
