//! Writes a tree as a resource bundle's file.
#![tactic(auto)]

mod area;
mod containers;
mod data;
mod file;
mod gather;
mod header;
mod item;
mod keys;
pub mod laws;
mod leaves;
mod put;
mod sorting;
mod spare;
mod table;
mod tree;

pub use file::{Written, write, write_if_light};
