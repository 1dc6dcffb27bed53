//! Parser of bundle texts.
#![tactic(auto)]

mod cursor;
mod key;
pub mod laws;
mod leaf;
mod parser;
mod source;
mod table;
mod word;

pub use source::{Source, parse, parse_unweighed};
