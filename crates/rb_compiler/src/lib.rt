//! Compiles a bundle text to a file, or to a bundle.
#![tactic(auto)]

mod compiling;

pub use compiling::{compile, compile_bundle};
