//! The commands of `resb` that make one form of bundles from another, over any runtime: compiling,
//! printing texts and JSON, and making request lines.
#![tactic(auto)]

mod batch;
mod compare;
mod compiling;
mod difference;
mod diffing;
mod making;
mod request_lines;
mod texts;
mod value;
mod words;

pub use batch::compile_all;
pub use compiling::compile;
pub use diffing::diff;
pub use request_lines::lines;
pub use texts::{name_of, text};
pub use value::{ValueError, json, put_value_at};
