//! The arguments of each command, as a command line gives them and the command takes them.
#![tactic(auto)]

mod bundles;
mod files;
mod shared;
mod texts;

pub use bundles::{AskedInherited, AskedLines, AskedLookup};
pub use files::{
    AskedCheck, AskedCompile, AskedCompileAll, AskedDiff, AskedGet, AskedJson, AskedText, Compiling,
};
pub use shared::{Configured, ParentsSource};
pub use texts::{AskedCoverage, AskedFormat, AskedLint};
