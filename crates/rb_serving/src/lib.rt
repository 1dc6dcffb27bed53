//! Serves lookups over standard input: starts an engine with the files of a command line, and
//! answers lines under limits.
#![tactic(auto)]

mod batching_writer;
mod serve;
mod server;
mod start;

pub use serve::Serving;
