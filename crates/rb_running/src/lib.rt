//! Reads the command line of a program, and runs what it asks for.
#![tactic(auto)]

mod command_line;
mod raw_arguments;

pub use command_line::{Commands, lacking, run_program};
