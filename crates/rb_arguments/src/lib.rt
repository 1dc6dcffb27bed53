//! The command line of `resb`: its commands, their arguments and help, and what a command line asks
//! for.
#![tactic(auto)]

mod argument;
mod asking;
mod bundle_commands;
mod command_line;
mod description;
mod file_commands;
mod serving;
mod text_commands;

pub use asking::{Asked, AskedLimits, AskedServe, asked_by};
pub use command_line::commands_for;
