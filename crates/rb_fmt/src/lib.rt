//! The command `resb fmt`, over any runtime.
#![tactic(auto)]

mod changes;
mod command;
mod difference;
mod lines;

pub use command::format_all;
