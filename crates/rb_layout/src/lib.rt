//! Lays out bundle texts and keeps their comments.
#![tactic(auto)]

mod body;
mod comments;
mod fault;
mod formatting;
mod gap;
pub mod laws;
mod layout;
mod piece;
mod scan;
mod style;
mod tokens;
mod window;

pub use fault::FormatFault;
pub use formatting::{format, format_in};
pub use style::Style;
