//! Compares trees: a walk through the items of several trees, equality, and the paths that reports show.
#![tactic(auto)]

mod equal;
mod item;
mod path;
mod walk;

pub use equal::are_equal;
pub use item::{has_text, is_icu_key};
pub use path::{SHOWN_PATH, push_shown, shortened};
pub use walk::{Member, Walk};
