//! Explanations of error codes: their meanings, likely causes and remedies; and names of kinds of
//! items.
#![tactic(auto)]

mod explanation;
mod kinds;
mod words;

pub use explanation::{Explanation, Of};
pub use kinds::kind_word;
