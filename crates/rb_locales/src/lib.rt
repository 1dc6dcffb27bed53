//! Locale names in their canonical form: UTS #35 identifiers with underscores.
#![tactic(auto)]

mod casing;
mod fault;
mod limits;
mod name;
mod order;
mod units;
mod words;

pub use fault::BadLocale;
pub use limits::NAME_LIMIT;
pub use name::Name;
