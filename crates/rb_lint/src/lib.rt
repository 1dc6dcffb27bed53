//! Linter of bundle texts: finds what is valid but probably not meant, and where an error began.
#![tactic(auto)]

mod adjacent;
mod allowed;
mod braces;
mod collector;
mod compare;
mod difference;
mod direction;
mod entry_paths;
mod escapes;
mod fault;
mod finding;
mod heap;
mod keys;
mod language;
mod layout;
mod lengths;
mod links;
mod messages;
mod name;
mod named_text;
mod parent;
mod path;
mod pattern;
mod piece;
mod pieces;
mod position;
mod repeated;
mod report;
mod rule;
mod scan;
mod search;
mod text_tokens;
mod unit_walk;
mod values;
mod warning;

pub use difference::{Change, Difference};
pub use entry_paths::paths_at;
pub use fault::{About, FaultText};
pub use finding::{Finding, Message, Severity};
pub use lengths::{PathLength, lengths_in};
pub use pattern::PatternDoubt;
pub use report::{Report, Settings, WARNING_LIMIT, find_all};
pub use rule::{Levels, Rule, RuleSet};
pub use warning::Doubt;
