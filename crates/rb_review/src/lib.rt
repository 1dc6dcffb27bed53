//! The commands of `resb` that judge bundle texts, over any runtime: `lint` and `coverage`.
#![tactic(auto)]

mod baseline;
mod coverage;
mod coverage_output;
mod data;
mod escaped;
mod left_out;
mod lint_output;
mod lint_words;
mod linting;
mod same_texts;
mod snippet;
mod string_limits;

pub use coverage::cover_all;
pub use linting::lint_all;
