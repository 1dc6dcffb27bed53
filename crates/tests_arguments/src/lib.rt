//! Tests of command lines: `rb_arguments`.
#![tactic(auto)]

#[cfg(test)]
mod lines;
