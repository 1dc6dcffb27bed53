//! Tests trees and bundle texts: `rb_tree`, `rb_lexer`, `rb_grammar`, `rb_parser`.
#![tactic(auto)]

#[cfg(test)]
mod grammar;
#[cfg(test)]
mod lexer;
#[cfg(test)]
mod parser;
#[cfg(test)]
mod tree;
