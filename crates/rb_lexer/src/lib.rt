//! Lexer of bundle texts.
#![tactic(auto)]

mod builder;
mod check;
mod comment;
mod escape;
mod fault;
mod front;
pub mod laws;
mod lexer;
mod limits;
mod pending;
mod pieces;
mod quoted;
mod reader;
mod scan;
mod span;
mod stream;
mod text;
mod token;
mod units;
mod unquoted;
mod words;

pub use fault::{SourceFault, SourceKind};
pub use lexer::lex;
pub use limits::SOURCE_LIMIT;
pub use pieces::{PieceKind, TextPart, first_part, first_piece};
pub use stream::Tokens;
pub use token::{Mark, Token};
