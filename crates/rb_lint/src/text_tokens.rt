//! Splits and parses texts. Only these functions call the lexer and the parser, as each call of a function with a
//! long contract takes time to prove.
ghost use Rattle.std.specs.Prelude.{IfOk};
ghost use Rattle.rb_lint.specs.Warnings.{IsCompiled};

use crate::heap::Heap;
use rb_lexer::{SourceFault, SourceKind, Token, Tokens};
use rb_parser::{Source, parse};
use std::alloc::{AllocError, Global};

/// Parses a text.
pub(crate) fn parse_text(alloc: Global, text: &[u8]) -> Result<Source, SourceFault>
    ensures { IfOk result (λ s. IsCompiled text.now) }
{
    parse(alloc, text)
}

/// The tokens of a text, or none if it can't be split.
#[derive(Drop)]
pub(crate) struct TextTokens<'a> {
    tokens: Option<Tokens<'a>>,
}

impl<'a> TextTokens<'a> {
    /// Splits a text.
    pub(crate) fn of(heap: &mut Heap, text: &'a [u8]) -> TextTokens<'a> {
        match Tokens::of(heap.alloc, text) {
            Ok(tokens) => TextTokens {
                tokens: Some(tokens),
            },
            Err(fault) => {
                if fault.kind == SourceKind::Memory {
                    heap.fail();
                }
                TextTokens { tokens: None }
            }
        }
    }

    /// Takes the next token, if there is one.
    pub(crate) fn pop(&mut self, heap: &mut Heap) -> Option<Token> {
        match self.tokens.as_mut()?.pop() {
            Ok(token) => token,
            Err(_) => {
                heap.fail();
                None
            }
        }
    }
}
